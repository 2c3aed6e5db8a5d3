//! The laws of the manager, over every legal history from a valid configuration. Each stands on a function with nothing to do.

ghost use Rattle.pdq_model.specs.Given.{NumbersAreGivenOnce, OwnersAreOpen, MarksAreCancellations, SharesSuffice};
ghost use Rattle.pdq_model.specs.Kept.{TicketsStay, LoansStay, OnlySubmitsAdd, SessionsStay};
ghost use Rattle.pdq_model.specs.Laws.{LimitsAreKept, EntriesSettle, OnlyHeadsAreAdmitted, OvertakingIsBounded, JournalHasRoom, NumbersAreUnique, HeadsAreFirst, OrderIsWritten, OnlyOwnersTake, AdmittedGoFirst};

/// Reserved quanta never pass DS_MAX_QUERIES, nor scan threads DS_MAX_SCANS, and at most DS_MAX_QUERIES queries are active.
#[tactic(auto, using(crate::proofs::Histories::limits_are_kept))]
pub fn conserves()
    ensures law { LimitsAreKept }
{}

/// After each entry a gate refuses the head, if there is one; where nothing is active, nothing waits and no change is pending.
#[tactic(auto, using(crate::proofs::Histories::entries_settle))]
pub fn settles()
    ensures law { EntriesSettle }
{}

/// What an entry admits was the head when it was admitted, and no gate refused it.
#[tactic(auto, using(crate::proofs::Histories::only_heads_are_admitted))]
pub fn admits_heads_only()
    ensures law { OnlyHeadsAreAdmitted }
{}

/// What an entry admits was before every other waiting query when it was admitted.
#[tactic(auto, using(crate::proofs::Numbers::admitted_go_first))]
pub fn admitted_go_first()
    ensures law { AdmittedGoFirst }
{}

/// No waiting query was overtaken more than 32 times.
#[tactic(auto, using(crate::proofs::Histories::overtaking_is_bounded))]
pub fn bounds_overtaking()
    ensures law { OvertakingIsBounded }
{}

/// The journal has room for all that is reserved, within 400,000 entries: to close a session, to collect, to finish and to cancel is
/// never refused for want of room.
#[tactic(auto, using(crate::proofs::Histories::journal_has_room))]
pub fn journal_has_room()
    ensures law { JournalHasRoom }
{}

/// No two queries that wait, are active or were withdrawn have one number, nor have two open sessions; numbers count from 1 and each is
/// given once.
#[tactic(auto, using(crate::proofs::Numbers::numbers_are_unique))]
pub fn numbers_are_unique()
    ensures law { NumbersAreUnique }
{}

/// Where any query waits there is a head, and it is before every other.
#[tactic(auto, using(crate::proofs::Numbers::heads_are_first))]
pub fn has_one_head()
    ensures law { HeadsAreFirst }
{}

/// The waiting queries have one written order, in which each is before all that follow, and it begins with the head.
pub fn orders_the_waiting()
    ensures law { OrderIsWritten }
{}

/// An event of one session takes no query of another session from the lists, nor adds one to them: a query of another stays known, until its
/// owner collects it withdrawn or finishes it.
pub fn only_owners_take()
    ensures law { OnlyOwnersTake }
{}

/// A query that is to be collected stays so until its owner collects it.
#[tactic(auto, using(crate::proofs::Staying::tickets_stay))]
pub fn tickets_stay()
    ensures law { TicketsStay }
{}

/// A query that its owner has collected stays so, with its quanta and the frames of a quantum, until its owner finishes it.
pub fn loans_stay()
    ensures law { LoansStay }
{}

/// No event adds a query to a session but the one that it submits.
#[tactic(auto, using(crate::proofs::Fewer::only_submits_add))]
pub fn only_submits_add()
    ensures law { OnlySubmitsAdd }
{}

/// An open session stays open until it is closed.
#[tactic(auto, using(crate::proofs::Fewer::sessions_stay))]
pub fn sessions_stay()
    ensures law { SessionsStay }
{}

/// A legal history gives the numbers 1, 2, 3 and so on to its queries, each once and in this order, and likewise to its sessions.
#[tactic(auto, using(crate::proofs::Given::numbers_are_given_once))]
pub fn gives_numbers_once()
    ensures law { NumbersAreGivenOnce }
{}

/// The session of each query that waits, is active or was withdrawn is open.
#[tactic(auto, using(crate::proofs::Open::owners_are_open))]
pub fn owners_are_open()
    ensures law { OwnersAreOpen }
{}

/// The step of each flag, and of each withdrawal, is the place of an entry that cancels this very query.
#[tactic(auto, using(crate::proofs::Marks::marks_are_cancellations))]
pub fn marks_are_cancellations()
    ensures law { MarksAreCancellations }
{}

/// An active query has a quantum at least, each of 32 frames or more, and 1 to 16 scan threads.
#[tactic(auto, using(crate::proofs::Shares::shares_suffice))]
pub fn shares_suffice()
    ensures law { SharesSuffice }
{}
