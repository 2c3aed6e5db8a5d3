//! The journal: what happened, entry by entry.
ghost use Rattle.std.specs.Prelude.{true, ◌≡◌, ◌<◌, ◌≤◌, vec_capacity, vec_len};
ghost use Rattle.pdq_model.specs.Step.{is_entered};
ghost use Rattle.pdq_gate.specs.Journal.{history_after};

use pdq_model::{Answer, Entry, Event};

/// The most entries of a journal.
pub(crate) const MOST_ENTRIES: u32 = 400_000;

/// Enters an event of this session, where its answer says so.
pub(crate) fn enter(journal: &mut Vec<Entry>, session: u32, event: Event, answer: Answer)
    requires room { is_entered answer ≡ true → vec_len journal.old < 400000 }
    requires capacity { 400000 ≤ vec_capacity journal.old }
    ensures history { journal.new.items ≡ history_after journal.old.items session event answer }
    ensures capacity { 400000 ≤ vec_capacity journal.new }
{
    match answer {
        Answer::Entered(reply) => journal.push_reserved(Entry {
            session,
            event,
            reply,
        }),
        Answer::Waits(_) => {}
        Answer::Refuses(_) => {}
    }
}
