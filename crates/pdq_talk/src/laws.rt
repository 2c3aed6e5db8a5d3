//! What is true of transcripts where the history grows, as laws that a caller can cite.
ghost use Rattle.pdq_talk.specs.Laws.{EntriesGoOn, RepliesStay, StepsRise, TextsGoOn, TranscriptsGoOn};

/// A reply that was the right one stays so.
#[tactic(auto, using(crate::proofs::Growing::reply_stays))]
pub fn replies_stay()
    ensures law { RepliesStay }
{}

/// The transcript of the lines so far goes on with one line more, over what the pass has then seen.
#[tactic(auto, using(crate::proofs::Growing::go_on))]
pub fn transcripts_go_on()
    ensures law { TranscriptsGoOn }
{}

/// So does its text.
#[tactic(auto, using(crate::proofs::Growing::texts_go_on))]
pub fn texts_go_on()
    ensures law { TextsGoOn }
{}

/// And its entries.
#[tactic(auto, using(crate::proofs::Growing::entries_go_on))]
pub fn entries_go_on()
    ensures law { EntriesGoOn }
{}

/// Printed steps never fall.
#[tactic(auto, using(crate::proofs::Growing::steps_rise))]
pub fn steps_rise()
    ensures law { StepsRise }
{}
