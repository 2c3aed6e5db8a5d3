//! What goes in and out of a session of lines: the reader of lines, the text of each reply and of each refusal, and the change
//! that a line of ONMODE asks for.
#![tactic(auto)]

mod answers;
mod changes;
mod lines;
mod replies;
#[cfg(test)]
mod tests;

pub use answers::{
    add_answer, add_refused_schema, add_refused_select, add_refused_table, add_store_failed,
    add_too_many_rows,
};
pub use changes::change_for;
pub use lines::{LineOutcome, LineReader};
pub use replies::{
    LineFault, Refusal, add_admits, add_cancelled, add_changed, add_chosen, add_closed, add_done,
    add_end, add_failed, add_fault, add_flagged, add_pending, add_placed, add_priority,
    add_refusal, add_session, add_stopped, add_withdrawn,
};
