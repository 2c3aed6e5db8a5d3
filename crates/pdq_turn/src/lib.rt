//! A ticket lock over a shared state with a journal. Callers get the state one at a time, in the order in which they drew tickets, and all the
//! turns together make one linear history: each turn finds the entries of the turns before it and adds one at most.
//!
//! A `Pass` is a caller's view of the history: the entries that it has seen, which are always the beginning of the whole, and its own among them.
#![tactic(auto)]

mod journaled;
mod laws;
mod lock;
mod rule;
#[cfg(test)]
mod tests;
mod turnstile;
mod view;

pub use journaled::Journaled;
pub use laws::{
    ended_parties_gone, entries_counted, joined_is_idle, one_first_pass, one_mark, one_turn,
    parties_apart, state_at_home, tickets_held, views_hold,
};
pub use lock::{Pass, Turnstile};
pub use view::PassView;
