//! The memory grant manager as a state machine: its configuration, its plain types, and all its rules as definitions and laws.
//! Nothing here takes memory, keeps a state or meets the outside; the manager itself stands in the crate above.
#![tactic(auto)]

mod configuration;
mod events;
mod laws;
mod rows;
#[cfg(test)]
mod tests;

pub use configuration::Config;
pub use events::{Answer, Entry, Event, How, Reply, Setting, Why};
pub use laws::{
    admits_heads_only, admitted_go_first, bounds_overtaking, conserves, gives_numbers_once,
    has_one_head, journal_has_room, loans_stay, marks_are_cancellations, numbers_are_unique,
    only_owners_take, only_submits_add, orders_the_waiting, owners_are_open, sessions_stay,
    settles, shares_suffice, tickets_stay,
};
pub use rows::{Active, ActiveRow, Admit, Pending, Session, Waiting, WaitingRow, Withdrawn};
