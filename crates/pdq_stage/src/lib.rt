//! Stages of a run over the stores of its owners, whatever the plan.
#![tactic(auto)]

mod spools;

pub use spools::{back_spools, close_spools, open_spools};
