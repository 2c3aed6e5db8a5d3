//! The mode `make`: tables of any size that are computed from a number, and three queries over them under one manager.
#![tactic(auto)]

mod made_tables;
mod making;

pub use making::make_text;
