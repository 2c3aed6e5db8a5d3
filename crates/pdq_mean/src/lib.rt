//! The plain evaluator of queries: the definition of an answer as a program.
#![tactic(auto)]

mod cell_ref;
mod choices;
mod conditions;
mod evaluation;
mod group_columns;
mod groups;
mod key_numbers;
mod key_prefixes;
mod rows;
mod tallies;

pub use evaluation::{SerialFault, serial};
pub use rows::sort_rows;
