//! The last step of a run with groups: the rows that lanes give are grouped over the owners' benches, and the groups are the answer.
#![tactic(auto)]

mod answering;
mod folding;

pub use answering::{FoldedRows, fold_answer};
pub use folding::{Grouped, fold_lanes};
