//! The answer of a query, from what its run leaves: the last rows in words, or the groups of them.
#![tactic(auto)]

mod answers;
mod decoding;
mod grouping;
mod sources;
#[cfg(test)]
mod tests;

pub use answers::{empty_answer, grouped_answer, plain_answer};
pub use grouping::{folds, group_picks, group_row_width, group_shape, is_grouped};
