//! Fragment elimination: which fragments of the tables of a query can hold its rows.
#![tactic(auto)]

mod excluding;
mod keeping;
mod laws;
#[cfg(test)]
mod tests;

pub use keeping::{left, widest};
pub use laws::left_fragments_hold_the_rows;
