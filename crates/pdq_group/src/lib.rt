//! Grouping: each distinct key of the rows that come is put once, with its folds over all its rows.
//!
//! The groups stand in a region of granted memory. Rows whose keys find no room there go to blocks of a store, and are read again in a next pass,
//! once the groups that stand were put: so each pass but the last retires as many keys as there is room for.
#![tactic(auto)]

mod fold;
mod group;
mod grouper;
mod passes;
mod shape;
mod steps;
mod table;
#[cfg(test)]
mod tests;
mod trees;

pub use grouper::{Folded, Grouper};
pub use shape::{Fold, GroupShape};
pub use steps::Steps;
