//! The schema file: the shapes of tables, their files, and how their rows are cut into fragments.
#![tactic(auto)]

mod columns;
mod copying;
mod cuts;
mod cutting;
mod entries;
mod faults;
mod keys;
mod ranges;
mod reading;
mod schema;
#[cfg(test)]
mod tests;
mod tree;

pub use copying::copy_shape;
pub use cuts::{Cut, Range, compare, range_number};
pub use faults::{SchemaFault, SchemaWhy};
pub use reading::read_schema;
pub use schema::Schema;
