//! Plans of queries: the order in which the tables of a query are joined, and what is done with each.
#![tactic(auto)]

mod columns;
mod due;
mod laws;
mod making;
mod order;
mod shape;
#[cfg(test)]
mod tests;

pub use laws::{plans_mean_the_answer, plans_take_each_table};
pub use making::plan;
pub use shape::{Plan, Step};
