//! The answer of a query, worked out within its grant.
#![tactic(auto)]

mod evaluating;
mod planning;
mod printing;

pub use evaluating::{Evaluated, evaluate};
pub use printing::add_evaluated;
