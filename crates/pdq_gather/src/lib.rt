//! The last step of a run: the rows that lanes give are grouped, or kept as they come.
#![tactic(auto)]

mod benches;
mod collecting;
mod ending;
mod grouping;
mod limit;
mod moving;
mod over_benches;
mod plans;
mod step;

pub use collecting::{collect, collect_step};
pub use limit::hold_too_many;
pub use over_benches::group_step;
pub use step::fold_step;
