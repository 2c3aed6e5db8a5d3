//! The owners of a query's rows, and the loop that feeds them: rows are built, probed, grouped or kept, in granted memory or in blocks of a store.
#![tactic(auto)]

mod builder;
mod collector;
mod fills;
mod folder;
mod kept;
mod prober;
mod rounds;
mod spool;

pub use builder::Builder;
pub use collector::Collector;
pub use fills::{Counted, Fills};
pub use folder::Folder;
pub use kept::Kept;
pub use prober::Prober;
pub use rounds::{ask, waves};
pub use spool::Spool;
