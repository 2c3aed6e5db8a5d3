//! One question alone: a plain table as stored tables, and the answer of a query in memory of its own.
#![tactic(auto)]

mod answering;
mod plain;

pub use answering::answer_alone;
pub use plain::read_stored;
