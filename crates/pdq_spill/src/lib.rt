//! Rows that find no room in granted memory: the blocks of a store in which they stand, the lists of rows made of them, and what operators share:
//! their faults, where they put rows, what they work with, and the hash of key words.
#![tactic(auto)]

mod bench;
mod block;
mod faults;
mod hash;
mod partition;
mod row_out;
#[cfg(test)]
mod tests;

pub use bench::Bench;
pub use block::Block;
pub use faults::ExecFault;
pub use hash::{EXCHANGE_FACTOR, GROUP_FACTOR, JOIN_FACTOR, mixed, reduced};
pub use partition::Partition;
pub use row_out::RowOut;
