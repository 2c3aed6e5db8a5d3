//! Scanners: what a scan thread reads, rows of fragments of a stored table, or of the partition of an owner.
#![tactic(auto)]

mod fragment_scanner;
mod partition_scans;
mod picker;
mod reader;
mod table_scans;
#[cfg(test)]
mod tests;
mod word_tests;

pub use fragment_scanner::FragmentScanner;
pub use partition_scans::{leave_partitions, partition_lanes};
pub use reader::PartitionScanner;
pub use table_scans::{lanes_scan_the_step, table_lanes};
pub use word_tests::WordTest;
