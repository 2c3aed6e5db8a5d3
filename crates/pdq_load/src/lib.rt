//! The tables of a schema file, from the files that a run is lent to stored tables.
#![tactic(auto)]

mod loading;
mod reading_files;

pub use loading::{Unloaded, load_tables};
