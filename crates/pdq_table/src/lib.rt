//! Tables of a schema: loaded from CSV files, and stored in fragments.
#![tactic(auto)]

mod fields;
mod fragment;
mod headers;
mod laws;
mod loading;
mod noted_words;
mod noting;
mod records;
mod rows;
mod stored_table;
mod storing;
mod tables;

pub use fragment::Fragment;
pub use laws::fragments_hold_the_rows;
pub use loading::load;
pub use storing::Stored;

#[cfg(test)]
mod storing_tests;
#[cfg(test)]
mod tests;
