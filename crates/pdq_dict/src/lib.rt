//! The dictionary of the texts of a database, and the words that stand for values.
#![tactic(auto)]

mod coding;
mod coding_laws;
mod dictionary;
mod gathering;
mod laws;
mod text_sets;

pub use coding::NULL_WORD;
pub use coding_laws::{
    cells_are_read_back, equal_words_are_equal_cells, values_are_read_back,
    values_have_words_of_cells, values_of_tables_have_codes, words_compare_as_cells,
};
pub use dictionary::Dict;
pub use laws::{
    codes_below_a_place, codes_compare_as_texts, dictionaries_hold_the_texts, dictionaries_rise,
};
pub use text_sets::Notes;

#[cfg(test)]
mod tests;
