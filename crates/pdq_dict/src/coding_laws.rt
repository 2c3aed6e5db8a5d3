//! The laws of the words that stand for values and cells. Each is the clause of a function with nothing to do.
ghost use Rattle.pdq_dict.specs.CodingLaws.{CellsAreReadBack, EqualWordsAreEqualCells, ValuesAreReadBack, ValuesHaveWordsOfCells, ValuesOfTablesHaveCodes, WordsCompareAsCells};

/// A value is read back from its word: a number, a text and Null.
#[tactic(auto, using(crate::proofs::CodedCells::values_are_read_back))]
pub fn values_are_read_back()
    ensures law { ValuesAreReadBack }
{}

/// A cell is read back from its word: a number, a text and nothing.
#[tactic(auto, using(crate::proofs::CodedCells::cells_are_read_back))]
pub fn cells_are_read_back()
    ensures law { CellsAreReadBack }
{}

/// Within one column words compare as their cells, nothing first.
#[tactic(auto, using(crate::proofs::CodedCells::words_compare_as_cells))]
pub fn words_compare_as_cells()
    ensures law { WordsCompareAsCells }
{}

/// In columns of one kind, also of two tables, equal words are of equal cells.
#[tactic(auto, using(crate::proofs::CodedCells::equal_words_are_equal_cells))]
pub fn equal_words_are_equal_cells()
    ensures law { EqualWordsAreEqualCells }
{}

/// The word of a value of a column is that of its cell.
#[tactic(auto, using(crate::proofs::CodedCells::values_have_words_of_cells))]
pub fn values_have_words_of_cells()
    ensures law { ValuesHaveWordsOfCells }
{}

/// Each value of some tables has a code in their dictionary.
#[tactic(auto, using(crate::proofs::CodedCells::values_of_tables_have_codes))]
pub fn values_of_tables_have_codes()
    ensures law { ValuesOfTablesHaveCodes }
{}
