//! The laws of dictionaries and codes. Each is the clause of a function with nothing to do.
ghost use Rattle.pdq_dict.specs.Laws.{CodesBelowAPlace, CodesCompareAsTexts, DictionariesHoldTheTexts, DictionariesRise};

/// A dictionary rises strictly: each text stands in it once.
#[tactic(auto, using(crate::proofs::Dictionaries::dictionaries_rise))]
pub fn dictionaries_rise()
    ensures law { DictionariesRise }
{}

/// The texts of a dictionary are those of the tables.
#[tactic(auto, using(crate::proofs::Dictionaries::dictionaries_hold_the_texts))]
pub fn dictionaries_hold_the_texts()
    ensures law { DictionariesHoldTheTexts }
{}

/// Two codes compare as their texts do.
#[tactic(auto, using(crate::proofs::Codes::codes_compare_as_texts))]
pub fn codes_compare_as_texts()
    ensures law { CodesCompareAsTexts }
{}

/// The codes below the place of a text, which may be there or not, are those of the texts that are less.
#[tactic(auto, using(crate::proofs::Codes::codes_below_a_place))]
pub fn codes_below_a_place()
    ensures law { CodesBelowAPlace }
{}
