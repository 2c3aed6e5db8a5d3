//! The values and cells that words stand for.
ghost use Rattle.std.specs.Prelude.{◌≡◌, IfOk};
ghost use Rattle.pdq_base.specs.Words.{is_null};
ghost use Rattle.pdq_dict.specs.Coding.{cell_of_word, text_of_word, value_of_word};

use crate::dictionary::Dict;
use pdq_base::Memory;
use pdq_value::{Cell, Kind, Text, Value};
use std::alloc::Global;

/// The word of Null, which is no number and no text's code.
pub const NULL_WORD: i64 = i64::MIN;

fn is_null(word: i64) -> bool
    ensures value { result ≡ is_null word }
{
    word == NULL_WORD
}

impl Dict {
    /// The text of a word in a column of texts.
    fn text_of_word(&self, alloc: Global, word: i64) -> Result<Text, Memory>
        ensures value { IfOk result (λ t. t ≡ text_of_word self.now word) }
    {
        Text::from_bytes(alloc, self.text_or_empty(word.unsigned_abs()))
    }

    /// The value of a word in a column of this kind.
    ///
    /// # Errors
    /// `Memory` where it is wanting.
    pub fn value_of_word(&self, alloc: Global, kind: Kind, word: i64) -> Result<Value, Memory>
        ensures value { IfOk result (λ v. v ≡ value_of_word self.now kind word) }
    {
        if is_null(word) {
            return Ok(Value::Null);
        }
        match kind {
            Kind::Number { .. } => Ok(Value::Number(word)),
            Kind::Words => Ok(Value::Words(self.text_of_word(alloc, word)?)),
        }
    }

    /// The cell of a word in a column of this kind.
    ///
    /// # Errors
    /// `Memory` where it is wanting.
    pub fn cell_of_word(&self, alloc: Global, kind: Kind, word: i64) -> Result<Cell, Memory>
        ensures value { IfOk result (λ cell. cell ≡ cell_of_word self.now kind word) }
    {
        if is_null(word) {
            return Ok(Cell::Nothing);
        }
        match kind {
            Kind::Number { scale } => Ok(Cell::Number {
                unscaled: i128::from(word),
                scale,
            }),
            Kind::Words => Ok(Cell::Words(self.text_of_word(alloc, word)?)),
        }
    }
}
