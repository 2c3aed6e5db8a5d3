//! The words of rows while tables are read: a text stands as the number of its note.
ghost use Rattle.std.specs.Prelude.{◌≡◌, ◌≤◌, All, IfOk, OnOk, fold, length, map};
ghost use Rattle.pdq_dict.specs.Dictionary.{texts_of_row, texts_of_value};
ghost use Rattle.pdq_dict.specs.Texts.{noted};
ghost use Rattle.pdq_table.specs.NotedWords.{IsNoted, IsSmall, noted_row, noted_word, recoded};

use pdq_base::Memory;
use pdq_dict::{NULL_WORD, Notes};
use pdq_value::Value;
use std::alloc::Global;

/// Above each number of a table, which is below 10^18 in magnitude.
pub(crate) const NOTE_BASE: i64 = 1_000_000_000_000_000_000;

/// The word of a value, whose text is noted.
fn noted_word(alloc: Global, notes: &mut Notes, value: &Value) -> Result<i64, Memory>
    requires small { IsSmall value.now }
    ensures noted { OnOk result (notes.new ≡ fold noted notes.old (texts_of_value value.now)) }
    ensures word { IfOk result (λ w. w ≡ noted_word notes.new value.now) }
    ensures each { OnOk result (IsNoted notes.new value.now) }
{
    match value {
        Value::Null => Ok(NULL_WORD),
        Value::Number(number) => Ok(*number),
        Value::Words(text) => {
            let number = notes.note(alloc, text.bytes())?;
            Ok(NOTE_BASE + i64::from(number))
        }
    }
}

/// Puts the words of a row in place of what was there, and notes its texts.
pub(crate) fn note_row(
    alloc: Global,
    notes: &mut Notes,
    values: &[Value],
    words: &mut Vec<i64>,
) -> Result<(), Memory>
    requires small { All IsSmall values.now }
    ensures noted { OnOk result (notes.new ≡ fold noted notes.old (texts_of_row values.now)) }
    ensures words { OnOk result (words.new.items ≡ noted_row notes.new values.now) }
    ensures each { OnOk result (All (IsNoted notes.new) values.now) }
{
    words.clear();
    for value in values {
        let word = noted_word(alloc, notes, value)?;
        let Ok(()) = words.push(word) else {
            return Err(Memory);
        };
    }
    Ok(())
}

/// The word with the code of its text in place of the number of its note.
fn recoded(codes: &[u32], word: i64) -> i64
    ensures value { result ≡ recoded codes.now word }
{
    if word < NOTE_BASE {
        return word;
    }
    let number = (word - NOTE_BASE) as usize;
    if number < codes.len() {
        i64::from(codes[number])
    } else {
        0
    }
}

/// Puts the codes of texts in place of the numbers of their notes.
pub(crate) fn recode_words(codes: &[u32], words: &mut [i64])
    ensures value { words.new ≡ map (recoded codes.now) words.old }
{
    for word in words.iter_mut() {
        *word = recoded(codes, *word);
    }
}
