//! Rows of words, decoded.
ghost use Rattle.std.specs.Prelude.{◌≡◌, IfOk};
ghost use Rattle.pdq_dict.specs.Coding.{decoded_row};

use pdq_base::Memory;
use pdq_dict::Dict;
use pdq_value::{Column, Row, Value};
use std::alloc::Global;

/// The values of the words of a row, column by column.
fn decode_values(
    alloc: Global,
    dict: &Dict,
    columns: &[Column],
    words: &[i64],
) -> Result<Vec<Value>, Memory>
    ensures value { IfOk result (λ v. v.items ≡ decoded_row dict.now columns.now words.now) }
{
    let Ok(mut values) = Vec::with_capacity(alloc, words.len()) else {
        return Err(Memory);
    };
    for (place, column) in columns.iter().enumerate() {
        if place >= words.len() {
            return Ok(values);
        }
        let value = dict.value_of_word(alloc, column.kind, words[place])?;
        let Ok(()) = values.push(value) else {
            return Err(Memory);
        };
    }
    Ok(values)
}

/// The row of these words.
pub(crate) fn decode_row(
    alloc: Global,
    dict: &Dict,
    columns: &[Column],
    words: &[i64],
) -> Result<Row, Memory>
    ensures value { IfOk result (λ r. r ≡ decoded_row dict.now columns.now words.now) }
{
    Ok(Row::new(decode_values(alloc, dict, columns, words)?))
}
