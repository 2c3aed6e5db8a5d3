//! Gathering the texts of rows and tables.
ghost use Rattle.std.specs.Prelude.{◌≡◌, OnOk, fold};
ghost use Rattle.pdq_value.specs.Tables.{table_of};
ghost use Rattle.pdq_dict.specs.Dictionary.{texts_of_row, texts_of_table, texts_of_value};
ghost use Rattle.pdq_dict.specs.Texts.{noted};

use crate::text_sets::Notes;
use pdq_base::Memory;
use pdq_value::{Row, Table, Value};
use std::alloc::Global;

fn note_value(alloc: Global, value: &Value, texts: &mut Notes) -> Result<(), Memory>
    ensures noted { OnOk result (texts.new ≡ fold noted texts.old (texts_of_value value.now)) }
{
    match value {
        Value::Null | Value::Number(_) => Ok(()),
        Value::Words(text) => {
            let _number = texts.note(alloc, text.bytes())?;
            Ok(())
        }
    }
}

fn note_row(alloc: Global, row: &Row, texts: &mut Notes) -> Result<(), Memory>
    ensures noted { OnOk result (texts.new ≡ fold noted texts.old (texts_of_row row.now)) }
{
    for value in row.values() {
        note_value(alloc, value, texts)?;
    }
    Ok(())
}

/// Takes in the texts of a table, row by row.
///
/// # Errors
/// `Memory` where it is wanting.
pub fn note_table(alloc: Global, table: &Table, texts: &mut Notes) -> Result<(), Memory>
    ensures noted { OnOk result (texts.new ≡ fold noted texts.old (texts_of_table (table_of table.now))) }
{
    for row in &table.rows {
        note_row(alloc, row, texts)?;
    }
    Ok(())
}
