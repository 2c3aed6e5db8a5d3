//! Tables from CSV files.
ghost use Rattle.std.specs.Prelude.{◌≡◌, IfErr, IfOk, Ok, length};
ghost use Rattle.pdq_value.specs.PlainTable.{Refuses};
ghost use Rattle.pdq_table.specs.Loading.{contents_of, tables_loaded};

use crate::storing::Stored;
use crate::tables::load_tables;
use pdq_dict::Notes;
use pdq_schema::Schema;
use pdq_value::LoadFault;
use std::alloc::Global;

/// The tables of a schema, each from the bytes of its file, in the order of the schema. A file is CSV as the `csv` crate reads it
/// with its default settings: one byte order mark is passed over; the first record is the header, whose fields are the names of
/// the columns, compared in lower case; each further record is a row, numbered from 1. A field `\N` is Null in every column, and a
/// field without any byte is Null in a column of numbers, whether in quotes or not. The bytes of a file are given back as soon as it was read.
///
/// # Errors
/// The first fault: `TooLong` for the first file of more than 134,217,728 bytes; then table by table and record by record,
/// `TooManyRows` (more than 2,000,000), `TooManyCells` (more than 32,000,000 in all tables), `NotUtf8`, `WrongFields` (also for a file
/// without any record), in the header `WrongHeader`, and field by field `BadNumber`. `Memory` where it is wanting.
pub fn load(alloc: Global, schema: &Schema, files: Vec<Vec<u8>>) -> Result<Stored, LoadFault>
    requires files { length files.items ≡ length schema.now.shapes }
    ensures read { IfOk result (λ s. tables_loaded schema.now.shapes (contents_of files.items) ≡ Ok s.tables) }
    ensures schema { IfOk result (λ s. s.schema ≡ schema.now) }
    ensures refused { IfErr result (Refuses (tables_loaded schema.now.shapes (contents_of files.items))) }
{
    let mut notes = Notes::new(alloc);
    let tables = load_tables(alloc, schema, schema.shapes(), files, &mut notes)?;
    let Ok(schema) = schema.copy(alloc) else {
        return Err(LoadFault::Memory);
    };
    let Ok(stored) = Stored::finish(alloc, schema, notes, tables) else {
        return Err(LoadFault::Memory);
    };
    Ok(stored)
}
