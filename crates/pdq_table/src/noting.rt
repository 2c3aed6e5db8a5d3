//! Records taken in as words: a number is itself, and a text, which is noted, the number of its note.
ghost use Rattle.std.specs.Prelude.{◌≡◌, ◌<◌, ◌≤◌, [], ℕ, List, All, IfErr, IfNone, IfOk, IfSome, None, Ok, OnOk, Err, length, true};
ghost use Rattle.std.specs.Str.{is_utf8};
ghost use Rattle.csv.specs.Records.{fields_of};
ghost use Rattle.pdq_dict.specs.Dictionary.{cell_limit};
ghost use Rattle.pdq_schema.specs.Fragments.{fragment_count, fragment_number};
ghost use Rattle.pdq_schema.specs.Schemas.{IsCutOf, cut_of};
ghost use Rattle.pdq_value.specs.declared.shapes.Column.{Column};
ghost use Rattle.pdq_value.specs.declared.shapes.Value.{Value as TableValue};
ghost use Rattle.pdq_value.specs.PlainTable.{not_utf8_at, Refuses};
ghost use Rattle.pdq_value.specs.Tables.{IsKind};
ghost use Rattle.pdq_table.specs.Loading.{most_bytes, row_of, value_of, value_said, values_of};
ghost use Rattle.pdq_table.specs.NotedWords.{IsReadField, IsReadRecord};
ghost use Rattle.pdq_table.specs.Records.{AreShort, IsWhole};

use crate::fields::{
    MOST_CELLS, MOST_ROWS, fault, field_at, fields_fault, is_null_field, read_value,
};
use crate::noted_words::NOTE_BASE;
use csv::ByteRecord;
use pdq_base::Memory;
use pdq_dict::{NULL_WORD, Notes};
use pdq_schema::{Cut, range_number};
use pdq_value::{Column, Kind, LoadFault, LoadWhy, read_number};
use std::alloc::Global;

/// The word of a field that says a value; a text is noted.
fn note_said(
    alloc: Global,
    kind: Kind,
    table: u32,
    row_no: u32,
    column: u32,
    field: &[u8],
    notes: &mut Notes,
) -> Result<i64, LoadFault>
    requires kind { IsKind kind }
    requires short { length field.now ≤ most_bytes }
    requires utf8 { is_utf8 field.now ≡ true }
    ensures read { IfOk result (IsReadField (value_said kind (record { table = table; row = row_no }) column field.now) notes.old notes.new) }
    ensures refused { IfErr result (Refuses (value_said kind (record { table = table; row = row_no }) column field.now)) }
{
    match kind {
        Kind::Words => match notes.note(alloc, field) {
            Ok(number) => Ok(NOTE_BASE + i64::from(number)),
            Err(_) => Err(LoadFault::Memory),
        },
        Kind::Number { scale } => match read_number(field, scale) {
            Ok(number) => Ok(number),
            Err(_) => Err(fault(LoadWhy::BadNumber, table, row_no, column)),
        },
    }
}

/// The word of a field in a column of this kind; a text is noted.
fn note_field(
    alloc: Global,
    kind: Kind,
    table: u32,
    row_no: u32,
    column: u32,
    field: &[u8],
    notes: &mut Notes,
) -> Result<i64, LoadFault>
    requires kind { IsKind kind }
    requires short { length field.now ≤ most_bytes }
    requires utf8 { is_utf8 field.now ≡ true }
    ensures read { IfOk result (IsReadField (value_of kind (record { table = table; row = row_no }) column field.now) notes.old notes.new) }
    ensures refused { IfErr result (Refuses (value_of kind (record { table = table; row = row_no }) column field.now)) }
{
    if is_null_field(kind, field) {
        return Ok(NULL_WORD);
    }
    note_said(alloc, kind, table, row_no, column, field, notes)
}

/// Puts the words of a record in place of what was there, and notes its texts.
pub(crate) fn note_record(
    alloc: Global,
    columns: &[Column],
    table: u32,
    row_no: u32,
    row: &ByteRecord,
    notes: &mut Notes,
    words: &mut Vec<i64>,
) -> Result<(), LoadFault>
    requires kinds { All (λ (c : Column). IsKind c.kind) columns.now }
    requires short { AreShort (fields_of row.now) }
    requires utf8 { not_utf8_at 1 (fields_of row.now) ≡ None }
    ensures read { OnOk result (IsReadRecord (values_of columns.now (record { table = table; row = row_no }) 1 (fields_of row.now)) notes.old notes.new words.new.items) }
    ensures refused { IfErr result (Refuses (values_of columns.now (record { table = table; row = row_no }) 1 (fields_of row.now))) }
{
    words.clear();
    for (place, column) in columns.iter().enumerate() {
        let Some(field) = field_at(row, place) else {
            return Ok(());
        };
        let word = note_field(
            alloc,
            column.kind,
            table,
            row_no,
            place as u32 + 1,
            field,
            notes,
        )?;
        let Ok(()) = words.push(word) else {
            return Err(LoadFault::Memory);
        };
    }
    Ok(())
}

/// What is wrong with a record before its fields are read, where all tables have so many cells before it.
#[tactic(auto, unfolding(crate::specs::Loading::row_of))]
pub(crate) fn record_fault(
    columns: &[Column],
    table: u32,
    row_no: u32,
    cells: u64,
    row: &ByteRecord,
) -> Option<LoadFault>
    requires few { length columns.now ≤ 16 }
    requires cells { cells ≤ cell_limit }
    requires short { AreShort (fields_of row.now) }
    ensures fault { IfSome result (λ e. row_of columns.now (record { table = table; row = row_no }) cells (fields_of row.now) ≡ Err e) }
    ensures whole { IfNone result (IsWhole columns.now (record { table = table; row = row_no }) cells (fields_of row.now)) }
{
    if row_no > MOST_ROWS {
        return Some(fault(LoadWhy::TooManyRows, table, row_no, 0));
    }
    if cells + columns.len() as u64 > MOST_CELLS {
        return Some(fault(LoadWhy::TooManyCells, table, row_no, 0));
    }
    fields_fault(columns, table, row_no, row)
}

/// The fragment in which the row of a record stands, whose place is counted from 0.
pub(crate) fn fragment_of_record(
    alloc: Global,
    cut: &Cut,
    columns: &[Column],
    table: u32,
    row_no: u32,
    place: u32,
    row: &ByteRecord,
) -> Result<u32, Memory>
    requires kinds { All (λ (c : Column). IsKind c.kind) columns.now }
    requires cut { IsCutOf columns.now (cut_of cut.now) }
    requires short { AreShort (fields_of row.now) }
    requires utf8 { not_utf8_at 1 (fields_of row.now) ≡ None }
    requires count { length (fields_of row.now) ≡ length columns.now }
    ensures value { IfOk result (λ n. (values : List TableValue) → values_of columns.now (record { table = table; row = row_no }) 1 (fields_of row.now) ≡ Ok values →
        n ≡ fragment_number (cut_of cut.now) place values) }
    ensures within { IfOk result (λ n. n < fragment_count (cut_of cut.now)) }
{
    match cut {
        Cut::Rounds(count) => Ok(place % *count),
        Cut::Ranges { column, ranges } => {
            let at = *column as usize;
            let Some(field) = field_at(row, at) else {
                unreachable!()
            };
            match read_value(alloc, columns[at].kind, table, row_no, *column + 1, field) {
                Ok(value) => Ok(range_number(ranges, &value)),
                Err(_) => Err(Memory),
            }
        }
    }
}
