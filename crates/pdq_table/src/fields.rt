//! The values that the fields of a record say.
ghost use Rattle.std.specs.Prelude.{◌≡◌, ◌+◌, ◌∷◌, ◌≤◌, [], IfErr, IfOk, IsTrue, MatchOption, None, Ok, drop, length, true};
ghost use Rattle.std.specs.Str.{is_utf8};
ghost use Rattle.csv.specs.Records.{fields_of};
ghost use Rattle.pdq_value.specs.declared.shapes.Column.{Column};
ghost use Rattle.pdq_value.specs.PlainTable.{not_utf8_at, Refuses};
ghost use Rattle.pdq_value.specs.Tables.{IsKind};
ghost use Rattle.pdq_table.specs.Loading.{fields_fault, is_null_field, most_bytes, value_of, value_said};
ghost use Rattle.pdq_table.specs.Records.{AreShort};

use csv::ByteRecord;
use pdq_base::{is_text, is_utf8};
use pdq_value::{Column, Kind, LoadFault, LoadWhy, Text, Value, read_number};
use std::alloc::Global;

/// The most rows of a table.
pub(crate) const MOST_ROWS: u32 = 2_000_000;

/// The most cells of all tables.
pub(crate) const MOST_CELLS: u64 = 32_000_000;

/// A fault of this table, in this row and column.
pub(crate) fn fault(why: LoadWhy, table: u32, row_no: u32, column: u32) -> LoadFault
    ensures value { result ≡ LoadFault.Wrong why table row_no column }
{
    LoadFault::Wrong {
        why,
        table,
        row_no,
        column,
    }
}

/// The field at this place, where there is one.
pub(crate) fn field_at(row: &ByteRecord, place: usize) -> Option<&[u8]>
    requires short { AreShort (fields_of row.now) }
    ensures value { MatchOption result (drop place (fields_of row.now) ≡ []) (λ field. drop place (fields_of row.now) ≡ field.now ∷ drop (place + 1) (fields_of row.now)) }
    ensures short { MatchOption result (length (fields_of row.now) ≤ place) (λ field. (length field.now ≤ most_bytes) × (place ≤ most_bytes)) }
{
    row.get(place)
}

/// Whether a record has only ASCII bytes, which are UTF-8 in each of its fields.
fn is_ascii_record(row: &ByteRecord) -> bool
    ensures utf8 { IsTrue result → not_utf8_at 1 (fields_of row.now) ≡ None }
{
    row.as_slice().is_ascii()
}

/// The first column whose field is not UTF-8.
fn first_not_utf8(row: &ByteRecord) -> Option<u32>
    requires short { AreShort (fields_of row.now) }
    ensures value { result ≡ not_utf8_at 1 (fields_of row.now) }
{
    if is_ascii_record(row) {
        return None;
    }
    for place in 0..row.len() {
        let Some(field) = field_at(row, place) else {
            return None;
        };
        if !is_utf8(field) {
            return Some(place as u32 + 1);
        }
    }
    None
}

/// What is wrong with a record whose fields are not texts, or not as many as the columns.
pub(crate) fn fields_fault(
    columns: &[Column],
    table: u32,
    row_no: u32,
    row: &ByteRecord,
) -> Option<LoadFault>
    requires short { AreShort (fields_of row.now) }
    ensures value { result ≡ fields_fault columns.now (record { table = table; row = row_no }) (fields_of row.now) (not_utf8_at 1 (fields_of row.now)) }
{
    if let Some(column) = first_not_utf8(row) {
        return Some(fault(LoadWhy::NotUtf8, table, row_no, column));
    }
    if row.len() == columns.len() {
        None
    } else {
        Some(fault(LoadWhy::WrongFields, table, row_no, 0))
    }
}

/// Whether a field says Null: `\N` does in every column, and no byte at all in a column of numbers.
pub(crate) fn is_null_field(kind: Kind, field: &[u8]) -> bool
    ensures value { result ≡ is_null_field kind field.now }
{
    match kind {
        Kind::Words => is_text(field, b"\\N"),
        Kind::Number { .. } => is_text(field, b"\\N") || field.is_empty(),
    }
}

/// The value that a field says in a column of this kind.
fn value_said(
    alloc: Global,
    kind: Kind,
    table: u32,
    row_no: u32,
    column: u32,
    field: &[u8],
) -> Result<Value, LoadFault>
    requires kind { IsKind kind }
    requires short { length field.now ≤ most_bytes }
    requires utf8 { is_utf8 field.now ≡ true }
    ensures read { IfOk result (λ v. value_said kind (record { table = table; row = row_no }) column field.now ≡ Ok v) }
    ensures refused { IfErr result (Refuses (value_said kind (record { table = table; row = row_no }) column field.now)) }
{
    match kind {
        Kind::Words => match Text::from_bytes(alloc, field) {
            Ok(text) => Ok(Value::Words(text)),
            Err(_) => Err(LoadFault::Memory),
        },
        Kind::Number { scale } => match read_number(field, scale) {
            Ok(number) => Ok(Value::Number(number)),
            Err(_) => Err(fault(LoadWhy::BadNumber, table, row_no, column)),
        },
    }
}

/// The value of a field in a column of this kind.
pub(crate) fn read_value(
    alloc: Global,
    kind: Kind,
    table: u32,
    row_no: u32,
    column: u32,
    field: &[u8],
) -> Result<Value, LoadFault>
    requires kind { IsKind kind }
    requires short { length field.now ≤ most_bytes }
    requires utf8 { is_utf8 field.now ≡ true }
    ensures read { IfOk result (λ v. value_of kind (record { table = table; row = row_no }) column field.now ≡ Ok v) }
    ensures refused { IfErr result (Refuses (value_of kind (record { table = table; row = row_no }) column field.now)) }
{
    if is_null_field(kind, field) {
        return Ok(Value::Null);
    }
    value_said(alloc, kind, table, row_no, column, field)
}
