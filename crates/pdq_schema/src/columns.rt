//! The columns of a table of the schema file.
ghost use Rattle.std.specs.Prelude.{◌≡◌, ◌+◌, ◌<◌, ◌≤◌, [], All, IfErr, IfOk, Ok, length, option_map};
ghost use Rattle.toml.specs.Data.{as_integer};
ghost use Rattle.toml.specs.View.{table_view, view};
ghost use Rattle.pdq_value.specs.Tables.{IsKind};
ghost use Rattle.pdq_value.specs.declared.shapes.Column.{Column as ColumnValue};
ghost use Rattle.pdq_schema.specs.SchemaFile.{Refuses, column_of, columns_after, has_column, kind_of, number_kind, number_within, text_kind};
ghost use Rattle.pdq_schema.specs.SchemaTree.{views_of};

use crate::faults::{SchemaFault, SchemaWhy, fault};
use crate::keys::{Part, has_only_keys};
use crate::tree::{member, text_at};
use pdq_base::{Memory, is_text};
use pdq_value::{Column, Kind, Name, is_name};
use std::alloc::Global;
use toml::{Table, Value};

/// The whole number that a value is, from `low` to `high`.
pub(crate) fn number_within(value: &Value, low: u32, high: u32) -> Option<u32>
    ensures value { result ≡ number_within low high (as_integer (view value.now)) }
{
    let number = value.as_integer()?;
    if number >= i64::from(low) && number <= i64::from(high) {
        Some(number.unsigned_abs() as u32)
    } else {
        None
    }
}

/// 0 to 6 decimal places, 0 where nothing is said.
fn number_kind(scale: Option<&Value>) -> Option<Kind>
    ensures value { result ≡ number_kind (option_map (λ v. view v.now) scale.entry) }
{
    let scale = match scale {
        Some(value) => number_within(value, 0, 6)?,
        None => 0,
    };
    Some(Kind::Number { scale })
}

/// The kind that a column's `kind` and `scale` say.
#[tactic(auto, unfolding(crate::specs::SchemaFile::kind_of))]
fn read_kind(word: &str, scale: Option<&Value>) -> Option<Kind>
    ensures value { result ≡ kind_of word.now (option_map (λ v. view v.now) scale.entry) }
{
    if is_text(word.as_bytes(), b"number") {
        return number_kind(scale);
    }
    if is_text(word.as_bytes(), b"text") && scale.is_none() {
        Some(Kind::Words)
    } else {
        None
    }
}

/// Whether some column has this name.
pub(crate) fn has_column(columns: &[Column], name: &[u8]) -> bool
    ensures value { result ≡ has_column columns.now name.now }
{
    columns.iter().any(|c| is_text(c.name.bytes(), name))
}

/// The column that follows these.
#[tactic(auto, unfolding(crate::specs::SchemaFile::column_of))]
fn read_column(
    alloc: Global,
    table_no: u32,
    earlier: &[Column],
    column: &Table,
) -> Result<Column, SchemaFault>
    requires few { length earlier.now < 16 }
    ensures read { IfOk result (λ c. column_of table_no earlier.now (table_view column.now) ≡ Ok c) }
    ensures refused { IfErr result (Refuses (column_of table_no earlier.now (table_view column.now))) }
{
    let column_no = earlier.len() as u32 + 1;
    if !has_only_keys(Part::Column, column) {
        return Err(fault(SchemaWhy::UnknownKey, table_no, column_no));
    }
    let Some(name) = text_at(column, "name") else {
        return Err(fault(SchemaWhy::MissingKey, table_no, column_no));
    };
    let Some(word) = text_at(column, "kind") else {
        return Err(fault(SchemaWhy::MissingKey, table_no, column_no));
    };
    if !is_name(name.as_bytes()) {
        return Err(fault(SchemaWhy::BadName, table_no, column_no));
    }
    if has_column(earlier, name.as_bytes()) {
        return Err(fault(SchemaWhy::TwoNames, table_no, column_no));
    }
    let Some(kind) = read_kind(word, member(column, "scale")) else {
        return Err(fault(SchemaWhy::BadKind, table_no, column_no));
    };
    let name = Name::from_bytes(alloc, name.as_bytes())?;
    Ok(Column { name, kind })
}

/// The columns that these say.
pub(crate) fn read_columns(
    alloc: Global,
    table_no: u32,
    tables: &[&Table],
) -> Result<Vec<Column>, SchemaFault>
    requires few { length tables.now ≤ 16 }
    ensures read { IfOk result (λ v. columns_after table_no [] (views_of tables.now) ≡ Ok v.items) }
    ensures refused { IfErr result (Refuses (columns_after table_no [] (views_of tables.now))) }
    ensures count { IfOk result (λ v. length v.items ≡ length tables.now) }
    ensures kinds { IfOk result (λ v. All (λ (c : ColumnValue). IsKind c.kind) v.items) }
{
    let mut columns = Vec::new(alloc);
    for table in tables {
        let column = read_column(alloc, table_no, &columns, table)?;
        if columns.push(column).is_err() {
            return Err(SchemaFault::Memory);
        }
    }
    Ok(columns)
}
