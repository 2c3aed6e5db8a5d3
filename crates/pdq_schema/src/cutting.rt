//! How a table of the schema file is cut into fragments.
ghost use Rattle.std.specs.Prelude.{◌≡◌, ◌<◌, ◌≤◌, All, IfOk, IfSome, Some, codes, length, option_map};
ghost use Rattle.toml.specs.Data.{as_integer, as_str};
ghost use Rattle.toml.specs.View.{table_view, view};
ghost use Rattle.pdq_value.specs.Tables.{IsKind};
ghost use Rattle.pdq_value.specs.declared.shapes.Column.{Column as ColumnValue};
ghost use Rattle.pdq_schema.specs.Schemas.{cut_of, rounds};
ghost use Rattle.pdq_schema.specs.SchemaFile.{column_place, cut_said, few_ranges, kind_at, number_within, ranges_by};
ghost use Rattle.pdq_schema.specs.SchemaTree.{tables_at, views_of};

use crate::columns::number_within;
use crate::cuts::{Cut, Range};
use crate::ranges::read_ranges;
use crate::tree::{member, tables_at};
use pdq_base::{Memory, is_text};
use pdq_value::{Column, Kind};
use std::alloc::Global;
use toml::{Table, Value};

/// Fragments in turn, 1 to 16.
fn rounds(count: &Value) -> Option<Cut>
    ensures value { option_map cut_of result ≡ option_map rounds (number_within 1 16 (as_integer (view count.now))) }
{
    let count = number_within(count, 1, 16)?;
    Some(Cut::Rounds(count))
}

/// The place of the column of this name.
fn column_place(columns: &[Column], name: &[u8]) -> Option<usize>
    ensures value { result ≡ column_place columns.now (Some name.now) }
    ensures within { IfSome result (λ place. place < length columns.now) }
{
    columns.iter().position(|c| is_text(c.name.bytes(), name))
}

fn kind_at(columns: &[Column], place: usize) -> Kind
    requires place { place < length columns.now }
    requires kinds { All (λ (c : ColumnValue). IsKind c.kind) columns.now }
    ensures value { result ≡ kind_at place columns.now }
    ensures kind { IsKind result }
{
    columns[place].kind
}

/// One to fifteen ranges.
fn few_ranges(alloc: Global, kind: Kind, tables: &[&Table]) -> Result<Option<Vec<Range>>, Memory>
    requires kind { IsKind kind }
    ensures value { IfOk result (λ ranges. option_map (λ v. v.items) ranges ≡ few_ranges kind (views_of tables.now)) }
{
    if tables.is_empty() || tables.len() > 15 {
        return Ok(None);
    }
    read_ranges(alloc, kind, tables)
}

/// The ranges of the column of this name.
fn ranges_by(
    alloc: Global,
    columns: &[Column],
    name: &Value,
    table: &Table,
) -> Result<Option<Cut>, Memory>
    requires few { length columns.now ≤ 16 }
    requires kinds { All (λ (c : ColumnValue). IsKind c.kind) columns.now }
    ensures value { IfOk result (λ cut. option_map cut_of cut
        ≡ ranges_by columns.now (column_place columns.now (as_str (view name.now))) (tables_at (codes "range") (table_view table.now))) }
{
    let Some(name) = name.as_str() else {
        return Ok(None);
    };
    let Some(place) = column_place(columns, name.as_bytes()) else {
        return Ok(None);
    };
    let Some(tables) = tables_at(alloc, table, "range")? else {
        return Ok(None);
    };
    let kind = kind_at(columns, place);
    let Some(ranges) = few_ranges(alloc, kind, &tables)? else {
        return Ok(None);
    };
    Ok(Some(Cut::Ranges {
        column: place as u32,
        ranges,
    }))
}

/// How a table with these columns is cut: one fragment where nothing is said.
#[tactic(auto, unfolding(crate::specs::SchemaFile::cut_said))]
pub(crate) fn read_cut(
    alloc: Global,
    columns: &[Column],
    table: &Table,
) -> Result<Option<Cut>, Memory>
    requires few { length columns.now ≤ 16 }
    requires kinds { All (λ (c : ColumnValue). IsKind c.kind) columns.now }
    ensures value { IfOk result (λ cut. option_map cut_of cut ≡ cut_said columns.now (table_view table.now)) }
{
    let count = member(table, "round_robin");
    let name = member(table, "by");
    let tables = member(table, "range");
    match (count, name, tables) {
        (None, None, None) => Ok(Some(Cut::Rounds(1))),
        (Some(count), None, None) => Ok(rounds(count)),
        (None, Some(name), Some(_)) => ranges_by(alloc, columns, name, table),
        _ => Ok(None),
    }
}
