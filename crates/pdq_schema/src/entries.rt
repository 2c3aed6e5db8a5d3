//! A table of the schema file.
ghost use Rattle.std.specs.Prelude.{◌≡◌, ◌+◌, ◌<◌, ◌≤◌, All, IfErr, IfOk, Ok, length, map, string_bytes};
ghost use Rattle.toml.specs.View.{table_view};
ghost use Rattle.pdq_value.specs.Tables.{IsKind, shape_of};
ghost use Rattle.pdq_value.specs.declared.shapes.Column.{Column as ColumnValue};
ghost use Rattle.pdq_schema.specs.Headings.{entry_seen, heading_seen};
ghost use Rattle.pdq_schema.specs.SchemaFile.{Refuses, entry_of, has_table, heading_of};

use crate::columns::read_columns;
use crate::cuts::Cut;
use crate::cutting::read_cut;
use crate::faults::{SchemaFault, SchemaWhy, fault};
use crate::keys::{Part, has_only_keys};
use crate::tree::{tables_at, text_at};
use pdq_base::is_text;
use pdq_value::{Name, TableShape, is_name};
use std::alloc::Global;
use toml::Table;

/// What a table says before its columns are read.
#[derive(Drop)]
pub(crate) struct Heading<'a> {
    name: Name,
    file: String,
    columns: Vec<&'a Table>,
}

/// What a table says.
#[derive(Drop)]
pub(crate) struct Entry {
    pub shape: TableShape,
    pub file: String,
    pub cut: Cut,
}

/// Whether some table has this name.
fn has_table(shapes: &[TableShape], name: &[u8]) -> bool
    ensures value { result ≡ has_table (map shape_of shapes.now) name.now }
{
    for shape in shapes {
        if is_text(shape.name.bytes(), name) {
            return true;
        }
    }
    false
}

/// The heading of a table that follows these.
#[tactic(auto, unfolding(crate::specs::SchemaFile::heading_of))]
fn read_heading<'a>(
    alloc: Global,
    table_no: u32,
    earlier: &[TableShape],
    table: &'a Table,
) -> Result<Heading<'a>, SchemaFault>
    ensures read { IfOk result (λ h. heading_of table_no (map shape_of earlier.now) (table_view table.now) ≡ Ok (heading_seen h)) }
    ensures refused { IfErr result (Refuses (heading_of table_no (map shape_of earlier.now) (table_view table.now))) }
    ensures few { IfOk result (λ h. length h.columns.items ≤ 16) }
{
    if !has_only_keys(Part::Table, table) {
        return Err(fault(SchemaWhy::UnknownKey, table_no, 0));
    }
    let Some(name) = text_at(table, "name") else {
        return Err(fault(SchemaWhy::MissingKey, table_no, 0));
    };
    let Some(file) = text_at(table, "file") else {
        return Err(fault(SchemaWhy::MissingKey, table_no, 0));
    };
    let Some(columns) = tables_at(alloc, table, "column")? else {
        return Err(fault(SchemaWhy::MissingKey, table_no, 0));
    };
    if columns.is_empty() {
        return Err(fault(SchemaWhy::MissingKey, table_no, 0));
    }
    if !is_name(name.as_bytes()) {
        return Err(fault(SchemaWhy::BadName, table_no, 0));
    }
    if has_table(earlier, name.as_bytes()) {
        return Err(fault(SchemaWhy::TwoNames, table_no, 0));
    }
    if columns.len() > 16 {
        return Err(fault(SchemaWhy::TooMany, table_no, 0));
    }
    let name = Name::from_bytes(alloc, name.as_bytes())?;
    let Ok(file) = String::from_str(alloc, file) else {
        return Err(SchemaFault::Memory);
    };
    Ok(Heading {
        name,
        file,
        columns,
    })
}

/// The table that follows these.
#[tactic(auto, unfolding(crate::specs::SchemaFile::entry_of))]
pub(crate) fn read_entry(
    alloc: Global,
    earlier: &[TableShape],
    table: &Table,
) -> Result<Entry, SchemaFault>
    requires few { length earlier.now < 16 }
    ensures read { IfOk result (λ e. entry_of (map shape_of earlier.now) (table_view table.now) ≡ Ok (entry_seen e)) }
    ensures refused { IfErr result (Refuses (entry_of (map shape_of earlier.now) (table_view table.now))) }
{
    let table_no = earlier.len() as u32 + 1;
    let Heading {
        name,
        file,
        columns: tables,
    } = read_heading(alloc, table_no, earlier, table)?;
    let columns = read_columns(alloc, table_no, &tables)?;
    let Some(cut) = read_cut(alloc, &columns, table)? else {
        return Err(fault(SchemaWhy::BadFragment, table_no, 0));
    };
    let shape = TableShape { name, columns };
    Ok(Entry { shape, file, cut })
}
