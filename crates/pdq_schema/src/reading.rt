//! The whole schema file.
ghost use Rattle.std.specs.Prelude.{◌≡◌, ◌≤◌, IfErr, IfOk, Ok, length};
ghost use Rattle.pdq_schema.specs.Schemas.{IsSchema};
ghost use Rattle.pdq_schema.specs.SchemaFile.{Refuses, no_tables, schema_of, tables_after};
ghost use Rattle.pdq_schema.specs.SchemaTree.{views_of};

use crate::entries::{Entry, read_entry};
use crate::faults::{SchemaFault, SchemaWhy, fault};
use crate::keys::{Part, has_only_keys};
use crate::schema::Schema;
use crate::tree::{read_tree, tables_at};
use std::alloc::Global;
use toml::Table;

/// The most bytes of a schema file.
const MOST_BYTES: usize = 1_048_576;

/// The schema of these tables.
fn read_tables(alloc: Global, tables: &[&Table]) -> Result<Schema, SchemaFault>
    requires some { 1 ≤ length tables.now }
    requires few { length tables.now ≤ 16 }
    ensures read { IfOk result (λ s. tables_after no_tables (views_of tables.now) ≡ Ok s) }
    ensures refused { IfErr result (Refuses (tables_after no_tables (views_of tables.now))) }
    ensures schema { IfOk result IsSchema }
{
    let mut shapes = Vec::new(alloc);
    let mut files = Vec::new(alloc);
    let mut cuts = Vec::new(alloc);
    for table in tables {
        let Entry { shape, file, cut } = read_entry(alloc, &shapes, table)?;
        if shapes.push(shape).is_err() {
            return Err(SchemaFault::Memory);
        }
        if files.push(file).is_err() {
            return Err(SchemaFault::Memory);
        }
        if cuts.push(cut).is_err() {
            return Err(SchemaFault::Memory);
        }
    }
    Ok(Schema::of(shapes, files, cuts)?)
}

/// The schema that a TOML file says. Its one key `table` is an array of 1 to 16 tables with `name`, `file` and 1 to 16 tables
/// `column` (`name`, `kind`, and for numbers `scale`), and with `round_robin`, or `by` and `range`, or neither. The form is our own.
///
/// # Errors
/// The first fault: `TooMany` for more than 1,048,576 bytes; `NotToml`; of the top `UnknownKey`, `MissingKey`, `TooMany`; then table
/// by table, of its heading `UnknownKey`, `MissingKey`, `BadName`, `TwoNames`, `TooMany`, then column by column `UnknownKey`,
/// `MissingKey`, `BadName`, `TwoNames`, `BadKind`, and then `BadFragment`. `Memory` where it is wanting.
#[tactic(auto, unfolding(crate::specs::SchemaFile::schema_of))]
pub fn read_schema(alloc: Global, bytes: &[u8]) -> Result<Schema, SchemaFault>
    ensures read { IfOk result (λ s. schema_of bytes.now ≡ Ok s) }
    ensures refused { IfErr result (Refuses (schema_of bytes.now)) }
    ensures schema { IfOk result IsSchema }
{
    if bytes.len() > MOST_BYTES {
        return Err(fault(SchemaWhy::TooMany, 0, 0));
    }
    let Some(tree) = read_tree(alloc, bytes)? else {
        return Err(fault(SchemaWhy::NotToml, 0, 0));
    };
    if !has_only_keys(Part::File, &tree) {
        return Err(fault(SchemaWhy::UnknownKey, 0, 0));
    }
    let Some(tables) = tables_at(alloc, &tree, "table")? else {
        return Err(fault(SchemaWhy::MissingKey, 0, 0));
    };
    if tables.is_empty() {
        return Err(fault(SchemaWhy::MissingKey, 0, 0));
    }
    if tables.len() > 16 {
        return Err(fault(SchemaWhy::TooMany, 0, 0));
    }
    read_tables(alloc, &tables)
}
