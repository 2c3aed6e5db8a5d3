//! What stands at the keys of a TOML table.
ghost use Rattle.std.specs.Prelude.{◌≡◌, IfOk, option_map};
ghost use Rattle.toml.specs.Data.{get_member};
ghost use Rattle.toml.specs.View.{items_view, table_view, view};
ghost use Rattle.pdq_schema.specs.SchemaTree.{tables_at, tables_of, text_at, tree_of, views_of};

use pdq_base::Memory;
use std::alloc::Global;
use toml::{Table, Value};

/// The tree of the bytes, if they are TOML.
pub(crate) fn read_tree(alloc: Global, bytes: &[u8]) -> Result<Option<Table>, Memory>
    ensures value { IfOk result (λ tree. option_map table_view tree ≡ tree_of bytes.now) }
{
    let Ok(text) = std::str::from_utf8(bytes) else {
        return Ok(None);
    };
    match toml::table_from_str(alloc, text) {
        Ok(table) => Ok(Some(table)),
        Err(e) => { if e.is_memory() { Err(Memory) } else { Ok(None) } }
    }
}

/// The value at a key.
pub(crate) fn member<'a>(table: &'a Table, key: &str) -> Option<&'a Value>
    ensures value { option_map (λ v. view v.now) result ≡ get_member key.now (table_view table.now) }
{
    table.get(key)
}

/// The string at a key.
pub(crate) fn text_at<'a>(table: &'a Table, key: &str) -> Option<&'a str>
    ensures value { option_map (λ s. s.now) result ≡ text_at key.now (table_view table.now) }
{
    match member(table, key) {
        Some(value) => value.as_str(),
        None => None,
    }
}

/// These values as tables. None where one is no table.
fn tables_of<'a>(alloc: Global, values: &'a [Value]) -> Result<Option<Vec<&'a Table>>, Memory>
    ensures value { IfOk result (λ tables. option_map (λ v. views_of v.items) tables ≡ tables_of (items_view values.now)) }
{
    let mut tables = Vec::new(alloc);
    for value in values {
        let Some(table) = value.as_table() else {
            return Ok(None);
        };
        if tables.push(table).is_err() {
            return Err(Memory);
        }
    }
    Ok(Some(tables))
}

/// The array of tables at a key.
pub(crate) fn tables_at<'a>(
    alloc: Global,
    table: &'a Table,
    key: &str,
) -> Result<Option<Vec<&'a Table>>, Memory>
    ensures value { IfOk result (λ tables. option_map (λ v. views_of v.items) tables ≡ tables_at key.now (table_view table.now)) }
{
    let Some(value) = member(table, key) else {
        return Ok(None);
    };
    let Some(values) = value.as_array() else {
        return Ok(None);
    };
    tables_of(alloc, values)
}
