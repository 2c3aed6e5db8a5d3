//! A plain table, stored.
ghost use Rattle.std.specs.Prelude.{◌≡◌, IfErr, IfOk, IsOkAnd};
ghost use Rattle.pdq_schema.specs.Schemas.{IsNamed};
ghost use Rattle.pdq_value.specs.PlainTable.{Refuses, plain_table_of};
ghost use Rattle.pdq_value.specs.Tables.{IsShape, shape_of, table_of};
ghost use Rattle.pdq_ask.specs.Plain.{IsStorable, plain_schema, plain_stored};

use pdq_base::Memory;
use pdq_schema::{Cut, Schema, copy_shape};
use pdq_table::Stored;
use pdq_value::{Db, LoadFault, Table, TableShape, read_plain};
use std::alloc::Global;

/// The schema of a plain table: one fragment, and no file.
fn plain_schema(alloc: Global, shape: &TableShape) -> Result<Schema, Memory>
    requires shape { IsShape (shape_of shape.now) }
    requires named { IsNamed (shape_of shape.now) }
    ensures value { IfOk result (λ s. s ≡ plain_schema (shape_of shape.now)) }
{
    let shape = copy_shape(alloc, shape)?;
    let shapes = vec![in alloc; shape].map_err(|_| Memory)?;
    let file = String::new(alloc);
    let files = vec![in alloc; file].map_err(|_| Memory)?;
    let cuts = vec![in alloc; Cut::Rounds(1)].map_err(|_| Memory)?;
    Schema::of(shapes, files, cuts)
}

/// A plain table that was read, stored.
fn stored(alloc: Global, table: Table) -> Result<Stored, Memory>
    requires table { IsStorable (table_of table) }
    ensures value { IfOk result (λ s. s ≡ plain_stored (table_of table)) }
{
    let schema = plain_schema(alloc, &table.shape)?;
    let tables = vec![in alloc; table].map_err(|_| Memory)?;
    Stored::of(alloc, schema, Db { tables })
}

/// The plain table that the bytes say, as stored tables: one table in one fragment.
///
/// # Errors
/// The first fault of the bytes as `read_plain` has it; `Memory` where it is wanting.
pub fn read_stored(alloc: Global, bytes: &[u8]) -> Result<Stored, LoadFault>
    ensures read { IfOk result (λ s. IsOkAnd (plain_table_of bytes.now) (λ t. s ≡ plain_stored t)) }
    ensures refused { IfErr result (Refuses (plain_table_of bytes.now)) }
{
    let table = read_plain(alloc, bytes)?;
    match stored(alloc, table) {
        Ok(stored) => Ok(stored),
        Err(Memory) => Err(LoadFault::Memory),
    }
}
