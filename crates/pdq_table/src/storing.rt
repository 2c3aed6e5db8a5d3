//! Tables of a schema, in fragments.
ghost use Rattle.std.specs.Prelude.{◌≡◌, ◌<◌, ◌≤◌, [], ℕ, List, All, IfOk, OnOk, fold, flat_map, length, map, slice_index_or, take};
ghost use Rattle.std.specs.List.{AllZip};
ghost use Rattle.pdq_dict.specs.Dictionary.{dictionary_of, texts_of, texts_of_table};
ghost use Rattle.pdq_dict.specs.Texts.{noted};
ghost use Rattle.pdq_schema.specs.Fragments.{CutsRow, fragment_count};
ghost use Rattle.pdq_schema.specs.Schemas.{cut_of};
ghost use Rattle.pdq_value.specs.PlainTable.{most_rows};
ghost use Rattle.pdq_value.specs.Tables.{IsRowOf, TableView, table_of, tables_of};
ghost use Rattle.pdq_table.specs.Layout.{AreTaken, AreTakenOf, HoldsRows, IsNotedView, IsRecoded, coded_fragment, table_stored};
ghost use Rattle.pdq_table.specs.Storing.{HasFragment, IsStored, fragment_of, rows_of, width_at};

use crate::fragment::Fragment;
use crate::stored_table::StoredTable;
use pdq_base::Memory;
use pdq_dict::{Dict, Notes};
use pdq_schema::{Cut, Schema};
use pdq_value::{Db, Table};
use std::alloc::Global;
use std::marker::Model;

/// The tables of a schema with their rows, coded, in fragments, and the dictionary of their texts. They are seen as the tables with
/// their values.
#[derive(Debug, Drop)]
pub struct Stored {
    schema: Schema,
    dict: Dict,
    tables: Vec<StoredTable>,
}

impl Model for Stored {
    ghost use Rattle.pdq_table.specs.Layout.{AreStored, view_of};
    ghost use Rattle.pdq_table.specs.Storing.{StoredView};

    ghost Value = { StoredView };

    ghost view = { λ s. view_of s.schema s.dict s.tables.items };

    ghost invariant = { λ s. AreStored s.schema s.dict s.tables.items };
}

/// Takes in a table row by row, in the fragments of its cut.
fn take_table(
    alloc: Global,
    cut: &Cut,
    table: Table,
    notes: &mut Notes,
) -> Result<StoredTable, Memory>
    requires fragments { fragment_count (cut_of cut.now) ≤ 16 }
    requires columns { length table.shape.columns.items ≤ 16 }
    requires rows { All (CutsRow (cut_of cut.now)) table.rows.items }
    requires kinds { All (IsRowOf table.shape.columns.items) table.rows.items }
    requires few { length table.rows.items ≤ most_rows }
    ensures table { IfOk result (λ t. IsNotedView notes.new (cut_of cut.now) t (table_of table)) }
    ensures noted { OnOk result (notes.new ≡ fold noted notes.old (texts_of_table (table_of table))) }
{
    let Table { shape, rows } = table;
    let mut stored = StoredTable::new(alloc, shape, cut)?;
    let mut words = Vec::new(alloc);
    for row in rows {
        stored.take(alloc, cut, notes, row.values(), &mut words)?;
    }
    Ok(stored)
}

/// Takes in each table, in the fragments of its cut.
fn take_tables(
    alloc: Global,
    schema: &Schema,
    tables: Vec<Table>,
    notes: &mut Notes,
) -> Result<Vec<StoredTable>, Memory>
    requires tables { IsStored (record { schema = schema.now; tables = map table_of tables.items }) }
    requires none { notes.old ≡ [] }
    ensures taken { IfOk result (λ v. AreTaken schema.now.cuts notes.new v.items (map table_of tables.items)) }
{
    let mut stored = Vec::new(alloc);
    for table in tables {
        let cut = schema.cut(stored.len() as u32);
        let table = take_table(alloc, cut, table, notes)?;
        let Ok(()) = stored.push(table) else {
            return Err(Memory);
        };
    }
    Ok(stored)
}

/// Puts the codes of texts in place of the numbers of their notes.
fn recode_tables(codes: &[u32], tables: &mut [StoredTable])
    ensures recoded { AllZip (IsRecoded codes.now) tables.old tables.new }
{
    for table in tables.iter_mut() {
        table.recode(codes);
    }
}

/// The tables with their values, each with its rows in the order of the file.
fn decode_tables(alloc: Global, dict: &Dict, tables: &[StoredTable]) -> Result<Vec<Table>, Memory>
    requires spots { All HoldsRows tables.now }
    ensures value { IfOk result (λ v. map table_of v.items ≡ map (table_stored dict.now) tables.now) }
{
    let mut copies = Vec::new(alloc);
    for table in tables {
        let table = table.to_table(alloc, dict)?;
        let Ok(()) = copies.push(table) else {
            return Err(Memory);
        };
    }
    Ok(copies)
}

impl Stored {
    /// The tables that were taken in, once their texts have codes.
    pub(crate) fn finish(
        alloc: Global,
        schema: Schema,
        notes: Notes,
        tables: Vec<StoredTable>,
    ) -> Result<Stored, Memory>
        requires taken { AreTakenOf schema notes tables.items }
        ensures value { IfOk result (λ s. (views : List TableView) → AreTaken schema.cuts notes tables.items views → s ≡ record { schema = schema; tables = views }) }
    {
        let (dict, codes) = notes.into_dict(alloc)?;
        let mut tables = tables;
        recode_tables(&codes, &mut tables);
        Ok(Stored {
            schema,
            dict,
            tables,
        })
    }

    /// The tables of a schema, in fragments.
    ///
    /// # Errors
    /// `Memory` where it is wanting.
    pub fn of(alloc: Global, schema: Schema, db: Db) -> Result<Stored, Memory>
        requires tables { IsStored (record { schema = schema; tables = tables_of db }) }
        ensures value { IfOk result (λ s. s ≡ record { schema = schema; tables = tables_of db }) }
    {
        let mut notes = Notes::new(alloc);
        let tables = take_tables(alloc, &schema, db.tables, &mut notes)?;
        Stored::finish(alloc, schema, notes, tables)
    }

    /// Its schema.
    pub fn schema(&self) -> &Schema
        ensures value { result.now ≡ self.now.schema }
    {
        &self.schema
    }

    /// The dictionary of its texts.
    pub fn dict(&self) -> &Dict
        ensures value { result.now ≡ dictionary_of self.now.tables }
        ensures stored { IsStored self.now }
    {
        &self.dict
    }

    /// Its tables with their values, each with its rows in the order of the file.
    ///
    /// # Errors
    /// `Memory` where it is wanting.
    pub fn to_db(&self, alloc: Global) -> Result<Db, Memory>
        ensures value { IfOk result (λ db. tables_of db ≡ self.now.tables) }
        ensures stored { IsStored self.now }
    {
        Ok(Db {
            tables: decode_tables(alloc, &self.dict, &self.tables)?,
        })
    }

    /// How many rows a table has.
    pub fn rows(&self, table: u32) -> u32
        requires table { table < length self.now.schema.shapes }
        ensures value { result ≡ rows_of self.now table }
    {
        let table = &self.tables[table as usize];
        table.spots.len() as u32
    }

    /// A fragment of a table: its rows as words. Tables and fragments count from 0.
    pub fn fragment(&self, table: u32, i: u32) -> &Fragment
        requires table { table < length self.now.schema.shapes }
        requires fragment { HasFragment self.now table i }
        ensures value { result.now ≡ coded_fragment (dictionary_of self.now.tables) (width_at self.now table) (fragment_of self.now table i) }
    {
        let table = &self.tables[table as usize];
        &table.fragments[i as usize]
    }
}
