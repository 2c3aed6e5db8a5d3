//! The tables that files say, one after another.
ghost use Rattle.std.specs.Prelude.{◌≡◌, ◌+◌, ◌*◌, ◌≤◌, [], ℕ, All, IfErr, IfOk, None, Ok, OnOk, Some, length, map};
ghost use Rattle.std.specs.Global.{Vec};
ghost use Rattle.csv.specs.Records.{fields_of};
ghost use Rattle.pdq_dict.specs.Dictionary.{cell_limit};
ghost use Rattle.pdq_schema.specs.Fragments.{fragment_count};
ghost use Rattle.pdq_schema.specs.Schemas.{IsCutOf, IsSchema, cut_of};
ghost use Rattle.pdq_value.specs.declared.shapes.Column.{Column};
ghost use Rattle.pdq_value.specs.PlainTable.{most_rows, Refuses};
ghost use Rattle.pdq_value.specs.Tables.{IsKind, IsShape, shape_of};
ghost use Rattle.pdq_table.specs.Layout.{AreReadRows, AreReadTables, IsNotedTable, IsOpenTable, IsReadTable, TakesRow};
ghost use Rattle.pdq_table.specs.Loading.{contents_of, most_bytes, records_of, row_of, rows_from, rows_in, table_from, tables_from, tables_loaded, too_long_at};
ghost use Rattle.pdq_table.specs.Records.{AreShort, IsReading, records_left};

use crate::fields::{MOST_ROWS, fault};
use crate::headers::check_header;
use crate::noting::{fragment_of_record, note_record, record_fault};
use crate::records::{next_record, records_in};
use crate::stored_table::StoredTable;
use csv::{ByteRecord, Reader};
use pdq_dict::Notes;
use pdq_schema::{Cut, Schema, copy_shape};
use pdq_value::{Column, LoadFault, LoadWhy, TableShape};
use std::alloc::Global;

/// The most bytes of a file.
const MOST_BYTES: usize = 134_217_728;

/// Takes in the row that a record says, where all tables have so many cells before it. What stood in `words` is overwritten.
fn read_record(
    alloc: Global,
    cut: &Cut,
    columns: &[Column],
    table: u32,
    row_no: u32,
    cells: u64,
    row: &ByteRecord,
    notes: &mut Notes,
    stored: &mut StoredTable,
    words: &mut Vec<i64>,
) -> Result<(), LoadFault>
    requires kinds { All (λ (c : Column). IsKind c.kind) columns.now }
    requires few { length columns.now ≤ 16 }
    requires columns { stored.old.shape.columns.items ≡ columns.now }
    requires cut { IsCutOf columns.now (cut_of cut.now) }
    requires cells { cells ≤ cell_limit }
    requires short { AreShort (fields_of row.now) }
    requires counted { length stored.old.spots.items + 1 ≡ row_no }
    requires table { IsOpenTable notes.old (cut_of cut.now) stored.old }
    ensures read { OnOk result (TakesRow (row_of columns.now (record { table = table; row = row_no }) cells (fields_of row.now)) (cut_of cut.now) notes.old notes.new stored.old stored.new) }
    ensures refused { IfErr result (Refuses (row_of columns.now (record { table = table; row = row_no }) cells (fields_of row.now))) }
    ensures shape { stored.new.shape ≡ stored.old.shape }
    ensures rows { OnOk result (row_no ≤ most_rows) }
    ensures room { OnOk result (cells + length columns.now ≤ cell_limit) }
{
    if let Some(wrong) = record_fault(columns, table, row_no, cells, row) {
        return Err(wrong);
    }
    note_record(alloc, columns, table, row_no, row, notes, words)?;
    let place = stored.spots.len() as u32;
    let Ok(number) = fragment_of_record(alloc, cut, columns, table, row_no, place, row) else {
        return Err(LoadFault::Memory);
    };
    let Ok(()) = stored.push(number, words) else {
        return Err(LoadFault::Memory);
    };
    Ok(())
}

/// Takes in the rows that the records say that a reader has left, where all tables have so many cells before them.
fn read_rows(
    alloc: Global,
    cut: &Cut,
    columns: &[Column],
    table: u32,
    cells: u64,
    reader: &mut Reader<&[u8]>,
    notes: &mut Notes,
    stored: &mut StoredTable,
) -> Result<(), LoadFault>
    requires kinds { All (λ (c : Column). IsKind c.kind) columns.now }
    requires few { length columns.now ≤ 16 }
    requires columns { stored.old.shape.columns.items ≡ columns.now }
    requires cut { IsCutOf columns.now (cut_of cut.now) }
    requires cells { cells ≤ cell_limit }
    requires reading { IsReading reader.old }
    requires empty { IsNotedTable notes.old (cut_of cut.now) stored.old [] }
    ensures read { OnOk result (AreReadRows (rows_from columns.now table 1 cells (records_left reader.old)) (cut_of cut.now) notes.old notes.new stored.new) }
    ensures refused { IfErr result (Refuses (rows_from columns.now table 1 cells (records_left reader.old))) }
    ensures shape { OnOk result (stored.new.shape ≡ stored.old.shape) }
    ensures few { OnOk result (length stored.new.spots.items ≤ most_rows) }
    ensures room { OnOk result (cells + length stored.new.spots.items * length columns.now ≤ cell_limit) }
{
    let mut words = Vec::new(alloc);
    let mut fields = ByteRecord::new(alloc);
    let mut cell_count = cells;
    for row_no in 1..=MOST_ROWS + 1 {
        let Ok(found) = next_record(reader, &mut fields) else {
            return Err(LoadFault::Memory);
        };
        if !found {
            return Ok(());
        }
        read_record(
            alloc, cut, columns, table, row_no, cell_count, &fields, notes, stored, &mut words,
        )?;
        cell_count += columns.len() as u64;
    }
    unreachable!()
}

/// Takes in the rows that a file says, below its header.
fn read_file(
    alloc: Global,
    cut: &Cut,
    columns: &[Column],
    table: u32,
    cells: u64,
    bytes: &[u8],
    notes: &mut Notes,
    stored: &mut StoredTable,
) -> Result<(), LoadFault>
    requires kinds { All (λ (c : Column). IsKind c.kind) columns.now }
    requires few { length columns.now ≤ 16 }
    requires columns { stored.old.shape.columns.items ≡ columns.now }
    requires cut { IsCutOf columns.now (cut_of cut.now) }
    requires cells { cells ≤ cell_limit }
    requires short { length bytes.now ≤ most_bytes }
    requires empty { IsNotedTable notes.old (cut_of cut.now) stored.old [] }
    ensures read { OnOk result (AreReadRows (rows_in columns.now table cells (records_of bytes.now)) (cut_of cut.now) notes.old notes.new stored.new) }
    ensures refused { IfErr result (Refuses (rows_in columns.now table cells (records_of bytes.now))) }
    ensures shape { OnOk result (stored.new.shape ≡ stored.old.shape) }
    ensures few { OnOk result (length stored.new.spots.items ≤ most_rows) }
    ensures room { OnOk result (cells + length stored.new.spots.items * length columns.now ≤ cell_limit) }
{
    let mut reader = records_in(alloc, bytes);
    let mut header = ByteRecord::new(alloc);
    let Ok(found) = next_record(&mut reader, &mut header) else {
        return Err(LoadFault::Memory);
    };
    if !found {
        return Err(fault(LoadWhy::WrongFields, table, 0, 0));
    }
    check_header(alloc, columns, table, &header)?;
    read_rows(
        alloc,
        cut,
        columns,
        table,
        cells,
        &mut reader,
        notes,
        stored,
    )
}

/// The table with this number that a file says, where all tables before it have so many cells.
#[tactic(auto, unfolding(crate::specs::Loading::table_from))]
fn read_table(
    alloc: Global,
    shape: &TableShape,
    cut: &Cut,
    table: u32,
    cells: u64,
    bytes: &[u8],
    notes: &mut Notes,
) -> Result<StoredTable, LoadFault>
    requires shape { IsShape (shape_of shape.now) }
    requires cut { IsCutOf shape.now.columns.items (cut_of cut.now) }
    requires fragments { fragment_count (cut_of cut.now) ≤ 16 }
    requires cells { cells ≤ cell_limit }
    requires short { length bytes.now ≤ most_bytes }
    ensures read { IfOk result (λ t. IsReadTable (table_from table cells (shape_of shape.now) bytes.now) (cut_of cut.now) notes.old notes.new t) }
    ensures refused { IfErr result (Refuses (table_from table cells (shape_of shape.now) bytes.now)) }
    ensures shape { IfOk result (λ t. shape_of t.shape ≡ shape_of shape.now) }
    ensures few { IfOk result (λ t. length t.spots.items ≤ most_rows) }
    ensures room { IfOk result (λ t. cells + length t.spots.items * length shape.now.columns.items ≤ cell_limit) }
{
    let Ok(own_shape) = copy_shape(alloc, shape) else {
        return Err(LoadFault::Memory);
    };
    let Ok(mut stored) = StoredTable::new(alloc, own_shape, cut) else {
        return Err(LoadFault::Memory);
    };
    read_file(
        alloc,
        cut,
        &shape.columns,
        table,
        cells,
        bytes,
        notes,
        &mut stored,
    )?;
    Ok(stored)
}

/// The number of the first file that is too long.
fn first_too_long(files: &[Vec<u8>]) -> Option<u32>
    requires few { length files.now ≤ 16 }
    ensures value { result ≡ too_long_at 1 (contents_of files.now) }
{
    for (place, file) in files.iter().enumerate() {
        if file.len() > MOST_BYTES {
            return Some(place as u32 + 1);
        }
    }
    None
}

/// The tables of a schema, each from its file, none of which is too long. The bytes of a file are given back as soon as it was read.
fn read_tables(
    alloc: Global,
    schema: &Schema,
    shapes: &[TableShape],
    files: Vec<Vec<u8>>,
    notes: &mut Notes,
) -> Result<Vec<StoredTable>, LoadFault>
    requires schema { IsSchema schema.now }
    requires shapes { map shape_of shapes.now ≡ schema.now.shapes }
    requires files { length files.items ≡ length schema.now.shapes }
    requires short { All (λ (file : Vec ℕ). length file.items ≤ most_bytes) files.items }
    requires none { notes.old ≡ [] }
    ensures read { IfOk result (λ v. AreReadTables (tables_from 1 0 schema.now.shapes (contents_of files.items)) schema.now notes.new v.items) }
    ensures refused { IfErr result (Refuses (tables_from 1 0 schema.now.shapes (contents_of files.items))) }
{
    let Ok(mut tables) = Vec::with_capacity(alloc, shapes.len()) else {
        return Err(LoadFault::Memory);
    };
    let mut cells = 0;
    for file in files {
        let place = tables.len();
        let shape = &shapes[place];
        let cut = schema.cut(place as u32);
        let table = read_table(alloc, shape, cut, place as u32 + 1, cells, &file, notes)?;
        cells += table.spots.len() as u64 * shape.columns.len() as u64;
        let Ok(()) = tables.push(table) else {
            return Err(LoadFault::Memory);
        };
    }
    Ok(tables)
}

/// The tables of a schema that the files say.
///
/// # Errors
/// The first fault, `TooLong` before all others. `Memory` where it is wanting.
#[tactic(auto, using(crate::proofs::TableReads::none_too_long), unfolding(crate::specs::Loading::tables_loaded))]
pub(crate) fn load_tables(
    alloc: Global,
    schema: &Schema,
    shapes: &[TableShape],
    files: Vec<Vec<u8>>,
    notes: &mut Notes,
) -> Result<Vec<StoredTable>, LoadFault>
    requires schema { IsSchema schema.now }
    requires shapes { map shape_of shapes.now ≡ schema.now.shapes }
    requires files { length files.items ≡ length schema.now.shapes }
    requires none { notes.old ≡ [] }
    ensures read { IfOk result (λ v. AreReadTables (tables_loaded schema.now.shapes (contents_of files.items)) schema.now notes.new v.items) }
    ensures refused { IfErr result (Refuses (tables_loaded schema.now.shapes (contents_of files.items))) }
{
    if let Some(table) = first_too_long(&files) {
        return Err(fault(LoadWhy::TooLong, table, 0, 0));
    }
    read_tables(alloc, schema, shapes, files, notes)
}
