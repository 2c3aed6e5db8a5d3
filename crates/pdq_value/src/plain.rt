//! A plain table: a header, then one row line for each row.
ghost use Rattle.std.specs.Prelude.{All, ◌==◌, position, ◌≡◌, ◌+◌, ◌∷◌, ◌<◌, ◌≤◌, ◌^◌, [], IfOk, IfErr, IfSome, option_map, Ok, Err, Some, None, length, map, true};
ghost use Rattle.std.specs.Str.{is_utf8};
ghost use Rattle.pdq_base.specs.Lines.{lines_of, without_return};
ghost use Rattle.pdq_value.specs.PlainTable.{cells_of, fault, has_fields, is_one_text, line_text, not_utf8_at, plain_table_of, row_of, rows_from, table_of_lines, value_of, values_of, with_rows, Refuses};
ghost use Rattle.pdq_value.specs.declared.shapes.Column.{Column};
ghost use Rattle.pdq_value.specs.RowLines.{plain_text, raw_cells};
ghost use Rattle.pdq_value.specs.Tables.{IsKind, IsShape, IsTable, shape_of, table_of};

use crate::header::read_header;
use crate::loading::{LoadFault, LoadWhy};
use crate::numbers::read_number;
use crate::row_lines::{first_cell_end, is_nothing, text_of_cell};
use crate::shapes::{Column, Kind, Row, Table, TableShape, Value};
use crate::texts::Text;
use pdq_base::{Memory, is_utf8, without_return};
use std::alloc::Global;

/// The most bytes of a plain table.
const MOST_BYTES: usize = 16_777_216;

/// The most rows of a table.
const MOST_ROWS: u32 = 2_000_000;

/// A fault of the one table, in this row and column.
fn fault(why: LoadWhy, row_no: u32, column: u32) -> LoadFault
    ensures value { result ≡ fault why row_no column }
{
    LoadFault::Wrong {
        why,
        table: 1,
        row_no,
        column,
    }
}

/// The value of a raw cell in a column of this kind; `Null` where the cell is `\N` and no more.
#[tactic(auto, using(crate::proofs::PlainTexts::no_longer, crate::proofs::Utf8Texts::says_utf8), unfolding(crate::specs::PlainTable::value_of))]
fn read_value(
    alloc: Global,
    kind: Kind,
    row_no: u32,
    column: u32,
    cell: &[u8],
) -> Result<Value, LoadFault>
    requires kind { IsKind kind }
    requires short { length cell.now ≤ 16777216 }
    requires utf8 { is_utf8 cell.now ≡ true }
    ensures read { IfOk result (λ v. value_of kind row_no column cell.now ≡ Ok v) }
    ensures refused { IfErr result (Refuses (value_of kind row_no column cell.now)) }
{
    if is_nothing(cell) {
        return Ok(Value::Null);
    }
    let Ok(text) = text_of_cell(alloc, cell) else {
        return Err(LoadFault::Memory);
    };
    let Some(text) = text else {
        return Err(fault(LoadWhy::BadText, row_no, column));
    };
    match kind {
        Kind::Words => Ok(Value::Words(Text::new(text))),
        Kind::Number { scale } => match read_number(&text, scale) {
            Ok(number) => Ok(Value::Number(number)),
            Err(_) => Err(fault(LoadWhy::BadNumber, row_no, column)),
        },
    }
}

/// The first raw cell of a line, and what stands behind its bar.
fn first_cell(line: &[u8]) -> (&[u8], Option<&[u8]>)
    ensures cut { raw_cells line.now ≡ result.0.now ∷ cells_of (option_map (λ r. r.now) result.1) }
    ensures shorter { length result.0.now ≤ length line.now }
    ensures rest_shorter { IfSome result.1 (λ r. length r.now < length line.now) }
{
    let end = first_cell_end(line);
    if end == line.len() {
        (line, None)
    } else {
        (&line[..end], Some(&line[end + 1..]))
    }
}

/// How many raw cells a line has, or the first column whose cell is not UTF-8.
fn count_cells(line: &[u8]) -> Result<u32, u32>
    requires short { length line.now ≤ 16777216 }
    ensures counted { IfOk result (λ n. (n ≡ length (raw_cells line.now)) × (not_utf8_at 1 (raw_cells line.now) ≡ None)) }
    ensures stopped { IfErr result (λ column. not_utf8_at 1 (raw_cells line.now) ≡ Some column) }
{
    let mut unread = line;
    for column in 1..16_777_218_u32 {
        let (cell, rest) = first_cell(unread);
        if !is_utf8(cell) {
            return Err(column);
        }
        match rest {
            None => return Ok(column),
            Some(rest) => unread = rest,
        }
    }
    unreachable!()
}

/// Whether the columns are one of texts alone.
fn is_one_text(columns: &[Column]) -> bool
    ensures value { result ≡ is_one_text columns.now }
{
    match columns {
        [column] => matches!(column.kind, Kind::Words),
        _ => false,
    }
}

/// Whether the line has a cell for each column, where it has so many cells.
fn has_fields(columns: &[Column], line: &[u8], count: u32) -> bool
    requires count { count ≡ length (raw_cells line.now) }
    ensures value { result ≡ has_fields columns.now line.now }
{
    match line {
        [] => is_one_text(columns),
        _ => count as usize == columns.len(),
    }
}

/// The values of a line, column by column.
fn read_values(
    alloc: Global,
    columns: &[Column],
    row_no: u32,
    line: &[u8],
) -> Result<Vec<Value>, LoadFault>
    requires kinds { All (λ (c : Column). IsKind c.kind) columns.now }
    requires few { length columns.now ≤ 16 }
    requires short { length line.now ≤ 16777216 }
    requires utf8 { not_utf8_at 1 (raw_cells line.now) ≡ None }
    ensures read { IfOk result (λ v. values_of columns.now row_no 1 (raw_cells line.now) ≡ Ok v.items) }
    ensures refused { IfErr result (Refuses (values_of columns.now row_no 1 (raw_cells line.now))) }
{
    let mut values = Vec::new(alloc);
    let mut unread = Some(line);
    let mut column_no = 0;
    for column in columns {
        let Some(text) = unread else {
            return Ok(values);
        };
        let (cell, rest) = first_cell(text);
        column_no += 1;
        let value = read_value(alloc, column.kind, row_no, column_no, cell)?;
        let Ok(()) = values.push(value) else {
            return Err(LoadFault::Memory);
        };
        unread = rest;
    }
    Ok(values)
}

/// The row that a line says.
#[tactic(auto, unfolding(crate::specs::PlainTable::row_of))]
fn read_row(alloc: Global, columns: &[Column], row_no: u32, line: &[u8]) -> Result<Row, LoadFault>
    requires kinds { All (λ (c : Column). IsKind c.kind) columns.now }
    requires few { length columns.now ≤ 16 }
    requires short { length line.now ≤ 16777216 }
    ensures read { IfOk result (λ r. row_of columns.now row_no line.now ≡ Ok r) }
    ensures refused { IfErr result (Refuses (row_of columns.now row_no line.now)) }
{
    match count_cells(line) {
        Err(column) => Err(fault(LoadWhy::NotUtf8, row_no, column)),
        Ok(count) => {
            if !has_fields(columns, line, count) {
                return Err(fault(LoadWhy::WrongFields, row_no, 0));
            }
            Ok(Row::new(read_values(alloc, columns, row_no, line)?))
        }
    }
}

fn is_line_end(b: u8) -> bool
    ensures value { result ≡ (b == 10) }
{
    b == b'\n'
}

fn line_end_at(bytes: &[u8]) -> Option<usize>
    ensures value { result ≡ position (λ b. b == 10) bytes.now }
    ensures within { IfSome result (λ end. end < length bytes.now) }
{
    bytes.iter().position(|b| is_line_end(*b))
}

/// What the first line says, and the bytes after it.
#[tactic(auto, using(crate::proofs::LineCuts::line_cut, crate::proofs::LineCuts::last_line))]
fn first_line(bytes: &[u8]) -> (&[u8], &[u8])
    requires some { 0 < length bytes.now }
    ensures cut { map line_text (lines_of bytes.now) ≡ result.0.now ∷ map line_text (lines_of result.1.now) }
    ensures shorter { length result.0.now ≤ length bytes.now }
    ensures rest_shorter { length result.1.now < length bytes.now }
{
    match line_end_at(bytes) {
        Some(end) => (without_return(&bytes[..end]), &bytes[end + 1..]),
        None => (without_return(bytes), &bytes[bytes.len()..]),
    }
}

/// The rows that the lines of these bytes say.
fn read_rows(alloc: Global, columns: &[Column], bytes: &[u8]) -> Result<Vec<Row>, LoadFault>
    requires kinds { All (λ (c : Column). IsKind c.kind) columns.now }
    requires few { length columns.now ≤ 16 }
    requires short { length bytes.now ≤ 16777216 }
    ensures read { IfOk result (λ rows. rows_from columns.now 1 (map line_text (lines_of bytes.now)) ≡ Ok rows.items) }
    ensures refused { IfErr result (Refuses (rows_from columns.now 1 (map line_text (lines_of bytes.now)))) }
{
    let mut rows = Vec::new(alloc);
    let mut unread = bytes;
    for row_no in 1..=MOST_ROWS {
        if unread.is_empty() {
            return Ok(rows);
        }
        let (line, rest) = first_line(unread);
        let row = read_row(alloc, columns, row_no, line)?;
        let Ok(()) = rows.push(row) else {
            return Err(LoadFault::Memory);
        };
        unread = rest;
    }
    if unread.is_empty() {
        Ok(rows)
    } else {
        Err(fault(LoadWhy::TooManyRows, MOST_ROWS + 1, 0))
    }
}

/// The table whose rows the bytes say, below this header.
fn read_table(alloc: Global, shape: TableShape, bytes: &[u8]) -> Result<Table, LoadFault>
    requires shape { IsShape (shape_of shape) }
    requires short { length bytes.now ≤ 16777216 }
    ensures read { IfOk result (λ t. with_rows (shape_of shape) (rows_from shape.columns.items 1 (map line_text (lines_of bytes.now))) ≡ Ok (table_of t)) }
    ensures refused { IfErr result (Refuses (with_rows (shape_of shape) (rows_from shape.columns.items 1 (map line_text (lines_of bytes.now))))) }
    ensures shape { IfOk result (λ t. t.shape ≡ shape) }
    ensures table { IfOk result (λ t. IsTable (table_of t)) }
{
    let rows = read_rows(alloc, &shape.columns, bytes)?;
    Ok(Table { shape, rows })
}

/// The plain table that the bytes say: a first line `table NAME COLUMN ..`, with one blank between and each column as
/// `name:text` or `name:number:s`, then one row line for each row, in which a cell that is `\N` and no more is `Null`, whatever its
/// column holds. The form is our own.
///
/// # Errors
/// The first fault, `TooLong` (more than 16,777,216 bytes) before all others, then line by line: `WrongHeader` for any fault of
/// the first line, and in a row `TooManyRows`, `NotUtf8`, `WrongFields`, and cell by cell `BadText` before `BadNumber`.
/// `Memory` where it is wanting.
#[tactic(auto, unfolding(crate::specs::PlainTable::plain_table_of))]
pub fn read_plain(alloc: Global, bytes: &[u8]) -> Result<Table, LoadFault>
    ensures read { IfOk result (λ t. plain_table_of bytes.now ≡ Ok (table_of t)) }
    ensures refused { IfErr result (Refuses (plain_table_of bytes.now)) }
    ensures shape { IfOk result (λ t. IsShape (shape_of t.shape)) }
    ensures table { IfOk result (λ t. IsTable (table_of t)) }
{
    if bytes.len() > MOST_BYTES {
        return Err(fault(LoadWhy::TooLong, 0, 0));
    }
    if bytes.is_empty() {
        return Err(fault(LoadWhy::WrongHeader, 0, 0));
    }
    let (line, rest) = first_line(bytes);
    match read_header(alloc, line) {
        Ok(Some(shape)) => read_table(alloc, shape, rest),
        Ok(None) => Err(fault(LoadWhy::WrongHeader, 0, 0)),
        Err(_) => Err(LoadFault::Memory),
    }
}
