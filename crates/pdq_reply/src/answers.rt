//! The text of an answer, and of what refuses a question, a table or a schema.
ghost use Rattle.std.specs.Prelude.{◌≡◌, ◌≤◌, ◌++◌, All, OnOk, flat_map, map, string_bytes};
ghost use Rattle.pdq_value.specs.declared.cells.Cell.{Cell as CellValue};
ghost use Rattle.pdq_value.specs.Cells.{scale_of};
ghost use Rattle.pdq_reply.specs.Answers.{count_line, load_place, load_words, refused_schema, refused_select, refused_table, row_line, rows_text, schema_place, schema_words, select_number, select_words, too_many_rows};
ghost use Rattle.pdq_reply.specs.Replies.{store_failed};

use pdq_base::Memory;
use pdq_schema::{SchemaFault, SchemaWhy};
use pdq_sql::{SqlFault, SqlWhy};
use pdq_value::{Cell, LoadFault, LoadWhy, append, print_row};
use std::alloc::Global;

fn add_string(out: &mut Vec<u8>, text: String) -> Result<(), Memory>
    ensures text { OnOk result (out.new.items ≡ out.old.items ++ string_bytes text) }
{
    append(out, text.as_bytes())
}

fn select_number(why: SqlWhy) -> u32
    ensures value { result ≡ select_number why }
{
    match why {
        SqlWhy::BadLine => 1,
        SqlWhy::UnknownTable => 2,
        SqlWhy::UnknownColumn => 3,
        SqlWhy::Ambiguous => 4,
        SqlWhy::KindsDiffer => 5,
        SqlWhy::NotJoined => 6,
        SqlWhy::NotGrouped => 7,
        SqlWhy::CountOverJoin => 8,
        SqlWhy::TooMany => 9,
        SqlWhy::Memory => 17,
    }
}

fn select_words(why: SqlWhy) -> &'static str
    ensures value { result.now ≡ select_words why }
{
    match why {
        SqlWhy::BadLine => "bad line",
        SqlWhy::UnknownTable => "unknown table",
        SqlWhy::UnknownColumn => "unknown column",
        SqlWhy::Ambiguous => "ambiguous name",
        SqlWhy::KindsDiffer => "kinds differ",
        SqlWhy::NotJoined => "tables not joined",
        SqlWhy::NotGrouped => "column not grouped",
        SqlWhy::CountOverJoin => "count over a join",
        SqlWhy::TooMany => "too many",
        SqlWhy::Memory => "want of memory",
    }
}

/// Adds the line of a refused select.
///
/// # Errors
/// `Memory` where it is wanting.
pub fn add_refused_select(alloc: Global, out: &mut Vec<u8>, fault: SqlFault) -> Result<(), Memory>
    ensures text { OnOk result (out.new.items ≡ out.old.items ++ refused_select fault) }
{
    let number = select_number(fault.why);
    let words = select_words(fault.why);
    let place = fault.place;
    let Ok(text) = format!(in alloc; "ERROR {number} {words} AT {place}\n") else {
        return Err(Memory);
    };
    add_string(out, text)
}

fn load_words(why: LoadWhy) -> &'static str
    ensures value { result.now ≡ load_words why }
{
    match why {
        LoadWhy::TooLong => "too long",
        LoadWhy::TooManyRows => "too many rows",
        LoadWhy::TooManyCells => "too many cells",
        LoadWhy::NotUtf8 => "not utf-8",
        LoadWhy::WrongFields => "wrong fields",
        LoadWhy::WrongHeader => "wrong header",
        LoadWhy::BadNumber => "bad number",
        LoadWhy::BadText => "bad text",
    }
}

fn add_load_place(
    alloc: Global,
    out: &mut Vec<u8>,
    table: u32,
    row_no: u32,
    column: u32,
) -> Result<(), Memory>
    ensures text { OnOk result (out.new.items ≡ out.old.items ++ load_place table row_no column) }
{
    let Ok(text) = format!(in alloc; " TABLE {table} ROW {row_no} COLUMN {column}\n") else {
        return Err(Memory);
    };
    add_string(out, text)
}

/// Adds the line of a table whose text is refused; nothing for want of memory.
///
/// # Errors
/// `Memory` where it is wanting.
pub fn add_refused_table(alloc: Global, out: &mut Vec<u8>, fault: LoadFault) -> Result<(), Memory>
    ensures text { OnOk result (out.new.items ≡ out.old.items ++ refused_table fault) }
{
    match fault {
        LoadFault::Wrong {
            why,
            table,
            row_no,
            column,
        } => {
            append(out, b"FAULT DATA ")?;
            append(out, load_words(why).as_bytes())?;
            add_load_place(alloc, out, table, row_no, column)
        }
        LoadFault::Memory => Ok(()),
    }
}

fn schema_words(why: SchemaWhy) -> &'static str
    ensures value { result.now ≡ schema_words why }
{
    match why {
        SchemaWhy::NotToml => "not toml",
        SchemaWhy::UnknownKey => "unknown key",
        SchemaWhy::MissingKey => "missing key",
        SchemaWhy::TooMany => "too many",
        SchemaWhy::BadName => "bad name",
        SchemaWhy::TwoNames => "two names",
        SchemaWhy::BadKind => "bad kind",
        SchemaWhy::BadFragment => "bad fragment",
    }
}

fn add_schema_place(alloc: Global, out: &mut Vec<u8>, table: u32, column: u32) -> Result<(), Memory>
    ensures text { OnOk result (out.new.items ≡ out.old.items ++ schema_place table column) }
{
    let Ok(text) = format!(in alloc; " TABLE {table} COLUMN {column}\n") else {
        return Err(Memory);
    };
    add_string(out, text)
}

/// Adds the line of a schema file that is refused; nothing for want of memory.
///
/// # Errors
/// `Memory` where it is wanting.
pub fn add_refused_schema(
    alloc: Global,
    out: &mut Vec<u8>,
    fault: SchemaFault,
) -> Result<(), Memory>
    ensures text { OnOk result (out.new.items ≡ out.old.items ++ refused_schema fault) }
{
    match fault {
        SchemaFault::Wrong { why, table, column } => {
            append(out, b"FAULT SCHEMA ")?;
            append(out, schema_words(why).as_bytes())?;
            add_schema_place(alloc, out, table, column)
        }
        SchemaFault::Memory => Ok(()),
    }
}

/// Adds the line of a question with more choices than the row limit.
///
/// # Errors
/// `Memory` where it is wanting.
pub fn add_too_many_rows(out: &mut Vec<u8>) -> Result<(), Memory>
    ensures text { OnOk result (out.new.items ≡ out.old.items ++ too_many_rows) }
{
    append(out, b"ERROR 23 too many rows\n")
}

/// Adds the line of a query during which a store failed.
///
/// # Errors
/// `Memory` where it is wanting.
pub fn add_store_failed(out: &mut Vec<u8>) -> Result<(), Memory>
    ensures text { OnOk result (out.new.items ≡ out.old.items ++ store_failed) }
{
    append(out, b"ERROR 16 overflow store failed\n")
}

fn add_row(out: &mut Vec<u8>, cells: &[Cell]) -> Result<(), Memory>
    requires scales { All (λ (c : CellValue). scale_of c ≤ 8) cells.now }
    ensures text { OnOk result (out.new.items ≡ out.old.items ++ row_line cells.now) }
{
    print_row(cells, out)?;
    append(out, b"\n")
}

fn add_count(alloc: Global, out: &mut Vec<u8>, count: usize) -> Result<(), Memory>
    ensures text { OnOk result (out.new.items ≡ out.old.items ++ count_line count) }
{
    let Ok(text) = format!(in alloc; "ROWS {count}\n") else {
        return Err(Memory);
    };
    add_string(out, text)
}

/// Adds the number of the rows, and each row as a line.
///
/// # Errors
/// `Memory` where it is wanting.
pub fn add_answer(alloc: Global, out: &mut Vec<u8>, rows: &[Vec<Cell>]) -> Result<(), Memory>
    requires scales { All (λ row. All (λ (c : CellValue). scale_of c ≤ 8) row.items) rows.now }
    ensures text { OnOk result (out.new.items ≡ out.old.items ++ rows_text (map (λ row. row.items) rows.now)) }
{
    add_count(alloc, out, rows.len())?;
    'rows: for row in rows {
        add_row(out, row)?;
    }
    Ok(())
}
