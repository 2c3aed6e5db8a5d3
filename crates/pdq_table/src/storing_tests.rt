//! Tables in fragments, and once more in the order of the file.
ghost use Rattle.std.specs.Prelude.{◌≡◌, ◌∷◌, ◌≤◌, [], All, IfOk, IsTrue, length};
ghost use Rattle.pdq_value.specs.Tables.{IsRowOf, IsShape, IsValueOf, shape_of, tables_of};
ghost use Rattle.pdq_table.specs.Storing.{AreTablesOf};

use crate::{Fragment, Stored};
use pdq_schema::{copy_shape, read_schema};
use pdq_value::{Column, Db, Kind, Row, Table, TableShape, Text, Value};
use std::alloc::{AllocError, Global};
use std::test::Fail;

#[tactic(auto, using(crate::proofs::Samples::text_is_utf8))]
fn value(alloc: Global, kind: Kind, number: u8, text: &str) -> Result<Value, AllocError>
    ensures { IfOk result (IsValueOf kind) }
{
    match kind {
        Kind::Number { .. } => Ok(Value::Number(i64::from(number))),
        Kind::Words => {
            let bytes = Vec::from_slice(alloc, text.as_bytes())?;
            Ok(Value::Words(Text::new(bytes)))
        }
    }
}

/// A row of this number, and a text in the columns of texts.
fn row(alloc: Global, columns: &[Column], number: u8) -> Result<Row, AllocError>
    ensures { IfOk result (IsRowOf columns.now) }
{
    let text = if number < 10 { "few" } else { "some" };
    let mut values = Vec::new(alloc);
    for column in columns {
        let value = value(alloc, column.kind, number, text)?;
        values.push(value)?;
    }
    Ok(Row::new(values))
}

fn rows(alloc: Global, columns: &[Column], numbers: &[u8]) -> Result<Vec<Row>, AllocError>
    requires few { length numbers.now ≤ 16 }
    ensures rows { IfOk result (λ v. All (IsRowOf columns.now) v.items) }
    ensures few { IfOk result (λ v. length v.items ≤ 16) }
{
    let mut rows = Vec::new(alloc);
    for number in numbers {
        let row = row(alloc, columns, *number)?;
        rows.push(row)?;
    }
    Ok(rows)
}

/// A table of this shape, with a row for each number.
fn tables(alloc: Global, shape: &TableShape, numbers: &[u8]) -> Result<Db, Fail>
    requires shape { IsShape (shape_of shape.now) }
    requires few { length numbers.now ≤ 16 }
    ensures tables { IfOk result (λ db. AreTablesOf (shape_of shape.now ∷ []) (tables_of db)) }
{
    let rows = rows(alloc, &shape.columns, numbers)?;
    let Ok(shape) = copy_shape(alloc, shape) else {
        return Err("memory".into());
    };
    let tables = vec![in alloc; Table { shape, rows }]?;
    Ok(Db { tables })
}

/// The rows of these numbers, in the one table of this schema.
fn stored(alloc: Global, text: &str, numbers: &[u8]) -> Result<Stored, Fail>
    ensures one { IfOk result (λ s. length s.schema.shapes ≡ 1) }
{
    if numbers.len() > 16 {
        return Err("rows".into());
    }
    let Ok(schema) = read_schema(alloc, text.as_bytes()) else {
        return Err("refused".into());
    };
    let [shape] = schema.shapes() else {
        return Err("tables".into());
    };
    let db = tables(alloc, shape, numbers)?;
    let Ok(stored) = Stored::of(alloc, schema, db) else {
        return Err("memory".into());
    };
    Ok(stored)
}

fn key(row: &Row) -> i64 {
    match row.values() {
        [Value::Number(number), ..] => *number,
        _ => -1,
    }
}

#[tactic(auto, using(crate::proofs::Samples::has_fragment))]
fn fragment_in(stored: &Stored, number: u32) -> Option<&Fragment>
    requires one { length stored.now.schema.shapes ≡ 1 }
{
    if number < stored.schema().fragments(0) {
        Some(stored.fragment(0, number))
    } else {
        None
    }
}

/// The first word of each row of a fragment.
fn add_fragment(fragment: &Fragment, keys: &mut Vec<i64>) -> Result<(), AllocError> {
    for i in 0..fragment.len() {
        if let [number, ..] = fragment.row(i) {
            keys.push(*number)?;
        }
    }
    Ok(())
}

fn add_table(table: &Table, keys: &mut Vec<i64>) -> Result<(), AllocError> {
    for row in &table.rows {
        keys.push(key(row))?;
    }
    Ok(())
}

/// The numbers of the one table: those of each fragment before -1, and then all in the order of the file.
fn keys_of(alloc: Global, stored: &Stored) -> Result<Vec<i64>, Fail>
    requires one { length stored.now.schema.shapes ≡ 1 }
{
    let mut keys = Vec::new(alloc);
    for number in 0..16 {
        if let Some(fragment) = fragment_in(stored, number) {
            add_fragment(fragment, &mut keys)?;
            keys.push(-1)?;
        }
    }
    let Ok(db) = stored.to_db(alloc) else {
        return Err("memory".into());
    };
    for table in &db.tables {
        add_table(table, &mut keys)?;
    }
    Ok(keys)
}

const COLUMNS: &str = "[[table]]
name='t'
file='f'
column=[{name='k',kind='number'},{name='n',kind='text'}]
";

fn keys(alloc: Global, cut: &str, numbers: &[u8]) -> Result<Vec<i64>, Fail> {
    let text = format!(in alloc; "{COLUMNS}{cut}")?;
    let stored = stored(alloc, &text, numbers)?;
    keys_of(alloc, &stored)
}

#[test]
fn rows_stand_in_the_fragments_of_their_ranges(rt: HostRuntime) -> Result<(), Fail> {
    let keys = keys(rt.alloc(), "by='k'\nrange=[{below='10'}]", &[10, 9, 11])?;
    assert_eq!(rt; keys.as_slice(), [9, -1, 10, 11, -1, 10, 9, 11].as_slice());
    Ok(())
}

#[test]
fn rows_stand_in_fragments_in_turn(rt: HostRuntime) -> Result<(), Fail> {
    let keys = keys(rt.alloc(), "round_robin=4", &[0, 1, 2, 3, 4, 5, 6, 7, 8, 9])?;
    let wanted = [
        0, 4, 8, -1, 1, 5, 9, -1, 2, 6, -1, 3, 7, -1, 0, 1, 2, 3, 4, 5, 6, 7, 8, 9,
    ];
    assert_eq!(rt; keys.as_slice(), wanted.as_slice());
    Ok(())
}

#[test]
fn rows_are_counted_and_their_texts_have_codes(rt: HostRuntime) -> Result<(), Fail> {
    let stored = stored(rt.alloc(), COLUMNS, &[10, 9, 11])?;
    assert_eq!(rt; stored.rows(0), 3);
    assert_eq!(rt; stored.dict().code(b"few"), Some(0));
    assert_eq!(rt; stored.dict().code(b"some"), Some(1));
    Ok(())
}
