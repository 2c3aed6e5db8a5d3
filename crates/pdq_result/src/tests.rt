//! Rows of words as answers.
ghost use Rattle.std.specs.Prelude.{◌≡◌, ◌≤◌, IfOk, length};
ghost use Rattle.pdq_value.specs.Tables.{tables_of};
ghost use Rattle.pdq_dict.specs.Dictionary.{cells_in};
ghost use Rattle.pdq_eval.specs.Results.{folds_of};

use crate::decoding::rows_from;
use crate::sources::Source;
use crate::{folds, group_row_width, group_shape, is_grouped};
use pdq_dict::{Dict, NULL_WORD};
use pdq_group::Fold;
use pdq_owner::Kept;
use pdq_query::{At, Item, Query};
use pdq_spill::RowOut;
use pdq_value::{Cell, Db, Kind, Name, Row, Table, TableShape, Text, Value};
use std::alloc::{AllocError, Global};
use std::test::Fail;

/// A column.
fn at(table: u32, column: u32) -> At
    ensures { result ≡ record { table = table; column = column } }
{
    At { table, column }
}

/// The sales of each city.
fn sales(alloc: Global) -> Result<Query, AllocError>
    ensures groups { IfOk result (λ query. length query.groups.items ≡ 1) }
    ensures folds { IfOk result (λ query. length (folds_of query.items.items) ≡ 5) }
{
    let sold = at(0, 1);
    Ok(Query {
        tables: vec![in alloc; 0]?,
        filters: Vec::new(alloc),
        joins: Vec::new(alloc),
        items: vec![in alloc;
            Item::Plain(at(0, 0)),
            Item::Sum(sold),
            Item::Avg(sold),
            Item::Min(sold),
            Item::Max(sold),
            Item::Count,
        ]?,
        groups: vec![in alloc; at(0, 0)]?,
        keys: Vec::new(alloc),
    })
}

fn text(alloc: Global, text: &str) -> Result<Value, Fail> {
    let Ok(text) = Text::from_str(alloc, text) else {
        return Err("memory".into());
    };
    Ok(Value::Words(text))
}

fn row(alloc: Global, name: &str) -> Result<Row, Fail>
    ensures one { IfOk result (λ row. length row ≡ 1) }
{
    Ok(Row::new(vec![in alloc; text(alloc, name)?]?))
}

/// Oslo and Rome.
fn cities(alloc: Global) -> Result<Db, Fail>
    ensures few { IfOk result (λ db. cells_in (tables_of db) ≤ 2) }
{
    let rows = vec![in alloc; row(alloc, "Rome")?, row(alloc, "Oslo")?]?;
    let shape = TableShape {
        name: Name::new(Vec::new(alloc)),
        columns: Vec::new(alloc),
    };
    Ok(Db {
        tables: vec![in alloc; Table { shape, rows }]?,
    })
}

/// A group's row.
fn group(alloc: Global, words: [i64; 7]) -> Result<Kept, Fail> {
    let mut kept = Kept::new(alloc, 7, None);
    match kept.put(&words) {
        Ok(()) => Ok(kept),
        Err(_) => Err("memory".into()),
    }
}

fn cell(rows: &[Vec<Cell>], row: usize, item: usize) -> Option<&Cell> {
    rows.get(row)?.get(item)
}

fn is_text(cell: Option<&Cell>, text: &[u8]) -> bool {
    match cell {
        Some(Cell::Words(words)) => words.bytes() == text,
        _ => false,
    }
}

fn is_number(cell: Option<&Cell>, number: i128, places: u32) -> bool {
    match cell {
        Some(Cell::Number { unscaled, scale }) => *unscaled == number && *scale == places,
        _ => false,
    }
}

#[test]
fn group_rows_are_decoded(rt: HostRuntime) -> Result<(), Fail> {
    let alloc = rt.alloc();
    let dict = Dict::of(alloc, &cities(alloc)?).map_err(|_| "memory")?;
    let kind = Kind::Number { scale: 2 };
    let sources = [
        Source::Column {
            place: 0,
            kind: Kind::Words,
        },
        Source::Wide { place: 1, scale: 2 },
        Source::Wide { place: 3, scale: 4 },
        Source::Extreme { place: 5, kind },
        Source::Count { place: 6 },
    ];
    let groups = [
        group(alloc, [1, 5, 1, 0, NULL_WORD, -7, 3])?,
        group(alloc, [NULL_WORD, -1, -1, -150, -1, NULL_WORD, 2])?,
    ];
    let rows = rows_from(alloc, &dict, &sources, &groups).map_err(|_| "memory")?;
    assert!(rt; is_text(cell(&rows, 0, 0), b"Rome"));
    assert!(rt; is_number(cell(&rows, 0, 1), 18446744073709551621, 2));
    assert!(rt; matches!(cell(&rows, 0, 2), Some(Cell::Nothing)));
    assert!(rt; is_number(cell(&rows, 0, 4), 3, 0));
    assert!(rt; is_number(cell(&rows, 1, 1), -1, 2));
    assert!(rt; is_number(cell(&rows, 1, 2), -150, 4));
    Ok(())
}

#[test]
fn folds_are_shaped(rt: HostRuntime) -> Result<(), Fail> {
    let alloc = rt.alloc();
    let query = sales(alloc)?;
    assert!(rt; is_grouped(&query));
    assert!(rt; folds(&query));
    let shape = group_shape(alloc, &query).map_err(|_| "memory")?;
    assert_eq!(rt; shape.keys, 1);
    assert_eq!(rt;
        shape.folds.as_slice(),
        [Fold::Sum, Fold::Avg, Fold::Min, Fold::Max, Fold::Count].as_slice()
    );
    assert_eq!(rt; group_row_width(&shape), 8);
    Ok(())
}
