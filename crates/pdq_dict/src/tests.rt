//! A dictionary of one small table.
ghost use Rattle.std.specs.Prelude.{◌≡◌, ◌≤◌, IfOk, length};
ghost use Rattle.pdq_value.specs.Tables.{tables_of};
ghost use Rattle.pdq_dict.specs.Dictionary.{cells_in};

use crate::Dict;
use pdq_value::{Db, Name, Row, Table, TableShape, Text, Value};
use std::alloc::Global;
use std::test::Fail;

fn words(alloc: Global, text: &str) -> Result<Value, Fail> {
    let Ok(text) = Text::from_str(alloc, text) else {
        return Err("memory".into());
    };
    Ok(Value::Words(text))
}

/// A row of a number between two texts.
fn row(alloc: Global, first: &str, number: i64, last: &str) -> Result<Row, Fail>
    ensures three { IfOk result (λ r. length r ≡ 3) }
{
    let values = vec![in alloc;
        words(alloc, first)?,
        Value::Number(number),
        words(alloc, last)?,
    ]?;
    Ok(Row::new(values))
}

/// Three rows, in which the text `b` stands twice.
fn small(alloc: Global) -> Result<Db, Fail>
    ensures few { IfOk result (λ db. cells_in (tables_of db) ≤ 9) }
{
    let rows = vec![in alloc;
        row(alloc, "b", 7, "")?,
        row(alloc, "é", 8, "a")?,
        row(alloc, "ab", 9, "b")?,
    ]?;
    let shape = TableShape {
        name: Name::new(Vec::new(alloc)),
        columns: Vec::new(alloc),
    };
    let tables = vec![in alloc; Table { shape, rows }]?;
    Ok(Db { tables })
}

fn shared<T: Send + Sync>(_: &T) {}

#[test]
fn texts_have_codes(rt: HostRuntime) -> Result<(), Fail> {
    let alloc = rt.alloc();
    let db = small(alloc)?;
    let dict = Dict::of(alloc, &db).map_err(|_| "memory")?;
    shared(&dict);
    let texts: [&[u8]; 5] = [b"", b"a", b"ab", b"b", b"\xc3\xa9"];
    for (i, text) in texts.iter().enumerate() {
        let code = dict.code(text).ok_or("no code")?;
        assert_eq!(rt; code as usize, i);
        assert_eq!(rt; dict.text(code), *text);
        assert_eq!(rt; dict.place(text), code);
    }
    let absent: [(&[u8], u32); 4] = [(b"\0", 1), (b"aa", 2), (b"abc", 3), (b"\xff", 5)];
    for (text, place) in absent {
        assert_eq!(rt; dict.code(text), None);
        assert_eq!(rt; dict.place(text), place);
    }
    Ok(())
}
