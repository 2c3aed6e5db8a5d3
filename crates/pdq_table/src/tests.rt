//! CSV files as they are loaded and refused.
use crate::load;
use pdq_schema::read_schema;
use pdq_value::{Db, LoadFault, LoadWhy, Value};
use std::alloc::Global;
use std::test::Fail;

const SCHEMA: &[u8] =
    b"table=[{name='t',file='f',column=[{name='a',kind='text'},{name='b',kind='number',scale=2}]}]";

/// The table that a file says, with texts in column `a` and numbers in column `b`.
fn loaded(alloc: Global, text: &[u8]) -> Result<Db, LoadFault> {
    let Ok(schema) = read_schema(alloc, SCHEMA) else {
        return Err(LoadFault::Memory);
    };
    let Ok(file) = Vec::from_slice(alloc, text) else {
        return Err(LoadFault::Memory);
    };
    let mut files = Vec::new(alloc);
    let Ok(()) = files.push(file) else {
        return Err(LoadFault::Memory);
    };
    if schema.shapes().len() != files.len() {
        return Err(LoadFault::Memory);
    }
    let stored = load(alloc, &schema, files)?;
    let Ok(db) = stored.to_db(alloc) else {
        return Err(LoadFault::Memory);
    };
    Ok(db)
}

#[test]
fn files_are_refused(rt: HostRuntime) {
    let cases: [(&[u8], LoadWhy, u32, u32); 13] = [
        (b"", LoadWhy::WrongFields, 0, 0),
        (b"\r\n\n", LoadWhy::WrongFields, 0, 0),
        (b"a\n", LoadWhy::WrongFields, 0, 0),
        (b"a,c\n", LoadWhy::WrongHeader, 0, 2),
        (b"a ,b\n", LoadWhy::WrongHeader, 0, 1),
        (b"\xEF\xBB\xBF\xEF\xBB\xBFa,b\n", LoadWhy::WrongHeader, 0, 1),
        (b"a,\xFF\n", LoadWhy::NotUtf8, 0, 2),
        (b"a,b\nx,1\ny,2x\n", LoadWhy::BadNumber, 2, 2),
        (b"a,b\nx, 1\n", LoadWhy::BadNumber, 1, 2),
        (b"a,b\nx,1.505\n", LoadWhy::BadNumber, 1, 2),
        (b"a,b\nx,1\n\ny\n", LoadWhy::WrongFields, 2, 0),
        (b"a,b\nx,1,\n", LoadWhy::WrongFields, 1, 0),
        (b"a,b\n\xFF,z,\n", LoadWhy::NotUtf8, 1, 1),
    ];
    for (text, why, row_no, column) in cases {
        let wanted = LoadFault::Wrong {
            why,
            table: 1,
            row_no,
            column,
        };
        assert_eq!(rt; loaded(rt.alloc(), text).err(), Some(wanted), "at {text:?}");
    }
}

#[test]
fn files_are_loaded(rt: HostRuntime) -> Result<(), Fail> {
    let cases: [(&[u8], usize, &[u8], i64); 4] = [
        (b"\xEF\xBB\xBFa,b\nx,1.5\n", 1, b"x", 150),
        (b"A,\"B\"\r\n,-0.25", 1, b"", -25),
        (
            b"a,b\n\"x\r\n\"\"y\"\",\",\"2\"\n\nz,3\n",
            2,
            b"x\r\n\"y\",",
            200,
        ),
        (b"a,b\n x ,3.000\n", 1, b" x ", 300),
    ];
    for (text, count, words, number) in cases {
        let db = loaded(rt.alloc(), text).map_err(|_| "refused")?;
        let [table] = db.tables.as_slice() else {
            return Err("tables".into());
        };
        assert_eq!(rt; table.rows.len(), count, "at {text:?}");
        let Some(row) = table.rows.first() else {
            return Err("rows".into());
        };
        let [Value::Words(first), Value::Number(second)] = row.values() else {
            return Err("kinds".into());
        };
        assert_eq!(rt; first.bytes(), words);
        assert_eq!(rt; *second, number);
    }
    let db = loaded(rt.alloc(), b"a,b\n").map_err(|_| "refused")?;
    let [table] = db.tables.as_slice() else {
        return Err("tables".into());
    };
    assert_eq!(rt; table.rows.len(), 0);
    Ok(())
}
