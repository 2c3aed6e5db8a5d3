//! Plain tables as they are read and refused.
use crate::{LoadFault, LoadWhy, Value, read_plain};
use std::alloc::Global;
use std::test::Fail;

/// Why a table is refused, with its row and column.
fn refusal(alloc: Global, text: &[u8]) -> Option<(LoadWhy, u32, u32)> {
    match read_plain(alloc, text) {
        Err(
            LoadFault::Wrong {
                why,
                table: 1,
                row_no,
                column,
            },
        ) => Some((why, row_no, column)),
        _ => None,
    }
}

#[test]
fn plain_tables_are_refused(rt: HostRuntime) {
    let alloc = rt.alloc();
    let header = Some((LoadWhy::WrongHeader, 0, 0));
    for text in [
        "",
        "\n",
        "table",
        "table t",
        "table t a",
        "table t a:words",
        "table t a:number",
        "table t a:number:7",
        "table t a:number:10",
        "Table t a:text",
        "table T a:text",
        "table t A:text",
        "table t  a:text",
        " table t a:text",
        "table t a:text ",
        "table t a:text a:text",
        "table t count:text",
        "table t a:text b:text c:text d:text e:text f:text g:text h:text i:text j:text k:text l:text m:text n:text o:text p:text q:text",
    ] {
        assert_eq!(rt; refusal(alloc, text.as_bytes()), header, "at {text}");
    }
    for (text, why, row_no, column) in [
        ("table t a:text\nx|y\n", LoadWhy::WrongFields, 1, 0),
        ("table t a:text b:text\n\n", LoadWhy::WrongFields, 1, 0),
        ("table t a:number:0\n\n", LoadWhy::WrongFields, 1, 0),
        (
            "table t a:number:2\n1.50\n1.505\n",
            LoadWhy::BadNumber,
            2,
            1,
        ),
        ("table t a:number:2\n\\n1\n", LoadWhy::BadNumber, 1, 1),
        ("table t a:text\n\\Nx\n", LoadWhy::BadText, 1, 1),
        ("table t a:text\nx\\N\n", LoadWhy::BadText, 1, 1),
        ("table t a:number:0\n\\N0\n", LoadWhy::BadText, 1, 1),
        ("table t a:number:0 b:text\n|x\n", LoadWhy::BadNumber, 1, 1),
        ("table t a:text b:text\nx|\\\n", LoadWhy::BadText, 1, 2),
        ("table t a:text\n\\x|y\n", LoadWhy::WrongFields, 1, 0),
        (
            "table t a:number:0 b:text\nx|\\x\n",
            LoadWhy::BadNumber,
            1,
            1,
        ),
    ] {
        assert_eq!(rt;
            refusal(alloc, text.as_bytes()),
            Some((why, row_no, column)),
            "at {text}"
        );
    }
    let not_utf8 = Some((LoadWhy::NotUtf8, 1, 2));
    assert_eq!(rt; refusal(alloc, b"table t a:text\nx|\xff|y\n"), not_utf8);
}

#[test]
fn plain_tables_are_read(rt: HostRuntime) -> Result<(), Fail> {
    let alloc = rt.alloc();
    let text = b"table t\tname:text price:number:2\r\nPen|1.50\nA\\|B\\\\|-0.5\r\n|0";
    let table = read_plain(alloc, text).map_err(|_| "refused")?;
    assert_eq!(rt; table.shape.columns.len(), 2);
    let wanted: [(&[u8], i64); 3] = [(b"Pen", 150), (b"A|B\\", -50), (b"", 0)];
    assert_eq!(rt; table.rows.len(), wanted.len());
    for (row, (name, price)) in table.rows.iter().zip(wanted) {
        let [Value::Words(text), Value::Number(number)] = row.values() else {
            return Err("kinds".into());
        };
        assert_eq!(rt; text.bytes(), name);
        assert_eq!(rt; *number, price);
    }
    let holes = b"table t a:text b:number:1\n\\N|2.0\nx|\\N";
    let holes = read_plain(alloc, holes).map_err(|_| "refused")?;
    let [first, second] = holes.rows.as_slice() else {
        return Err("rows".into());
    };
    assert!(rt; matches!(first.values(), [Value::Null, Value::Number(20)]));
    assert!(rt; matches!(second.values(), [Value::Words(_), Value::Null]));
    for (text, rows) in [
        ("table t a:text", 0),
        ("table t a:text\n\n", 1),
        ("table t a:text\n\r\n\n", 2),
    ] {
        let table = read_plain(alloc, text.as_bytes()).map_err(|_| "refused")?;
        assert_eq!(rt; table.rows.len(), rows, "at {text}");
    }
    Ok(())
}
