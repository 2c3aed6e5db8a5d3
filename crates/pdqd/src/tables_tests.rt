//! Questions on the tables of a schema file, from words and files to bytes and status.
use crate::run;
use crate::tests::stores_in_memory;
use pdq_edge::{MemFiles, MemSink, MemSource, NamedFile};
use std::alloc::Global;
use std::test::Fail;
use std::thread::Threads;

/// The most bytes that a run here writes.
const ROOM: usize = 10_000;

/// Two tables, of which the second has a file that is named otherwise than the table.
const SHOP: &str =
    "[[table]]\nname = \"pens\"\nfile = \"pens.csv\"\ncolumn = [{ name = \"name\", kind = \"text\" }, { name = \"maker\", kind = \"number\" }]\nround_robin = 2\n[[table]]\nname = \"makers\"\nfile = \"m.csv\"\ncolumn = [{ name = \"id\", kind = \"number\" }, { name = \"town\", kind = \"text\" }]\n";

const PENS: &str = "name,maker\nPen,1\nInk,2\n\"Quill, long\",1\n";

const MAKERS: &str = "ID,Town\n1,Ulm\n2,Bern\n";

fn named(alloc: Global, name: &str, text: &str) -> Result<NamedFile, Fail> {
    Ok(NamedFile {
        name: name.to_string(alloc)?,
        bytes: text.as_bytes().to_vec(alloc)?,
    })
}

/// Runs a command over these files, and answers what it wrote and its status. The source fails if it is read.
fn ask<R: Threads + Sync>(
    rt: &R,
    alloc: Global,
    words: &[&str],
    files: &[(&str, &str)],
    room: usize,
) -> Result<(MemSink, u8), Fail> {
    let mut given = Vec::new(alloc);
    for word in words {
        given.push(word.to_string(alloc)?)?;
    }
    let mut those = Vec::new(alloc);
    for (name, text) in files {
        those.push(named(alloc, name, text)?)?;
    }
    let mut stores = stores_in_memory(alloc)?;
    let mut files = MemFiles::new(those, Vec::new(alloc));
    let mut source = MemSource::with_most(Vec::new(alloc), vec![in alloc; 0]?, 1);
    let mut sink = MemSink::new(alloc, room, Vec::new(alloc)).map_err(|_| "memory")?;
    let status = run(
        rt,
        alloc,
        &given,
        &mut files,
        &mut source,
        &mut sink,
        &mut stores,
    );
    Ok((sink, status))
}

const SELECT: &str = "SELECT name FROM pens";

/// Schema files that are refused, each with its line.
#[test]
fn schema_faults(rt: HostRuntime) -> Result<(), Fail> {
    let alloc: Global = rt.alloc();
    let cases = [
        ("", "FAULT SCHEMA missing key TABLE 0 COLUMN 0\n"),
        ("[[table", "FAULT SCHEMA not toml TABLE 0 COLUMN 0\n"),
        (
            "[[table]]\nname = \"pens\"\nfile = \"pens.csv\"\n",
            "FAULT SCHEMA missing key TABLE 1 COLUMN 0\n",
        ),
        (
            "[[table]]\nname = \"a\"\nfile = \"a\"\ncolumn = [{ name = \"b\", kind = \"text\" }, { name = \"c\", kind = \"date\" }]\n",
            "FAULT SCHEMA bad kind TABLE 1 COLUMN 2\n",
        ),
    ];
    for (schema, output) in cases {
        let files = [("shop", schema)];
        let (sink, status) = ask(&rt, alloc, &["ask", SELECT, "shop"], &files, ROOM)?;
        assert_eq!(rt; status, 65, "of {schema}");
        assert_eq!(rt; sink.bytes(), output.as_bytes(), "of {schema}");
    }
    let (sink, status) = ask(&rt, alloc, &["ask", SELECT, "shop"], &[("shop", "")], 6)?;
    assert_eq!(rt; status, 74);
    assert_eq!(rt; sink.bytes(), b"FAULT ".as_slice());
    Ok(())
}

/// A file that is not there, the schema file or the first or second of its tables.
#[test]
fn missing_files(rt: HostRuntime) -> Result<(), Fail> {
    let alloc: Global = rt.alloc();
    let cases = [
        ("sho", "pens.csv"),
        ("", "pens.csv"),
        ("shop", "none"),
        ("shop", "m.csv"),
        ("shop", "pens.csv"),
    ];
    for (schema, table) in cases {
        let files = [("shop", SHOP), (table, PENS)];
        let (sink, status) = ask(&rt, alloc, &["ask", SELECT, schema], &files, ROOM)?;
        assert_eq!(rt; status, 66, "of {schema} with {table}");
        assert_eq!(rt; sink.bytes().len(), 0, "of {schema} with {table}");
    }
    Ok(())
}

#[test]
fn words_of_no_form(rt: HostRuntime) -> Result<(), Fail> {
    let alloc: Global = rt.alloc();
    let cases = [
        ("ask", SELECT, "-x"),
        ("ask", "-x", "shop"),
        ("Ask", SELECT, "shop"),
    ];
    for (word, select, schema) in cases {
        let files = [("shop", SHOP)];
        let (sink, status) = ask(&rt, alloc, &[word, select, schema], &files, ROOM)?;
        assert_eq!(rt; status, 64, "{word} {select} {schema}");
        assert_eq!(rt; sink.bytes().len(), 0, "{word} {select} {schema}");
    }
    Ok(())
}

/// Questions on the tables, each with what is written.
#[test]
fn tables(rt: HostRuntime) -> Result<(), Fail> {
    let alloc: Global = rt.alloc();
    let cases = [
        (
            "SELECT name FROM pens",
            0,
            "ROWS 3\nInk\nPen\nQuill, long\n",
        ),
        (
            "SELECT name, town FROM pens, makers WHERE maker = id ORDER BY 1 DESC",
            0,
            "ROWS 3\nQuill, long|Ulm\nPen|Ulm\nInk|Bern\n",
        ),
        (
            "SELECT town, SUM(maker) FROM pens, makers WHERE maker = id GROUP BY town",
            0,
            "ROWS 2\nBern|2\nUlm|2\n",
        ),
        ("SELECT x FROM pens", 65, "ERROR 3 unknown column AT 7\n"),
        ("SELECT name FROM", 65, "ERROR 1 bad line AT 16\n"),
    ];
    let files = [("shop", SHOP), ("pens.csv", PENS), ("m.csv", MAKERS)];
    for (select, status, output) in cases {
        let (sink, ended) = ask(&rt, alloc, &["ask", select, "shop"], &files, ROOM)?;
        assert_eq!(rt; ended, status, "of {select}");
        assert_eq!(rt; sink.bytes(), output.as_bytes(), "of {select}");
    }
    let select = "SELECT name FROM nothing";
    let faults = [
        (
            "name,maker\nPen\n",
            MAKERS,
            "FAULT DATA wrong fields TABLE 1 ROW 1 COLUMN 0\n",
        ),
        (
            PENS,
            "id,city\n",
            "FAULT DATA wrong header TABLE 2 ROW 0 COLUMN 2\n",
        ),
        (
            PENS,
            "id,town\nx,Ulm\n",
            "FAULT DATA bad number TABLE 2 ROW 1 COLUMN 1\n",
        ),
    ];
    for (pens, makers, output) in faults {
        let files = [("shop", SHOP), ("pens.csv", pens), ("m.csv", makers)];
        let (sink, ended) = ask(&rt, alloc, &["ask", select, "shop"], &files, ROOM)?;
        assert_eq!(rt; ended, 65);
        assert_eq!(rt; sink.bytes(), output.as_bytes());
    }
    Ok(())
}
