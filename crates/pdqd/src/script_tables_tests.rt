//! Scripts over the tables of a schema file, from words, files and lines to bytes and status.
ghost use Rattle.std.specs.Prelude.{◌≡◌, IfOk, vec_len};

use crate::tests::stores_in_memory;
use crate::{STORES, run};
use pdq_edge::{MemFiles, MemSink, MemSource, MemSpill, NamedFile, Spill};
use std::alloc::{AllocError, Global};
use std::test::Fail;
use std::thread::Threads;

/// The most bytes that a run here writes.
const ROOM: usize = 10_000;

/// A table in two fragments, and one in ranges of its number.
const SHOP: &str =
    "[[table]]\nname = \"pens\"\nfile = \"pens.csv\"\ncolumn = [{ name = \"name\", kind = \"text\" }, { name = \"maker\", kind = \"number\" }]\nround_robin = 2\n[[table]]\nname = \"makers\"\nfile = \"m.csv\"\ncolumn = [{ name = \"id\", kind = \"number\" }, { name = \"town\", kind = \"text\" }]\nby = \"id\"\nrange = [{ below = \"2\" }, { from = \"2\", below = \"3\" }]\n";

const PENS: &str = "name,maker\nPen,1\nInk,2\n\"Quill, long\",1\n";

const MAKERS: &str = "ID,Town\n1,Ulm\n2,Bern\n3,Graz\n";

/// Two tables that are joined by their one column.
const PAIR: &str =
    "[[table]]\nname = \"a\"\nfile = \"k.csv\"\ncolumn = [{ name = \"k\", kind = \"number\" }]\n[[table]]\nname = \"b\"\nfile = \"k.csv\"\ncolumn = [{ name = \"k\", kind = \"number\" }]\n";

const USUAL: &str = "script 4000 10 10 100 50 shop";

/// A grant of one quantum of 128 KB.
const SMALL: &str = "script 128 1 16 100 100 pair";

/// The numbers of so many lines.
const MANY: u32 = 20_000;

/// The stores that a run is handed, of which each fails at its first call.
fn failing_stores(alloc: Global) -> Result<Vec<MemSpill>, AllocError>
    ensures count { IfOk result (λ stores. vec_len stores ≡ 48) }
{
    let mut stores = Vec::with_capacity(alloc, STORES)?;
    for _ in 0..STORES {
        let fails = vec![in alloc; 0]?;
        stores.push(MemSpill::new(alloc, fails))?;
    }
    Ok(stores)
}

fn named(alloc: Global, name: &str, text: &str) -> Result<NamedFile, Fail> {
    Ok(NamedFile {
        name: name.to_string(alloc)?,
        bytes: text.as_bytes().to_vec(alloc)?,
    })
}

/// Runs a script over these files, and answers what it wrote and its status.
fn run_over<R: Threads + Sync, Sp: Spill + Send>(
    rt: &R,
    alloc: Global,
    words: &str,
    lines: &str,
    files: &[(&str, &str)],
    stores: &mut Vec<Sp>,
) -> Result<(MemSink, u8), Fail>
    requires stores { vec_len stores.old ≡ 48 }
{
    let mut given = Vec::new(alloc);
    for word in words.split(' ') {
        given.push(word.to_string(alloc)?)?;
    }
    let mut those = Vec::new(alloc);
    for (name, text) in files {
        those.push(named(alloc, name, text)?)?;
    }
    let mut files = MemFiles::new(those, Vec::new(alloc));
    let bytes = lines.as_bytes().to_vec(alloc)?;
    let mut source = MemSource::with_most(bytes, Vec::new(alloc), 7);
    let mut sink = MemSink::new(alloc, ROOM, Vec::new(alloc)).map_err(|_| "memory")?;
    let status = run(
        rt,
        alloc,
        &given,
        &mut files,
        &mut source,
        &mut sink,
        stores,
    );
    Ok((sink, status))
}

/// Scripts with queries, each with what is written and its status.
#[test]
fn queries(rt: HostRuntime) -> Result<(), Fail> {
    let alloc: Global = rt.alloc();
    let cases = [
        (
            "QUERY SELECT name FROM pens\nRUN 1\nRUN 1\n",
            0,
            "SESSION 1 ADMIN STEP 1\nQUERY 1 STEP 2 PRIORITY 50 GATE 0\nADMIT 1 QUANTA 5 SCANS 2\nROWS 3\nInk\nPen\nQuill, long\nDONE 1 STEP 4\nERROR 13 no such query AT STEP 4\nEND STEP 4 RESERVED 0 SCANS 0 WAITING 0\n",
        ),
        (
            "query select name, town from pens, makers where maker = id order by 1\nCLAIM 60 1\nRUN 2\nRUN 1\nRUN 2",
            0,
            "SESSION 1 ADMIN STEP 1\nQUERY 1 STEP 2 PRIORITY 50 GATE 0\nADMIT 1 QUANTA 5 SCANS 3\nQUERY 2 STEP 3 PRIORITY 60 GATE 1\nERROR 22 not now AT STEP 3\nROWS 3\nInk|Bern\nPen|Ulm\nQuill, long|Ulm\nDONE 1 STEP 5\nADMIT 2 QUANTA 6 SCANS 1\nERROR 22 not now AT STEP 5\nEND STEP 5 RESERVED 6 SCANS 1 WAITING 0\n",
        ),
        (
            "QUERY SELECT town FROM makers WHERE id = 3\nCANCEL 1\nRUN 1\nQUERY SELECT x FROM pens\nRUN 1\n",
            65,
            "SESSION 1 ADMIN STEP 1\nQUERY 1 STEP 2 PRIORITY 50 GATE 0\nADMIT 1 QUANTA 5 SCANS 1\nFLAGGED 1 STEP 3\nSTOPPED 1 STEP 5 BY STEP 3\nERROR 3 unknown column AT 13\n",
        ),
    ];
    let files = [("shop", SHOP), ("pens.csv", PENS), ("m.csv", MAKERS)];
    for (lines, status, output) in cases {
        let mut stores = stores_in_memory(alloc)?;
        let (sink, ended) = run_over(&rt, alloc, USUAL, lines, &files, &mut stores)?;
        assert_eq!(rt; sink.bytes(), output.as_bytes(), "of {lines}");
        assert_eq!(rt; ended, status, "of {lines}");
    }
    Ok(())
}

/// Tables that are refused, and files that are not there: no line is answered.
#[test]
fn refused_tables(rt: HostRuntime) -> Result<(), Fail> {
    let alloc: Global = rt.alloc();
    let cases = [
        ("", PENS, 65, "FAULT SCHEMA missing key TABLE 0 COLUMN 0\n"),
        (
            SHOP,
            "name,maker\nPen\n",
            65,
            "FAULT DATA wrong fields TABLE 1 ROW 1 COLUMN 0\n",
        ),
        (SHOP, PENS, 66, ""),
    ];
    for (schema, pens, status, output) in cases {
        let makers = if status == 66 { "none" } else { "m.csv" };
        let files = [("shop", schema), ("pens.csv", pens), (makers, MAKERS)];
        let mut stores = stores_in_memory(alloc)?;
        let (sink, ended) = run_over(&rt, alloc, USUAL, "CLAIM 1 1\n", &files, &mut stores)?;
        assert_eq!(rt; sink.bytes(), output.as_bytes());
        assert_eq!(rt; ended, status);
    }
    Ok(())
}

/// The lines of a file of many numbers.
fn many_numbers(alloc: Global) -> Result<String, Fail> {
    let mut text = String::from_str(alloc, "k\n")?;
    for number in 0..MANY {
        write!(text, "{number}\n")?;
    }
    Ok(text)
}

/// A query whose grant is too small for it, over stores that hold its blocks and over stores that fail.
#[test]
fn overflowing_query(rt: HostRuntime) -> Result<(), Fail> {
    let alloc: Global = rt.alloc();
    let numbers = many_numbers(alloc)?;
    let files = [("pair", PAIR), ("k.csv", numbers.as_str())];
    let lines = "QUERY SELECT SUM(a.k) FROM a, b WHERE a.k = b.k\nRUN 1\nSET PDQPRIORITY 7\n";
    let mut kept = stores_in_memory(alloc)?;
    let (sink, status) = run_over(&rt, alloc, SMALL, lines, &files, &mut kept)?;
    let answered =
        "SESSION 1 ADMIN STEP 1\nQUERY 1 STEP 2 PRIORITY 100 GATE 0\nADMIT 1 QUANTA 1 SCANS 1\nROWS 1\n199990000\nDONE 1 STEP 4\nPRIORITY 7\nEND STEP 4 RESERVED 0 SCANS 0 WAITING 0\n";
    assert_eq!(rt; sink.bytes(), answered.as_bytes());
    assert_eq!(rt; status, 0);
    let mut stores = failing_stores(alloc)?;
    let (sink, status) = run_over(&rt, alloc, SMALL, lines, &files, &mut stores)?;
    let failed =
        "SESSION 1 ADMIN STEP 1\nQUERY 1 STEP 2 PRIORITY 100 GATE 0\nADMIT 1 QUANTA 1 SCANS 1\nERROR 16 overflow store failed\nFAILED 1 STEP 4\nPRIORITY 7\nEND STEP 4 RESERVED 0 SCANS 0 WAITING 0\n";
    assert_eq!(rt; sink.bytes(), failed.as_bytes());
    assert_eq!(rt; status, 70);
    Ok(())
}
