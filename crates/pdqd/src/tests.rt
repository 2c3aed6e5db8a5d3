//! The worked examples, from words and bytes to bytes and status.
ghost use Rattle.std.specs.Prelude.{◌≡◌, IfOk, vec_len};

use crate::{STORES, run};
use pdq_edge::{MemSink, MemSource, SureFiles, SureSpill};
use std::alloc::{AllocError, Global};
use std::test::Fail;
use std::thread::Threads;

const USUAL: &str = "script 4000 10 10 100 0";

/// The most bytes that a run here writes.
const ROOM: usize = 200_000;

/// The stores that a run is handed, in memory.
pub(crate) fn stores_in_memory(alloc: Global) -> Result<Vec<SureSpill>, AllocError>
    ensures count { IfOk result (λ stores. vec_len stores ≡ 48) }
{
    let mut stores = Vec::with_capacity(alloc, STORES)?;
    for _ in 0..STORES {
        stores.push(SureSpill::new(alloc))?;
    }
    Ok(stores)
}

/// A run over memory: what it wrote, and its status.
#[derive(Drop)]
struct Ran {
    sink: MemSink,
    status: u8,
}

fn run_over<R: Threads + Sync>(
    rt: &R,
    alloc: Global,
    words: &str,
    bytes: Vec<u8>,
    most: usize,
    read_fails: &[u64],
    room: usize,
) -> Result<Ran, Fail> {
    let mut given = Vec::new(alloc);
    for word in words.split(' ') {
        given.push(word.to_string(alloc)?)?;
    }
    run_words(rt, alloc, given, bytes, most, read_fails, room)
}

fn ask_over<R: Threads + Sync>(
    rt: &R,
    alloc: Global,
    select: &str,
    table: &str,
    room: usize,
) -> Result<Ran, Fail> {
    let mut given = Vec::new(alloc);
    given.push("ask".to_string(alloc)?)?;
    given.push(select.to_string(alloc)?)?;
    let bytes = table.as_bytes().to_vec(alloc)?;
    run_words(rt, alloc, given, bytes, 7, &[], room)
}

fn run_words<R: Threads + Sync>(
    rt: &R,
    alloc: Global,
    given: Vec<String>,
    bytes: Vec<u8>,
    most: usize,
    read_fails: &[u64],
    room: usize,
) -> Result<Ran, Fail> {
    let mut stores = stores_in_memory(alloc)?;
    let mut files = SureFiles::new(Vec::new(alloc));
    let mut source = MemSource::with_most(bytes, read_fails.to_vec(alloc)?, most.max(1));
    let mut sink = MemSink::new(alloc, room, Vec::new(alloc)).map_err(|_| "memory")?;
    let status = run(
        rt,
        alloc,
        &given,
        &mut files,
        &mut source,
        &mut sink,
        &mut stores,
    );
    Ok(Ran { sink, status })
}

#[test]
fn worked_examples(rt: HostRuntime) -> Result<(), Fail> {
    let alloc: Global = rt.alloc();
    let cases = [
        (
            "one_grant",
            USUAL,
            "CLAIM 50 4\n",
            "SESSION 1 ADMIN STEP 1\nQUERY 1 STEP 2 PRIORITY 50 GATE 0\nADMIT 1 QUANTA 5 SCANS 4\nEND STEP 2 RESERVED 5 SCANS 4 WAITING 0\n",
        ),
        (
            "second_waits_for_memory",
            USUAL,
            "CLAIM 100 1\nCLAIM 1 1",
            "SESSION 1 ADMIN STEP 1\nQUERY 1 STEP 2 PRIORITY 100 GATE 0\nADMIT 1 QUANTA 10 SCANS 1\nQUERY 2 STEP 3 PRIORITY 1 GATE 1\nEND STEP 3 RESERVED 10 SCANS 1 WAITING 1\n",
        ),
        (
            "quantum_rounds_down",
            "script 10000 7 10 100 0",
            "CLAIM 50 1\r\n",
            "SESSION 1 ADMIN STEP 1\nQUERY 1 STEP 2 PRIORITY 50 GATE 0\nADMIT 1 QUANTA 3 SCANS 1\nEND STEP 2 RESERVED 3 SCANS 1 WAITING 0\n",
        ),
        (
            "smallest_shares",
            "script 65536 16 1048576 100 0",
            "claim 25 8\n\tCLAIM  3 2 \nCLAIM 000 4\n",
            "SESSION 1 ADMIN STEP 1\nQUERY 1 STEP 2 PRIORITY 25 GATE 0\nADMIT 1 QUANTA 4 SCANS 8\nQUERY 2 STEP 3 PRIORITY 3 GATE 0\nADMIT 2 QUANTA 1 SCANS 2\nQUERY 3 STEP 4 PRIORITY 0 GATE 0\nADMIT 3 QUANTA 1 SCANS 1\nEND STEP 4 RESERVED 6 SCANS 11 WAITING 0\n",
        ),
        (
            "head_blocks_those_behind",
            USUAL,
            "CLAIM 60 1\nCLAIM 50 1\nCLAIM 10 1\n",
            "SESSION 1 ADMIN STEP 1\nQUERY 1 STEP 2 PRIORITY 60 GATE 0\nADMIT 1 QUANTA 6 SCANS 1\nQUERY 2 STEP 3 PRIORITY 50 GATE 1\nQUERY 3 STEP 4 PRIORITY 10 GATE 3\nEND STEP 4 RESERVED 6 SCANS 1 WAITING 2\n",
        ),
        (
            "one_completion_admits_two",
            USUAL,
            "CLAIM 100 1\nCLAIM 50 1\n# done\nCLAIM 40 1\nDONE 1\n",
            "SESSION 1 ADMIN STEP 1\nQUERY 1 STEP 2 PRIORITY 100 GATE 0\nADMIT 1 QUANTA 10 SCANS 1\nQUERY 2 STEP 3 PRIORITY 50 GATE 1\nQUERY 3 STEP 4 PRIORITY 40 GATE 3\nDONE 1 STEP 6\nADMIT 2 QUANTA 5 SCANS 1\nADMIT 3 QUANTA 4 SCANS 1\nEND STEP 6 RESERVED 9 SCANS 2 WAITING 0\n",
        ),
        (
            "done_of_a_waiting_query_and_of_none",
            USUAL,
            "CLAIM 100 1\nCLAIM 50 1\nDONE 2\nDONE 9\n",
            "SESSION 1 ADMIN STEP 1\nQUERY 1 STEP 2 PRIORITY 100 GATE 0\nADMIT 1 QUANTA 10 SCANS 1\nQUERY 2 STEP 3 PRIORITY 50 GATE 1\nERROR 22 not now AT STEP 3\nERROR 13 no such query AT STEP 3\nEND STEP 3 RESERVED 10 SCANS 1 WAITING 1\n",
        ),
        (
            "no_line",
            USUAL,
            "",
            "SESSION 1 ADMIN STEP 1\nEND STEP 1 RESERVED 0 SCANS 0 WAITING 0\n",
        ),
        (
            "one_sale",
            "make 1",
            "",
            "MAKE 1\nQUERY 1 ROWS 1\n0|0.00|0.0000\n0|0.00|0.0000\nQUERY 2 ROWS 1\nc0|0.00\nc0|0.00\nQUERY 3 ROWS 0\nEND STEP 10 RESERVED 0\n",
        ),
    ];
    for (name, words, input, output) in cases {
        let bytes = input.as_bytes().to_vec(alloc)?;
        let ran = run_over(&rt, alloc, words, bytes, 4096, &[], ROOM)?;
        assert_eq!(rt; ran.status, 0, "{name}");
        assert_eq!(rt; ran.sink.bytes(), output.as_bytes(), "{name}");
    }
    Ok(())
}

#[test]
fn refusals(rt: HostRuntime) -> Result<(), Fail> {
    let alloc: Global = rt.alloc();
    let refused = b"CLAIM 50 4\nCLAIM 50 17\nCLAIM 1 1 1\nCLAIM 1 1\n".to_vec(alloc)?;
    let ran = run_over(&rt, alloc, USUAL, refused, 4096, &[], ROOM)?;
    let output =
        "SESSION 1 ADMIN STEP 1\nQUERY 1 STEP 2 PRIORITY 50 GATE 0\nADMIT 1 QUANTA 5 SCANS 4\nERROR 24 out of range\nERROR 1 bad line AT 10\n";
    assert_eq!(rt; ran.status, 65);
    assert_eq!(rt; ran.sink.bytes(), output.as_bytes());

    let no_form = [
        "script 1000 10 10 100 0",
        "script 4000 10 10 101 0",
        "script 4000 10 10 100 101",
        "script 04000 10 10 100 0",
        "SCRIPT 4000 10 10 100 0",
        "script 4000 10 10 100",
        "script 4000 10 10 100 0 -x",
        "script 4000 10 10 100 101 shop",
        "script 4000 10 10 100 0 shop shop",
        "--help",
        "make 0",
        "make 1000001",
    ];
    for words in no_form {
        let bytes = b"CLAIM 50 4\n".to_vec(alloc)?;
        let ran = run_over(&rt, alloc, words, bytes, 4096, &[], ROOM)?;
        assert_eq!(rt; ran.status, 64, "{words}");
        assert_eq!(rt; ran.sink.bytes().len(), 0, "{words}");
    }
    Ok(())
}

/// No clause rules out a run that always answers want of memory.
#[test]
fn memory_is_not_given_up_on(rt: HostRuntime) -> Result<(), Fail> {
    let alloc: Global = rt.alloc();
    let bytes = b"CLAIM 50 4\n".to_vec(alloc)?;
    let ran = run_over(&rt, alloc, USUAL, bytes, 4096, &[], ROOM)?;
    assert_eq!(rt; ran.status, 0);
    Ok(())
}

#[test]
fn limits(rt: HostRuntime) -> Result<(), Fail> {
    let alloc: Global = rt.alloc();
    let mut queue = Vec::new(alloc);
    for _ in 0..1026 {
        queue.extend_from_slice(b"CLAIM 100 1\n")?;
    }
    let ran_queue = run_over(&rt, alloc, "script 128 1 1 100 0", queue, 7, &[], ROOM)?;
    assert_eq!(rt; ran_queue.status, 0);
    let end = b"ERROR 10 queue full AT STEP 1026\nEND STEP 1026 RESERVED 1 SCANS 1 WAITING 1024\n";
    assert!(rt; ran_queue.sink.bytes().ends_with(end));

    for (length, status) in [(8192, 0), (8193, 65)] {
        let mut line = vec![in alloc; b'#'; length]?;
        line.push(b'\n')?;
        let ran_line = run_over(&rt, alloc, USUAL, line, 1000, &[], ROOM)?;
        assert_eq!(rt; ran_line.status, status, "of a line of {length} bytes");
    }
    Ok(())
}

/// A fault cuts the output short, and what was written begins the whole.
#[test]
fn faults(rt: HostRuntime) -> Result<(), Fail> {
    let alloc: Global = rt.alloc();
    let input = b"CLAIM 100 1\nCLAIM 50 1\nDONE 1\n";
    let whole = run_over(&rt, alloc, USUAL, input.to_vec(alloc)?, 5, &[], ROOM)?;
    assert_eq!(rt; whole.status, 0);
    for call in [0, 3, 6] {
        let cut = run_over(&rt, alloc, USUAL, input.to_vec(alloc)?, 5, &[call], ROOM)?;
        assert_eq!(rt; cut.status, 66, "at read {call}");
        assert!(rt;
            whole.sink.bytes().starts_with(cut.sink.bytes()),
            "at read {call}"
        );
    }
    for room in [0, 1, 40, 100] {
        let cut = run_over(&rt, alloc, USUAL, input.to_vec(alloc)?, 5, &[], room)?;
        assert_eq!(rt; cut.status, 74, "with room {room}");
        assert_eq!(rt; cut.sink.bytes().len(), room);
        assert!(rt;
            whole.sink.bytes().starts_with(cut.sink.bytes()),
            "with room {room}"
        );
    }
    Ok(())
}

const PENS: &str = "table t name:text price:number:2\nPen|1.50\nInk|12.00\nPen|1.50\n";

#[test]
fn questions(rt: HostRuntime) -> Result<(), Fail> {
    let alloc: Global = rt.alloc();
    let cases = [
        (
            "SELECT price, name FROM t WHERE price < 5 ORDER BY 1 DESC",
            PENS,
            0,
            "ROWS 2\n1.50|Pen\n1.50|Pen\n",
        ),
        (
            "SELECT name, COUNT(*), SUM(price), AVG(price), MIN(price), MAX(price) FROM t GROUP BY name ORDER BY 3 DESC",
            PENS,
            0,
            "ROWS 2\nInk|1|12.00|12.0000|12.00|12.00\nPen|2|3.00|1.5000|1.50|1.50\n",
        ),
        (
            "SELECT COUNT(*), SUM(price), MIN(name) FROM t WHERE name > 'Z'",
            PENS,
            0,
            "ROWS 1\n0|\\N|\\N\n",
        ),
        (
            "SELECT t.name FROM t WHERE name <> 'Pen' AND name = name",
            PENS,
            0,
            "ROWS 1\nInk\n",
        ),
        ("SELECT x FROM t", PENS, 65, "ERROR 3 unknown column AT 7\n"),
        (
            "SELECT name FROM t WHERE price = 1.505",
            PENS,
            65,
            "ERROR 5 kinds differ AT 25\n",
        ),
        (
            "SELECT name FROM t WHERE",
            PENS,
            65,
            "ERROR 1 bad line AT 24\n",
        ),
        (
            "SELECT name, price FROM t GROUP BY name",
            PENS,
            65,
            "ERROR 7 column not grouped AT 13\n",
        ),
        ("SELECT a FROM t", "table t a:text", 0, "ROWS 0\n"),
        ("SELECT a FROM t", "table t a:text\n\n", 0, "ROWS 1\n\n"),
        (
            "SELECT a FROM",
            "table t a",
            65,
            "FAULT DATA wrong header TABLE 1 ROW 0 COLUMN 0\n",
        ),
        (
            "SELECT a FROM t",
            "table t a:number:1\n1.0\n1.25\n",
            65,
            "FAULT DATA bad number TABLE 1 ROW 2 COLUMN 1\n",
        ),
    ];
    for (select, table, status, output) in cases {
        let ran = ask_over(&rt, alloc, select, table, ROOM)?;
        assert_eq!(rt; ran.status, status, "{select}");
        assert_eq!(rt; ran.sink.bytes(), output.as_bytes(), "{select}");
    }
    let cut = ask_over(&rt, alloc, "SELECT name FROM t", PENS, 9)?;
    assert_eq!(rt; cut.status, 74);
    assert_eq!(rt; cut.sink.bytes(), b"ROWS 3\nIn".as_slice());
    let option = ask_over(&rt, alloc, "-SELECT", PENS, ROOM)?;
    assert_eq!(rt; option.status, 64);
    Ok(())
}
