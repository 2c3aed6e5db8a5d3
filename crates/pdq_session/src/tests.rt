//! Worked examples: what scripts print.

ghost use Rattle.std.specs.Prelude.{◌≡◌, IfOk, length};

use crate::{ScriptEnd, script_in};
use pdq_edge::{SureSink, SureSource, SureSpill};
use pdq_frame::Pool;
use pdq_gate::{Config, Manager};
use pdq_schema::read_schema;
use pdq_table::{Stored, load};
use std::alloc::{AllocError, Global};
use std::test::Fail;
use std::thread::Threads;

// Stores in memory, as many as a script uses.
fn stores(alloc: Global) -> Result<Vec<SureSpill>, AllocError>
    ensures count { IfOk result (λ stores. length stores.items ≡ 48) }
{
    let mut stores = Vec::with_capacity(alloc, 48)?;
    'stores: for _ in 0..48_usize {
        stores.push(SureSpill::new(alloc))?;
    }
    Ok(stores)
}

// The one table of a schema, with the rows of this file.
fn table(alloc: Global, schema: &str, file: &str) -> Result<Stored, Fail> {
    let Ok(schema) = read_schema(alloc, schema.as_bytes()) else {
        return Err(Fail::from("a schema"));
    };
    if schema.shapes().len() != 1 {
        return Err(Fail::from("one table"));
    }
    let files = vec![in alloc; Vec::from_slice(alloc, file.as_bytes())?]?;
    match load(alloc, &schema, files) {
        Ok(stored) => Ok(stored),
        Err(_) => Err(Fail::from("rows")),
    }
}

// What a script of these lines writes, and how it ends, with 4,000 KB, 10 queries and 10 scan threads.
fn transcript<R: Threads + Sync>(
    rt: &R,
    alloc: Global,
    stored: Option<&Stored>,
    lines: &str,
) -> Result<(String, ScriptEnd), Fail> {
    let config = Config::check(100, 4000, 10, 10, 128).ok_or("a valid configuration")?;
    let mut source = SureSource::new(Vec::from_slice(alloc, lines.as_bytes())?);
    let mut sink = SureSink::new(alloc);
    let mut stores = stores(alloc)?;
    let pool = Pool::new(alloc, config.frames_per_quantum(), config.max_queries())?;
    let Ok(mut manager) = Manager::new(alloc, config, pool) else {
        return Err(Fail::from("memory"));
    };
    let end = script_in(
        rt,
        alloc,
        stored,
        &mut manager,
        100,
        &mut source,
        &mut sink,
        &mut stores,
    );
    drop(manager.end());
    let text = String::from_utf8_lossy(alloc, sink.bytes())?;
    Ok((text, end))
}

#[test]
fn queries_run(rt: HostRuntime) -> Result<(), Fail> {
    let schema =
        "[[table]]\nname = 't'\nfile = 't.csv'\ncolumn = [{ name = 'name', kind = 'text' }, { name = 'price', kind = 'number', scale = 2 }]\n";
    let stored = table(
        rt.alloc(),
        schema,
        "name,price\nPen,1.50\nInk,12\nCap,0.99\n",
    )?;
    let lines =
        "QUERY SELECT price, name FROM t WHERE price > 1.00\nRUN 1\nRUN 1\nCLAIM 50 1\nRUN 2\nCANCEL 2\nDONE 2\nQUERY SELECT x FROM t\n";
    let (text, end) = transcript(&rt, rt.alloc(), Some(&stored), lines)?;
    assert_eq!(rt;
        text.as_str(),
        "SESSION 1 ADMIN STEP 1\nQUERY 1 STEP 2 PRIORITY 100 GATE 0\nADMIT 1 QUANTA 10 SCANS 1\nROWS 2\n1.50|Pen\n12.00|Ink\nDONE 1 STEP 4\nERROR 13 no such query AT STEP 4\nQUERY 2 STEP 5 PRIORITY 50 GATE 0\nADMIT 2 QUANTA 5 SCANS 1\nERROR 22 not now AT STEP 5\nFLAGGED 2 STEP 6\nSTOPPED 2 STEP 8 BY STEP 6\nERROR 3 unknown column AT 13\n"
    );
    assert_eq!(rt; end, ScriptEnd::BadScript);
    Ok(())
}

#[test]
fn scripts_print(rt: HostRuntime) -> Result<(), Fail> {
    const END: ScriptEnd = ScriptEnd::End {
        store_failed: false,
    };
    for (lines, end, want) in [
        ("", END, "END STEP 1 RESERVED 0 SCANS 0 WAITING 0\n"),
        (
            "CLAIM 50 4",
            END,
            "QUERY 1 STEP 2 PRIORITY 50 GATE 0\nADMIT 1 QUANTA 5 SCANS 4\nEND STEP 2 RESERVED 5 SCANS 4 WAITING 0\n",
        ),
        (
            "CLAIM 100 1\r\nCLAIM 50 1\r\nCLAIM 40 1\r\ndone 1\r\n",
            END,
            "QUERY 1 STEP 2 PRIORITY 100 GATE 0\nADMIT 1 QUANTA 10 SCANS 1\nQUERY 2 STEP 3 PRIORITY 50 GATE 1\nQUERY 3 STEP 4 PRIORITY 40 GATE 3\nDONE 1 STEP 6\nADMIT 2 QUANTA 5 SCANS 1\nADMIT 3 QUANTA 4 SCANS 1\nEND STEP 6 RESERVED 9 SCANS 2 WAITING 0\n",
        ),
        (
            "# nothing\n\n \t\n\tCLAIM\t0  4\nCLAIM 007 1\nCLAIM 100 1\nDONE 3\nDONE 4\nDONE 9999999999\n CLAIM 1 1 x\n",
            ScriptEnd::BadScript,
            "QUERY 1 STEP 2 PRIORITY 0 GATE 0\nADMIT 1 QUANTA 1 SCANS 1\nQUERY 2 STEP 3 PRIORITY 7 GATE 0\nADMIT 2 QUANTA 1 SCANS 1\nQUERY 3 STEP 4 PRIORITY 100 GATE 1\nERROR 22 not now AT STEP 4\nERROR 13 no such query AT STEP 4\nERROR 13 no such query AT STEP 4\nERROR 1 bad line AT 11\n",
        ),
        (
            "SET PDQPRIORITY LOW\nset pdqpriority 101\nOPEN USER\nCLAIM 50 1\nUSE 1\nCANCEL 1\nUSE 9\nCLOSE 2\nCLOSE 9\nDONE 1\nUSE 2\nONMODE -D 5\nRUN 1\nDONE 1\nUSE 1\nCLOSE 2\nCLAIM 101 1\n",
            END,
            "PRIORITY 1\nERROR 24 out of range\nSESSION 2 USER STEP 2\nQUERY 1 STEP 3 PRIORITY 50 GATE 0\nADMIT 1 QUANTA 5 SCANS 1\nSESSION 1\nFLAGGED 1 STEP 4\nERROR 21 no such session\nERROR 22 not now AT STEP 4\nERROR 21 no such session\nERROR 12 not allowed AT STEP 4\nSESSION 2\nERROR 12 not allowed AT STEP 4\nERROR 22 not now AT STEP 4\nSTOPPED 1 STEP 6 BY STEP 4\nSESSION 1\nCLOSED 2 STEP 7\nERROR 24 out of range\nEND STEP 7 RESERVED 0 SCANS 0 WAITING 0\n",
        ),
        (
            "ONMODE -M 8000\nCLAIM 100 1\nONMODE -Q 5\nCLAIM 20 1\nCANCEL 2\nDONE 2\nONMODE -N 256\nDONE 1\nONMODE -Q 0\nQUERY SELECT a FROM t\n",
            ScriptEnd::BadScript,
            "CHANGED STEP 2\nQUERY 1 STEP 3 PRIORITY 100 GATE 0\nADMIT 1 QUANTA 10 SCANS 1\nPENDING STEP 4\nQUERY 2 STEP 5 PRIORITY 20 GATE 5\nWITHDRAWN 2 STEP 6\nCANCELLED 2 STEP 7 BY STEP 6\nCHANGED STEP 8\nDONE 1 STEP 10\nERROR 14 bad value AT STEP 10\nERROR 2 unknown table AT 20\n",
        ),
    ] {
        let (text, ended) = transcript(&rt, rt.alloc(), None, lines)?;
        let rest = text.as_str().strip_prefix("SESSION 1 ADMIN STEP 1\n");
        assert_eq!(rt; rest, Some(want), "of {lines}");
        assert_eq!(rt; ended, end, "of {lines}");
    }
    Ok(())
}
