//! The answers of queries within grants of many sizes, beside those of the plain evaluator.
ghost use Rattle.std.specs.Prelude.{◌≤◌, ◌*◌, length};
ghost use Rattle.pdq_query.specs.Fits.{Fits};
ghost use Rattle.pdq_query.specs.Queries.{query_of};
ghost use Rattle.pdq_table.specs.Storing.{shapes_of};
ghost use Rattle.pdq_value.specs.Tables.{IsDatabase, tables_of};

use crate::tests::stores_in_memory;
use pdq_answer::{add_evaluated, evaluate};
use pdq_edge::NeverStop;
use pdq_frame::Pool;
use pdq_mean::{SerialFault, serial};
use pdq_query::Query;
use pdq_reply::{add_answer, add_too_many_rows};
use pdq_schema::read_schema;
use pdq_sql::{read_select, resolve};
use pdq_table::{Stored, load};
use pdq_value::Db;
use std::alloc::Global;
use std::process::Abort;
use std::test::Fail;
use std::thread::Threads;

/// Four tables with two keys, a text and a number each, cut in each of the ways.
const TABLES: &str =
    "[[table]]\nname = \"a\"\nfile = \"a\"\ncolumn = [{ name = \"k\", kind = \"number\" }, { name = \"l\", kind = \"number\" }, { name = \"t\", kind = \"text\" }, { name = \"n\", kind = \"number\", scale = 2 }]\nround_robin = 3\n[[table]]\nname = \"b\"\nfile = \"b\"\ncolumn = [{ name = \"k\", kind = \"number\" }, { name = \"l\", kind = \"number\" }, { name = \"t\", kind = \"text\" }, { name = \"n\", kind = \"number\", scale = 2 }]\nby = \"k\"\nrange = [{ below = \"3\" }, { from = \"3\", below = \"6\" }]\n[[table]]\nname = \"c\"\nfile = \"c\"\ncolumn = [{ name = \"k\", kind = \"number\" }, { name = \"l\", kind = \"number\" }, { name = \"t\", kind = \"text\" }, { name = \"n\", kind = \"number\", scale = 2 }]\n[[table]]\nname = \"d\"\nfile = \"d\"\ncolumn = [{ name = \"k\", kind = \"number\" }, { name = \"l\", kind = \"number\" }, { name = \"t\", kind = \"text\" }, { name = \"n\", kind = \"number\", scale = 2 }]\nround_robin = 16\n";

/// How many tables there are.
const COUNT: u32 = 4;

/// Selects over one table.
const OF_ONE: [&str; 8] = [
    "SELECT k, l, t, n FROM a",
    "SELECT t, k FROM a WHERE k >= 2 AND n < 5.00 ORDER BY 1 DESC, 2",
    "SELECT n, n FROM b WHERE t = 'x1'",
    "SELECT t FROM b WHERE k = 4",
    "SELECT COUNT(*), SUM(n), AVG(n), MIN(n), MAX(n), MIN(t), MAX(t) FROM a",
    "SELECT COUNT(*), SUM(n), AVG(n) FROM c WHERE k < 0",
    "SELECT t, COUNT(*), SUM(n), AVG(k), MIN(l), MAX(t) FROM a GROUP BY t ORDER BY 2 DESC",
    "SELECT k, l, MAX(n) FROM d WHERE n > 1.00 GROUP BY k, l",
];

/// Selects over two tables and more.
const OF_MORE: [&str; 8] = [
    "SELECT a.t, b.t FROM a, b WHERE a.k = b.k",
    "SELECT a.n, b.n FROM a, b WHERE a.t = b.t AND a.l = b.l AND a.k > 2",
    "SELECT a.t, SUM(b.n) FROM a, b WHERE a.k = b.k GROUP BY a.t",
    "SELECT SUM(a.n), AVG(b.n), MIN(b.t) FROM a, b WHERE a.k = b.l",
    "SELECT a.k, b.k, c.t FROM a, b, c WHERE a.k = b.k AND b.l = c.l",
    "SELECT c.t, MAX(a.n), SUM(b.n) FROM c, a, b WHERE a.k = b.k AND b.l = c.l GROUP BY c.t ORDER BY 2 DESC",
    "SELECT a.n, d.n FROM a, b, c, d WHERE a.k = b.k AND b.l = c.l AND c.k = d.k AND a.n < 3.00 AND d.l = 1",
    "SELECT d.t, b.t, SUM(a.n), MIN(c.n) FROM d, c, b, a WHERE a.k = b.k AND b.l = c.l AND c.k = d.k GROUP BY d.t, b.t",
];

/// Frames, scan threads and partition owners, of which each needs two frames.
const GRANTS: [(u32, u32, u32); 6] = [
    (2, 1, 1),
    (32, 1, 1),
    (8, 3, 4),
    (400, 4, 3),
    (32, 16, 16),
    (512, 16, 16),
];

/// Adds the field of a number, which is missing for one in nine.
fn add_number(out: &mut String, number: u32, most: u32) -> Result<(), Fail>
    requires most { 1 ≤ most }
{
    if number % 9 != 0 {
        let field = number % most;
        write!(out, "{field}")?;
    }
    Ok(())
}

/// Adds the field of a text, which is missing for one in eleven.
fn add_text(out: &mut String, number: u32) -> Result<(), Fail> {
    if number % 11 == 0 {
        out.push_str("\\N")?;
    } else {
        let field = number % 4;
        write!(out, "x{field}")?;
    }
    Ok(())
}

/// So many rows of the table of this number, by a generator of our own.
fn csv_text(alloc: Global, table: u32, rows: u32, keys: u32) -> Result<Vec<u8>, Fail>
    requires keys { 1 ≤ keys }
{
    let mut text = String::from_str(alloc, "k,l,t,n\n")?;
    let mut state = table.wrapping_mul(7919).wrapping_add(rows);
    for _ in 0..rows {
        state = state.wrapping_mul(1_664_525).wrapping_add(1_013_904_223);
        let drawn = state / 4096;
        add_number(&mut text, drawn, keys)?;
        text.push_str(",")?;
        add_number(&mut text, drawn / 7, 5)?;
        text.push_str(",")?;
        add_text(&mut text, drawn / 64)?;
        text.push_str(",")?;
        add_number(&mut text, drawn / 3, 10)?;
        text.push_str("\n")?;
    }
    Ok(text.as_bytes().to_vec(alloc)?)
}

/// The four tables, with so many rows each and so many keys.
fn stored_tables(rt: &impl Abort, alloc: Global, rows: u32, keys: u32) -> Result<Stored, Fail>
    requires keys { 1 ≤ keys }
{
    let schema = read_schema(alloc, TABLES.as_bytes())?;
    let mut files = Vec::new(alloc);
    for table in 0..COUNT {
        files.push(csv_text(alloc, table, rows, keys)?)?;
    }
    assert_eq!(rt; files.len(), schema.shapes().len());
    Ok(load(alloc, &schema, files)?)
}

/// The answer of a query by the plain evaluator.
fn plain_text(alloc: Global, db: &Db, query: &Query) -> Result<Vec<u8>, Fail>
    requires tables { IsDatabase (tables_of db.now) }
    requires query { Fits (shapes_of (tables_of db.now)) (query_of query.now) }
{
    let mut text = Vec::new(alloc);
    match serial(alloc, db, query) {
        Ok(rows) => add_answer(alloc, &mut text, &rows).map_err(|_| "memory")?,
        Err(SerialFault::RowLimit) => add_too_many_rows(&mut text).map_err(|_| "memory")?,
        Err(SerialFault::Memory) => text.push(b'?')?,
    }
    Ok(text)
}

/// The answer of a query within a grant.
fn granted_text<R: Threads + Sync>(
    rt: &R,
    alloc: Global,
    stored: &Stored,
    query: &Query,
    frames: u32,
    scans: u32,
    owners: u32,
) -> Result<Vec<u8>, Fail>
    requires query { Fits stored.now.schema.shapes (query_of query.now) }
    requires frames { (1 ≤ frames) × (frames ≤ 1024) }
    requires scans { (1 ≤ scans) × (scans ≤ 16) }
    requires owners { (1 ≤ owners) × (owners ≤ 16) }
    requires enough { 2 * owners ≤ frames }
{
    let mut stores = stores_in_memory(alloc)?;
    let mut pool = Pool::new(alloc, 1, frames)?;
    let region = pool.grant(frames);
    let mut stop = NeverStop::new();
    let (region, evaluated) = evaluate(
        rt,
        alloc,
        stored,
        query,
        region,
        scans,
        owners,
        &mut stores,
        &mut stop,
    );
    pool.give_back(region);
    let evaluated = evaluated.map_err(|_| "memory")?;
    let mut text = Vec::new(alloc);
    add_evaluated(alloc, &mut text, &evaluated).map_err(|_| "memory")?;
    Ok(text)
}

/// Compares the answers of a select within all grants with that of the plain evaluator.
fn compare<R: Threads + Sync + Abort>(
    rt: &R,
    alloc: Global,
    stored: &Stored,
    select: &str,
) -> Result<(), Fail>
    requires size { length select.now ≤ 8192 }
{
    let ast = read_select(alloc, select.as_bytes())?;
    let query = resolve(alloc, stored.schema().shapes(), &ast)?;
    let db = stored.to_db(alloc)?;
    let plain = plain_text(alloc, &db, &query)?;
    for (frames, scans, owners) in GRANTS {
        assert!(rt;
            1 <= frames
                && frames <= 1024
                && 1 <= scans
                && scans <= 16
                && 1 <= owners
                && owners <= 16
                && 2 * owners <= frames
        );
        let granted = granted_text(rt, alloc, stored, &query, frames, scans, owners)?;
        assert_eq!(rt;
            granted.as_slice(),
            plain.as_slice(),
            "{select} with {frames}, {scans}, {owners}"
        );
    }
    Ok(())
}

#[test]
fn small_tables(rt: HostRuntime) -> Result<(), Fail> {
    let alloc: Global = rt.alloc();
    for (rows, keys) in [(30, 8), (20, 4), (8, 2)] {
        assert!(rt; 1 <= keys);
        let stored = stored_tables(&rt, alloc, rows, keys)?;
        for select in OF_ONE {
            assert!(rt; select.len() <= 8192);
            compare(&rt, alloc, &stored, select)?;
        }
        for select in OF_MORE {
            assert!(rt; select.len() <= 8192);
            compare(&rt, alloc, &stored, select)?;
        }
    }
    Ok(())
}

#[test]
fn tables_that_overflow(rt: HostRuntime) -> Result<(), Fail> {
    let alloc: Global = rt.alloc();
    let stored = stored_tables(&rt, alloc, 400, 100)?;
    for select in &OF_ONE[4..] {
        assert!(rt; select.len() <= 8192);
        compare(&rt, alloc, &stored, select)?;
    }
    for select in &OF_MORE[..3] {
        assert!(rt; select.len() <= 8192);
        compare(&rt, alloc, &stored, select)?;
    }
    Ok(())
}
