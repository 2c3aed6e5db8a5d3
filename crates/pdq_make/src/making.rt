//! Three queries over generated tables, each granted its share of the memory of one manager.
ghost use Rattle.std.specs.Prelude.{◌≡◌, ◌≤◌, ◌++◌, All, IfOk, IfSome, Ok, OnOk, false, length, map};
ghost use Rattle.std.specs.List.{slice_get};
ghost use Rattle.pdq_model.specs.State.{opening_state};
ghost use Rattle.pdq_value.specs.declared.cells.Cell.{Cell as CellValue};
ghost use Rattle.pdq_value.specs.Cells.{scale_of};
ghost use Rattle.pdq_value.specs.Tables.{tables_of};
ghost use Rattle.pdq_query.specs.Fits.{Fits};
ghost use Rattle.pdq_query.specs.Queries.{query_of};
ghost use Rattle.pdq_table.specs.Storing.{IsStored, shapes_of};
ghost use Rattle.pdq_make.specs.MadeTables.{made_tables};
ghost use Rattle.pdq_make.specs.Make.{IsReady, ends_of, first_line, last_line, line_of, lines_of_rows, lines_of_select, made_config, made_state, query_events, query_said, state_after, text_over};

use crate::made_tables::made_stored;
use pdq_base::Memory;
use pdq_frame::Pool;
use pdq_gate::{Collected, Config, Manager};
use pdq_mean::{SerialFault, serial};
use pdq_model::How;
use pdq_query::Query;
use pdq_reply::add_too_many_rows;
use pdq_sql::{read_select, resolve};
use pdq_table::Stored;
use pdq_value::{Cell, Db, append, print_row};
use std::alloc::Global;

/// What each shop sold.
const TOTALS_BY_SHOP: &str = "SELECT shop, SUM(amount), AVG(amount) FROM sales GROUP BY shop";

/// What the shops of each city sold.
const TOTALS_BY_CITY: &str =
    "SELECT city, SUM(amount) FROM sales, shops WHERE sales.shop = shops.shop GROUP BY city";

/// The dearest sales.
const DEAREST_SALES: &str = "SELECT sale, amount FROM sales WHERE amount >= 9.90 ORDER BY 2 DESC";

/// A manager without an entry; None for want of memory.
fn new_manager(alloc: Global) -> Option<Manager>
    ensures state { IfSome result (λ m. m.state ≡ opening_state made_config) }
{
    let config = Config::check(100, 4000, 10, 10, 128)?;
    let Ok(pool) = Pool::new(alloc, config.frames_per_quantum(), config.max_queries()) else {
        return None;
    };
    match Manager::new(alloc, config, pool) {
        Ok(manager) => Some(manager),
        Err(_) => None,
    }
}

/// A manager whose first session has submitted the three queries; None for want of memory.
fn submitted(alloc: Global) -> Option<Manager>
    ensures state { IfSome result (λ m. m.state ≡ made_state) }
{
    let mut manager = new_manager(alloc)?;
    let _ = manager.open_session(true);
    let _ = manager.submit(1, 50, 4);
    let _ = manager.submit(1, 30, 4);
    let _ = manager.submit(1, 20, 4);
    Some(manager)
}

/// The query that a select asks for. The selects of `make` are in the language, so only memory can be wanting.
fn query_of_select(alloc: Global, stored: &Stored, select: &str) -> Result<Query, Memory>
    requires stored { IsStored stored.now }
    requires size { length select.now ≤ 8192 }
    ensures query { IfOk result (λ q. query_said (shapes_of stored.now.tables) select.now ≡ Ok (query_of q)) }
    ensures fits { IfOk result (λ q. Fits (shapes_of stored.now.tables) (query_of q)) }
{
    let Ok(ast) = read_select(alloc, select.as_bytes()) else {
        return Err(Memory);
    };
    match resolve(alloc, stored.schema().shapes(), &ast) {
        Ok(query) => Ok(query),
        Err(_) => Err(Memory),
    }
}

/// Adds the row at this place as a line, where there is one.
fn add_row(text: &mut Vec<u8>, rows: &[Vec<Cell>], place: usize) -> Result<(), Memory>
    requires scales { All (λ row. All (λ (c : CellValue). scale_of c ≤ 8) row.items) rows.now }
    ensures text { OnOk result (text.new.items ≡ text.old.items ++ line_of (slice_get (map (λ row. row.items) rows.now) place)) }
{
    if place >= rows.len() {
        return Ok(());
    }
    print_row(&rows[place], text)?;
    append(text, b"\n")
}

/// Adds the first and the last of some rows.
fn add_ends(text: &mut Vec<u8>, rows: &[Vec<Cell>]) -> Result<(), Memory>
    requires scales { All (λ row. All (λ (c : CellValue). scale_of c ≤ 8) row.items) rows.now }
    ensures text { OnOk result (text.new.items ≡ text.old.items ++ ends_of (map (λ row. row.items) rows.now)) }
{
    add_row(text, rows, 0)?;
    add_row(text, rows, rows.len().saturating_sub(1))
}

/// Adds the lines of the query of this number, which has these rows.
fn add_rows(alloc: Global, text: &mut Vec<u8>, id: u32, rows: &[Vec<Cell>]) -> Result<(), Memory>
    requires scales { All (λ row. All (λ (c : CellValue). scale_of c ≤ 8) row.items) rows.now }
    ensures text { OnOk result (text.new.items ≡ text.old.items ++ lines_of_rows id (map (λ row. row.items) rows.now)) }
{
    let count = rows.len();
    let Ok(line) = format!(in alloc; "QUERY {id} ROWS {count}\n") else {
        return Err(Memory);
    };
    append(text, line.as_bytes())?;
    add_ends(text, rows)
}

/// Adds the lines of the query of this number, which this select asks for.
fn add_query(
    alloc: Global,
    text: &mut Vec<u8>,
    stored: &Stored,
    db: &Db,
    id: u32,
    select: &str,
) -> Result<(), Memory>
    requires stored { IsStored stored.now }
    requires tables { tables_of db.now ≡ stored.now.tables }
    requires size { length select.now ≤ 8192 }
    ensures text { OnOk result (text.new.items ≡ text.old.items ++ lines_of_select stored.now.tables id select.now) }
{
    let query = query_of_select(alloc, stored, select)?;
    match serial(alloc, db, &query) {
        Ok(rows) => add_rows(alloc, text, id, &rows),
        Err(SerialFault::RowLimit) => add_too_many_rows(text),
        Err(SerialFault::Memory) => Err(Memory),
    }
}

/// Collects, runs and finishes the query of this number, and adds its lines.
fn run_query(
    alloc: Global,
    text: &mut Vec<u8>,
    stored: &Stored,
    db: &Db,
    manager: &mut Manager,
    id: u32,
    select: &str,
) -> Result<(), Memory>
    requires stored { IsStored stored.now }
    requires tables { tables_of db.now ≡ stored.now.tables }
    requires ready { IsReady manager.old.state id }
    requires size { length select.now ≤ 8192 }
    ensures text { OnOk result (text.new.items ≡ text.old.items ++ lines_of_select stored.now.tables id select.now) }
    ensures state { manager.new.state ≡ state_after manager.old.state (query_events false id) }
{
    match manager.collect(id) {
        Collected::Granted {
            region,
            quanta: _,
            scans: _,
            priority: _,
            flagged: _,
            step: _,
        } => {
            let added = add_query(alloc, text, stored, db, id, select);
            manager.finish(id, region, How::Done);
            added
        }
        Collected::Waiting { gate: _, step: _ } => unreachable!(),
        Collected::Cancelled { by: _, step: _ } => unreachable!(),
    }
}

/// Adds the first line.
fn add_first_line(alloc: Global, text: &mut Vec<u8>, count: u32) -> Result<(), Memory>
    ensures text { OnOk result (text.new.items ≡ text.old.items ++ first_line count) }
{
    let Ok(line) = format!(in alloc; "MAKE {count}\n") else {
        return Err(Memory);
    };
    append(text, line.as_bytes())
}

/// Adds the last line.
fn add_last_line(alloc: Global, text: &mut Vec<u8>, manager: &Manager) -> Result<(), Memory>
    ensures text { OnOk result (text.new.items ≡ text.old.items ++ last_line manager.now.state) }
{
    let step = manager.step();
    let reserved = manager.reserved_quanta();
    let Ok(line) = format!(in alloc; "END STEP {step} RESERVED {reserved}\n") else {
        return Err(Memory);
    };
    append(text, line.as_bytes())
}

/// The whole text, over these tables.
fn text_over(
    alloc: Global,
    count: u32,
    stored: &Stored,
    db: &Db,
    manager: &mut Manager,
) -> Result<Vec<u8>, Memory>
    requires stored { IsStored stored.now }
    requires tables { tables_of db.now ≡ stored.now.tables }
    requires state { manager.old.state ≡ made_state }
    ensures text { IfOk result (λ text. text.items ≡ text_over count stored.now.tables false false false) }
{
    let mut text = Vec::new(alloc);
    add_first_line(alloc, &mut text, count)?;
    run_query(alloc, &mut text, stored, db, manager, 1, TOTALS_BY_SHOP)?;
    run_query(alloc, &mut text, stored, db, manager, 2, TOTALS_BY_CITY)?;
    run_query(alloc, &mut text, stored, db, manager, 3, DEAREST_SALES)?;
    add_last_line(alloc, &mut text, manager)?;
    Ok(text)
}

/// The text of `make` over so many sales and their shops: for each of the three queries its number, the number of its rows, and the
/// first and the last of them; then the step and the reserved quanta at the end. All is our own.
///
/// # Errors
/// `Memory` where it is wanting.
pub fn make_text(alloc: Global, count: u32) -> Result<Vec<u8>, Memory>
    requires few { count ≤ 1000000 }
    ensures text { IfOk result (λ text. text.items ≡ text_over count (made_tables count) false false false) }
{
    let stored = made_stored(alloc, count)?;
    let db = stored.to_db(alloc)?;
    let Some(mut manager) = submitted(alloc) else {
        return Err(Memory);
    };
    let text = text_over(alloc, count, &stored, &db, &mut manager);
    drop(manager.end());
    text
}
