//! Loading.
use pdq_schema::{Schema, read_schema};
use pdq_table::{Stored, load};
use std::time::Instant;
use std::{fs, io};

/// The bytes of the files of a schema's tables.
fn files_of(rt: &HostRuntime, schema: &Schema) -> io::Result<Vec<Vec<u8>>> {
    let mut files = Vec::new(rt.alloc());
    for table in 0..schema.shapes().len() as u32 {
        files.push(fs::read(rt, schema.file(table))?)?;
    }
    Ok(files)
}

/// How many rows the tables have.
fn rows_of(schema: &Schema, stored: &Stored) -> u64 {
    let mut rows = 0u64;
    for table in 0..schema.shapes().len().min(stored.schema().shapes().len()) as u32 {
        rows = rows.wrapping_add(u64::from(stored.rows(table)));
    }
    rows
}

/// Loads the tables of a schema file, and prints how many rows there are and how long it took.
pub fn run(rt: &HostRuntime, schema: &str) -> io::Result<()> {
    let bytes = fs::read(rt, schema)?;
    let Ok(schema) = read_schema(rt.alloc(), &bytes) else {
        return println!(rt; "the schema is refused");
    };
    let files = files_of(rt, &schema)?;
    if files.len() != schema.shapes().len() {
        return println!(rt; "a file is missing");
    }
    let start = Instant::now(rt).ok();
    let Ok(stored) = load(rt.alloc(), &schema, files) else {
        return println!(rt; "the tables are refused");
    };
    let nanos = match start {
        Some(start) => start.elapsed(rt)?.as_nanos(),
        None => 0,
    };
    let rows = rows_of(&schema, &stored);
    println!(rt; "{rows} rows: {nanos} ns")
}
