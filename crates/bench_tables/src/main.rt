//! Times the loading of tables from CSV files. `bench_tables SCHEMA` loads the tables of a schema file, whose files lie in the working folder, and
//! tells how many rows there are and how long it took. With no word it writes nothing.
#![tactic(auto)]

mod loading;

use std::{env, io};

fn main(rt: HostRuntime) -> io::Result<()> {
    let mut words = env::args(&rt)?.skip(1);
    let Some(schema) = words.next() else {
        return Ok(());
    };
    loading::run(&rt, schema.as_str())
}
