//! How many turns a second threads make that share a memory grant manager. `bench_office N Q` lets N threads, at most ten, open a session each and
//! make Q queries one after another: each is submitted, collected and finished, in three turns at the manager's lock. Then as many queries are made
//! on a manager that one thread has to itself. With no words it writes nothing.
#![tactic(auto)]

mod alone;
mod shared;

use shared::Load;
use std::{env, io};

/// The most threads, as many as the manager has quanta: each query is active at once.
const MOST_THREADS: u8 = 10;

/// What the words after the program's name ask for. None where they are not numbers, or too many threads.
fn load_given(rt: &HostRuntime) -> io::Result<Option<Load>> {
    let mut words = env::args(rt)?.skip(1);
    let (Some(threads), Some(queries)) = (words.next(), words.next()) else {
        return Ok(None);
    };
    match (threads.parse(), queries.parse()) {
        (Ok(threads), Ok(queries)) if threads <= MOST_THREADS => {
            Ok(Some(Load { threads, queries }))
        }
        _ => Ok(None),
    }
}

fn main(rt: HostRuntime) -> io::Result<()> {
    let Some(load) = load_given(&rt)? else {
        return Ok(());
    };
    // The first round takes from the system the memory that the next two use.
    let _ = shared::turns_a_second(&rt, rt.alloc(), &load)?;
    let office = shared::turns_a_second(&rt, rt.alloc(), &load)?;
    let manager = alone::turns_a_second(&rt, rt.alloc(), &load)?;
    println!(rt;
        "{} threads: {office} turns a second through the office, {manager} on the manager alone",
        load.threads
    )
}
