//! How many turns a second callers make. `bench_turns N M` lets N threads make M turns each at the ticket lock, and as many at a mutex of the
//! standard library, with the same work in each turn: to find the least of 1,000 numbers, or of L numbers after `bench_turns N M L`. With no
//! words it writes nothing.
#![tactic(auto)]

mod turns;

use std::alloc::Global;
use std::{env, io};
use turns::Load;

/// How many numbers wait where the words do not tell.
const LENGTH: u64 = 1000;

/// What the words after the program's name ask for. None where they are not numbers.
fn load_given(rt: &HostRuntime) -> io::Result<Option<Load>> {
    let mut words = env::args(rt)?.skip(1);
    let (Some(threads), Some(turns)) = (words.next(), words.next()) else {
        return Ok(None);
    };
    let length = match words.next() {
        Some(word) => word.parse().ok(),
        None => Some(LENGTH),
    };
    let (Ok(threads), Ok(turns), Some(length)) = (threads.parse(), turns.parse(), length) else {
        return Ok(None);
    };
    Ok(Some(Load {
        threads,
        turns,
        length,
    }))
}

fn main(rt: HostRuntime) -> io::Result<()> {
    let Some(load) = load_given(&rt)? else {
        return Ok(());
    };
    let alloc: Global = rt.alloc();
    let lock = turns::at_the_lock(&rt, alloc, &load)?;
    let mutex = turns::at_the_mutex(&rt, alloc, &load)?;
    println!(rt;
        "{} threads: {lock} turns a second at the ticket lock, {mutex} at the mutex",
        load.threads
    )
}
