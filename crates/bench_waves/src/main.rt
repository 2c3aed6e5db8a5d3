//! What it costs to send rows from threads that scan to threads that own them by key. `bench_waves L D W N` lets L lanes give N rows each in
//! each of W waves to D desks, whose owners only count. With no row in a wave it tells what a wave costs that moves none. With no words it writes
//! nothing.
#![tactic(auto)]

mod load;

use load::Load;
use std::{env, io};

/// What the words after the program's name ask for. None where they are not numbers.
fn load_given(rt: &HostRuntime) -> io::Result<Option<Load>> {
    let mut words = env::args(rt)?.skip(1);
    let (Some(lanes), Some(desks), Some(waves), Some(rows)) = (
        words.next(),
        words.next(),
        words.next(),
        words.next(),
    ) else {
        return Ok(None);
    };
    let (Ok(lanes), Ok(desks), Ok(waves), Ok(rows)) = (
        lanes.parse(),
        desks.parse(),
        waves.parse(),
        rows.parse(),
    ) else {
        return Ok(None);
    };
    Ok(Some(Load {
        lanes,
        desks,
        waves,
        rows,
    }))
}

fn main(rt: HostRuntime) -> io::Result<()> {
    let Some(load) = load_given(&rt)? else {
        return Ok(());
    };
    let Some(took) = load::run(&rt, rt.alloc(), &load)? else {
        return Ok(());
    };
    println!(rt;
        "{} lanes, {} desks, {} waves, {} rows: {} ns",
        load.lanes, load.desks, load.waves, took.rows, took.nanos
    )
}
