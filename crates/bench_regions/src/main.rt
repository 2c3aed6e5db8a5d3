//! What it costs to put rows into a region and to read them. `bench_regions F R` puts R rows of three words into a region of F frames, or as many
//! as it has room for, and reads each: where the region is the first of its pool, where its frames came home and were granted again, and where
//! it was split in four and joined. With no words it writes nothing.
#![tactic(auto)]

ghost use Rattle.std.specs.Prelude.{◌≤◌, IfOk, IfSome};

mod regions;

use regions::Load;
use std::{env, io};

/// What the words after the program's name ask for. None where they are not numbers, or the region could not be split in four.
fn load_given(rt: &HostRuntime) -> io::Result<Option<Load>>
    ensures some { IfOk result (λ given. IfSome given (λ load. 4 ≤ load.frames)) }
    ensures most { IfOk result (λ given. IfSome given (λ load. load.frames ≤ 262144)) }
{
    let mut words = env::args(rt)?.skip(1);
    let (Some(frames), Some(rows)) = (words.next(), words.next()) else {
        return Ok(None);
    };
    match (frames.parse::<u32>(), rows.parse()) {
        (Ok(frames), Ok(rows)) if 4 <= frames && frames <= 262_144 => {
            Ok(Some(Load { frames, rows }))
        }
        _ => Ok(None),
    }
}

fn main(rt: HostRuntime) -> io::Result<()> {
    let Some(load) = load_given(&rt)? else {
        return Ok(());
    };
    let Some(took) = regions::run(&rt, rt.alloc(), &load)? else {
        return Ok(());
    };
    println!(rt;
        "{} frames, {} rows: {} ns fresh, {} ns granted again, {} ns joined",
        load.frames, took.rows, took.fresh, took.again, took.joined
    )
}
