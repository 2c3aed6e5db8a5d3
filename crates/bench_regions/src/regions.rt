//! Rows that are put into a region and read.
ghost use Rattle.std.specs.Prelude.{◌≡◌, ◌<◌, ◌≤◌};
ghost use Rattle.pdq_frame.specs.Shares.{share, handed_out};

use pdq_frame::{Parts, Pool, Region};
use std::alloc::Global;
use std::io;
use std::time::{Clock, Instant};

/// How many frames the region has, and how many rows are put.
#[derive(Drop)]
pub struct Load {
    pub frames: u32,
    pub rows: u32,
}

/// How many rows were put and read, and the nanoseconds of all: in a fresh region, in one that was granted again, and in one that was joined.
#[derive(Drop)]
pub struct Took {
    pub rows: u32,
    pub fresh: u128,
    pub again: u128,
    pub joined: u128,
}

/// How many rows read as they were put, and the nanoseconds of all.
#[derive(Drop)]
struct Timing {
    rows: u32,
    nanos: u128,
}

/// Puts so many rows, or as many as there is room for. Answers how many.
fn put_rows(region: &mut Region, rows: u32) -> u32
    requires width { region.old.width ≡ 3 }
    ensures width { region.new.width ≡ 3 }
    ensures frames { region.new.frames ≡ region.old.frames }
{
    for number in 0..rows {
        let word = i64::from(number);
        if region.put(&[word, word, word], None).is_none() {
            return number;
        }
    }
    rows
}

/// Reads so many rows. Answers how many read as they were put.
fn read_rows(region: &Region, rows: u32) -> u32
    requires width { region.now.width ≡ 3 }
{
    let mut same: u32 = 0;
    for number in 0..rows {
        if let Some(slot) = region.slot(number) {
            let word = i64::from(number);
            let (words, _link) = region.read(slot);
            if words[0] == word && words[1] == word && words[2] == word {
                same = same.saturating_add(1);
            }
        }
    }
    same
}

/// Puts rows into the emptied region, and reads them.
fn timed<R: Clock>(rt: &R, region: &mut Region, rows: u32) -> io::Result<Timing>
    requires some { 1 ≤ region.old.frames }
    ensures frames { region.new.frames ≡ region.old.frames }
{
    region.reset(0, 3);
    let start = Instant::now(rt)?;
    let put = put_rows(region, rows);
    let rows = read_rows(region, put);
    let nanos = start.elapsed(rt)?.as_nanos();
    Ok(Timing { rows, nanos })
}

/// The next part of a region, of which not all are out.
fn next_part(parts: &mut Parts) -> Region
    requires left { parts.old.given < parts.old.parts }
    ensures frames { result.frames ≡ share parts.old.frames parts.old.parts parts.old.given }
    ensures out { parts.new ≡ handed_out parts.old }
{
    match parts.out() {
        Some(part) => part,
        None => unreachable!(),
    }
}

/// Splits the region in four, takes the parts out, brings them back in another order, and joins them. The region as it was where memory is wanting.
fn split_and_joined(region: Region) -> Region
    requires some { 4 ≤ region.frames }
    ensures frames { result.frames ≡ region.frames }
{
    let mut parts = match region.split(4) {
        Ok(parts) => parts,
        Err(region) => return region,
    };
    let first = next_part(&mut parts);
    let second = next_part(&mut parts);
    let third = next_part(&mut parts);
    let fourth = next_part(&mut parts);
    parts.back(third);
    parts.back(first);
    parts.back(fourth);
    parts.back(second);
    parts.join()
}

/// Times the rows in the three regions. None where there is no memory for the pool.
pub fn run<R: Clock>(rt: &R, alloc: Global, load: &Load) -> io::Result<Option<Took>>
    requires some { 4 ≤ load.now.frames }
    requires most { load.now.frames ≤ 262144 }
{
    let Ok(mut pool) = Pool::new(alloc, 1, load.frames) else {
        return Ok(None);
    };
    let mut region = pool.grant(load.frames);
    let fresh = timed(rt, &mut region, load.rows);
    pool.give_back(region);
    let mut region = pool.grant(load.frames);
    let again = timed(rt, &mut region, load.rows);
    let mut region = split_and_joined(region);
    let joined = timed(rt, &mut region, load.rows);
    pool.give_back(region);
    let (fresh, again, joined) = (fresh?, again?, joined?);
    Ok(Some(Took {
        rows: fresh.rows.min(again.rows).min(joined.rows),
        fresh: fresh.nanos,
        again: again.nanos,
        joined: joined.nanos,
    }))
}
