//! Rows in blocks of a store.
ghost use Rattle.std.specs.Prelude.{◌≡◌, false, true, OnOk};
ghost use Rattle.pdq_spill.specs.Partitions.{Stands};

use crate::watch::{between, now};
use pdq_edge::{FileSpill, Spill, SureSpill};
use pdq_spill::{Block, ExecFault, Partition};
use sha2::{Digest, Sha256};
use std::io;
use std::path::Path;

/// Appends so many rows of three words, and seals them.
fn write_all<Sp: Spill>(
    partition: &mut Partition,
    store: &mut Sp,
    rows: u32,
) -> Result<(), ExecFault>
    requires open { partition.old.sealed ≡ false }
    requires width { partition.old.width ≡ 3 }
    requires stands { Stands partition.old (Sp.held store.old) (Sp.blocks store.old) }
    ensures sealed { OnOk result (partition.new.sealed ≡ true) }
    ensures stands { Stands partition.new (Sp.held store.new) (Sp.blocks store.new) }
{
    for i in 0..rows {
        partition.append(store, &[i as i64, 1, 2])?;
    }
    partition.seal(store)
}

/// The first word of a row.
fn first_of(row: &[i64]) -> u64 {
    match row {
        [first, ..] => first.cast_unsigned(),
        [] => 0,
    }
}

/// The sum of the first words of a block's rows.
fn sum_of(block: &Block) -> u64 {
    let mut sum = 0u64;
    for i in 0..block.rows() {
        sum = sum.wrapping_add(first_of(block.row(i)));
    }
    sum
}

/// Reads all rows, and adds up their first words.
fn read_all<Sp: Spill>(partition: &mut Partition, store: &mut Sp) -> Result<u64, ExecFault>
    requires sealed { partition.old.sealed ≡ true }
    requires stands { Stands partition.old (Sp.held store.old) (Sp.blocks store.old) }
{
    let mut block = Block::new();
    let mut sum = 0u64;
    'reading: while partition.next_block(store, &mut block)? {
        sum = sum.wrapping_add(sum_of(&block));
    }
    Ok(sum)
}

/// Puts so many rows into blocks of a store and reads them, and tells how long it took.
fn timed<Sp: Spill>(rt: &HostRuntime, store: &mut Sp, rows: u32) -> io::Result<()> {
    let Ok(mut partition) = Partition::new(rt.alloc(), 3) else {
        return println!(rt; "memory is wanting");
    };
    let start = now(rt);
    let Ok(()) = write_all(&mut partition, store, rows) else {
        return println!(rt; "not all rows were put");
    };
    let middle = now(rt);
    let Ok(sum) = read_all(&mut partition, store) else {
        return println!(rt; "not all rows were read");
    };
    let end = now(rt);
    println!(rt;
        "{} ns to write, {} ns to read; sum {sum}",
        between(start, middle),
        between(middle, end)
    )
}

/// The same with a store in memory.
pub fn run_in_memory(rt: &HostRuntime, rows: u32) -> io::Result<()> {
    timed(rt, &mut SureSpill::new(rt.alloc()), rows)
}

/// The same with a store in a file of the working folder.
pub fn run_in_file(rt: HostRuntime, rows: u32) -> io::Result<()> {
    match FileSpill::new(rt.alloc(), rt, Path::new(""), &mut 0) {
        Ok(mut store) => timed(&rt, &mut store, rows),
        Err(_) => println!(rt; "memory is wanting"),
    }
}

/// Takes so many digests of a block, and adds up their first bytes.
fn hash_all(digests: u64) -> u64 {
    let mut block = [0; 4096];
    let mut sum = 0u64;
    for i in 0..digests {
        block[(i % 4096) as usize] = (i % 251) as u8;
        let digest = Sha256::digest(block.as_slice());
        sum = sum.wrapping_add(u64::from(digest[0]));
    }
    sum
}

/// Takes the digest of so many blocks twice, and tells how long it took.
pub fn run_hashes(rt: &HostRuntime, blocks: u32) -> io::Result<()> {
    let start = now(rt);
    let sum = hash_all(2 * u64::from(blocks));
    println!(rt; "{} ns to hash; sum {sum}", between(start, now(rt)))
}
