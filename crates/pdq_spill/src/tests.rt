//! Rows that stand in blocks.
ghost use Rattle.std.specs.Prelude.{◌≡◌, false, true, length, Some};
ghost use Rattle.pdq_spill.specs.Partitions.{Stands};

use crate::{Block, ExecFault, Partition};
use pdq_edge::{Spill, SureSpill};
use std::process::Abort;
use std::test::Fail;

/// The row that is appended at a place.
fn row_at(place: u16) -> [i64; 3] {
    [place as i64, 7, -(place as i64)]
}

/// Appends so many rows of three words.
fn append_rows(
    partition: &mut Partition,
    store: &mut SureSpill,
    count: u16,
) -> Result<(), ExecFault>
    requires open { partition.old.sealed ≡ false }
    requires width { partition.old.width ≡ 3 }
    requires stands { Stands partition.old (length store.old.blocks) (Some store.old.blocks) }
    ensures open { partition.new.sealed ≡ false }
    ensures stands { Stands partition.new (length store.new.blocks) (Some store.new.blocks) }
{
    for place in 0..count {
        partition.append(store, &row_at(place))?;
    }
    Ok(())
}

/// Reads all blocks, and asserts that they have these numbers of rows, which are those that were appended, in order.
fn assert_blocks(
    rt: &impl Abort,
    partition: &mut Partition,
    store: &mut SureSpill,
    wanted: &[u32],
) -> Result<(), ExecFault>
    requires sealed { partition.old.sealed ≡ true }
    requires stands { Stands partition.old (length store.old.blocks) (Some store.old.blocks) }
    ensures sealed { partition.new.sealed ≡ true }
    ensures stands { Stands partition.new (length store.new.blocks) (Some store.new.blocks) }
{
    let mut block = Block::new();
    let mut place = 0u16;
    for want in wanted {
        assert!(rt; partition.next_block(store, &mut block)?);
        assert_eq!(rt; block.rows(), *want);
        for i in 0..block.rows() {
            assert!(rt; block.row(i) == row_at(place).as_slice());
            place = place.wrapping_add(1);
        }
    }
    assert!(rt; !partition.next_block(store, &mut block)?);
    Ok(())
}

#[test]
fn rows_of_three_words_in_blocks(rt: HostRuntime) -> Result<(), Fail> {
    let mut store = SureSpill::new(rt.alloc());
    let mut partition = Partition::new(rt.alloc(), 3).map_err(|_| "memory")?;
    append_rows(&mut partition, &mut store, 400)?;
    assert_eq!(rt; partition.rows(), 400);
    partition.seal(&mut store)?;
    assert_blocks(&rt, &mut partition, &mut store, &[170, 170, 60])?;
    partition.rewind();
    assert_blocks(&rt, &mut partition, &mut store, &[170, 170, 60])?;
    Ok(())
}

#[test]
fn a_block_in_the_store(rt: HostRuntime) -> Result<(), Fail> {
    let mut store = SureSpill::new(rt.alloc());
    let mut partition = Partition::new(rt.alloc(), 3).map_err(|_| "memory")?;
    append_rows(&mut partition, &mut store, 2)?;
    partition.seal(&mut store)?;
    let mut block = [255; 4096];
    let held = store.put(&block).map_err(|_| "memory")?;
    assert_eq!(rt; held, 1);
    store.get(held - 1, &mut block).map_err(|_| "no block")?;
    let words = [2, 0, 7, 0, 1, 7, -1, 0];
    for (i, word) in words.iter().enumerate() {
        let bytes = &block[8 * i..8 * i + 8];
        assert_eq!(rt; bytes, i64::to_le_bytes(*word).as_slice(), "word {i}");
    }
    Ok(())
}
