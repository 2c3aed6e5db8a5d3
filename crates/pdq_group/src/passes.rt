//! Passes over the rows whose keys had no room.
//!
//! A pass puts the groups that stand and makes their room free. Then it reads the rows that were left over, which are taken as rows that come for the first time:
//! those of keys that still find no room are left over again, in a partition of their own, for the pass after it. The first of them always finds room, so
//! they become fewer.
ghost use Rattle.std.specs.Prelude.{◌≡◌, ◌+◌, ◌*◌, ◌<◌, ◌≤◌, ◌∷◌, ◌++◌, [], List, ℤ, true, length, map, IfOk, IfErr, OnOk, OnErr, IsSome};
ghost use Rattle.pdq_spill.specs.Rows.{AreRows, with_more};
ghost use Rattle.pdq_spill.specs.Blocks.{rows_per_block, blocks_for};
ghost use Rattle.pdq_spill.specs.Partitions.{Stands};
ghost use Rattle.pdq_spill.specs.Stores.{StoreView, HasGrown};
ghost use Rattle.pdq_spill.specs.Faults.{IsOfStore, IsOfStoreOrOut};
ghost use Rattle.pdq_group.specs.Tables.{HasSameShape, group_width, room_of};
ghost use Rattle.pdq_group.specs.Folds.{put_row, words_of_folds};
ghost use Rattle.pdq_group.specs.Groups.{keys_of};
ghost use Rattle.pdq_group.specs.Groupers.{TookBy, Takes, Grown};
ghost use Rattle.pdq_group.specs.Passes.{ReadAll, ReadAgain, NextPass, Ended, First, Grew, passes_for};

use crate::Steps;
use crate::grouper::take_row;
use crate::table::Table;
use pdq_edge::Spill;
use pdq_spill::{Block, ExecFault, Partition, RowOut};
use std::alloc::Global;
use std::sync::ledger::Ledger;

/// Takes all rows of a block.
fn take_block<Sp: Spill>(
    table: &mut Table,
    next: &mut Partition,
    store: &mut Sp,
    block: &Block,
) -> Result<(), ExecFault>
    requires widths { AreRows (table.old.keys + length table.old.folds) block.now }
    requires takes { Takes (table.old.keys + length table.old.folds) next.old (Sp.held store.old) (Sp.blocks store.old) }
    ensures shape { HasSameShape table.old table.new }
    ensures takes { Takes (table.old.keys + length table.old.folds) next.new (Sp.held store.new) (Sp.blocks store.new) }
    ensures grown { Grown next.old next.new (Sp.blocks store.old) (Sp.held store.old) (Sp.puts store.old) (Sp.blocks store.new) (Sp.held store.new) (Sp.puts store.new) }
    ensures took { OnOk result ((rows : List (List ℤ)) → TookBy table.old next.old (Sp.blocks store.old) rows → TookBy table.new next.new (Sp.blocks store.new) (rows ++ block.now)) }
    ensures later { Sp.faults store.old ≤ Sp.faults store.new }
    ensures fault { IfErr result (λ fault. IsOfStore fault (Sp.faults store.old) (Sp.faults store.new)) }
{
    for i in 0..block.rows() {
        take_row(table, next, store, block.row(i))?;
    }
    Ok(())
}

/// Takes all rows of a sealed partition.
fn take_all<Sp: Spill>(
    table: &mut Table,
    left: &mut Partition,
    next: &mut Partition,
    store: &mut Sp,
) -> Result<(), ExecFault>
    requires width { left.old.width ≡ table.old.keys + length table.old.folds }
    requires sealed { left.old.sealed ≡ true }
    requires rewound { left.old.next ≡ 0 }
    requires most { left.old.rows ≤ length left.old.places * rows_per_block left.old.width }
    requires stands { Stands left.old (Sp.held store.old) (Sp.blocks store.old) }
    requires takes { Takes (table.old.keys + length table.old.folds) next.old (Sp.held store.old) (Sp.blocks store.old) }
    requires none { TookBy table.old next.old (Sp.blocks store.old) [] }
    ensures shape { HasSameShape table.old table.new }
    ensures takes { Takes (table.old.keys + length table.old.folds) next.new (Sp.held store.new) (Sp.blocks store.new) }
    ensures grown { Grown next.old next.new (Sp.blocks store.old) (Sp.held store.old) (Sp.puts store.old) (Sp.blocks store.new) (Sp.held store.new) (Sp.puts store.new) }
    ensures read { OnOk result (ReadAll left.old (Sp.blocks store.old) table.new next.new (Sp.blocks store.new)) }
    ensures later { Sp.faults store.old ≤ Sp.faults store.new }
    ensures fault { IfErr result (λ fault. IsOfStore fault (Sp.faults store.old) (Sp.faults store.new)) }
{
    let mut block = Block::new();
    'reading: while left.next_block(store, &mut block)? {
        take_block(table, next, store, &block)?;
    }
    Ok(())
}

/// Reads the rows without room as those of a new pass.
pub(crate) fn read_again<Sp: Spill>(
    alloc: Global,
    width: u32,
    table: &mut Table,
    left: &mut Partition,
    store: &mut Sp,
) -> Result<Partition, ExecFault>
    requires width { width ≡ table.old.keys + length table.old.folds }
    requires low { 1 ≤ width }
    requires high { width ≤ 511 }
    requires takes { Takes (table.old.keys + length table.old.folds) left.old (Sp.held store.old) (Sp.blocks store.old) }
    requires empty { table.old.groups ≡ [] }
    ensures shape { HasSameShape table.old table.new }
    ensures takes { IfOk result (λ next. Takes (table.old.keys + length table.old.folds) next (Sp.held store.new) (Sp.blocks store.new)) }
    ensures read { IfOk result (λ next. ReadAgain left.old (Sp.blocks store.old) table.new next (Sp.blocks store.new)) }
    ensures puts { IfOk result (λ next. Sp.puts store.new + length left.old.places ≡ Sp.puts store.old + blocks_for left.old.rows left.old.width + length next.places) }
    ensures grown { HasGrown (record { blocks = Sp.blocks store.old; held = Sp.held store.old; puts = Sp.puts store.old; faults = Sp.faults store.old }) (record { blocks = Sp.blocks store.new; held = Sp.held store.new; puts = Sp.puts store.new; faults = Sp.faults store.new }) }
    ensures told { IsSome (Sp.blocks store.old) → IsSome (Sp.blocks store.new) }
    ensures first { IfOk result (λ _. First left.old (Sp.blocks store.old) (Sp.held store.old) (Sp.blocks store.new) (Sp.held store.new)) }
    ensures grew { IfOk result (λ _. Grew (Sp.blocks store.old) (Sp.held store.old) (Sp.blocks store.new) (Sp.held store.new)) }
    ensures later { Sp.faults store.old ≤ Sp.faults store.new }
    ensures fault { IfErr result (λ fault. IsOfStore fault (Sp.faults store.old) (Sp.faults store.new)) }
{
    left.seal(store)?;
    let mut next = match Partition::new(alloc, width) {
        Ok(next) => next,
        Err(_) => return Err(ExecFault::Memory),
    };
    take_all(table, left, &mut next, store)?;
    Ok(next)
}

/// Puts the groups of a pass, and reads the rows whose keys had no room as those of the next pass; None where there are none.
pub(crate) fn pass<Sp: Spill, O: RowOut, L: Ledger>(
    alloc: Global,
    width: u32,
    table: &mut Table,
    left: &mut Partition,
    store: &mut Sp,
    out: &mut O,
    steps: &mut Steps<L>,
) -> Result<Option<Partition>, ExecFault>
    requires width { width ≡ table.old.keys + length table.old.folds }
    requires low { 1 ≤ width }
    requires high { width ≤ 511 }
    requires takes { Takes (table.old.keys + length table.old.folds) left.old (Sp.held store.old) (Sp.blocks store.old) }
    requires out { O.width out.old ≡ table.old.keys + words_of_folds table.old.folds }
    ensures shape { HasSameShape table.old table.new }
    ensures tick { steps.new ≡ steps.old + 1 }
    ensures put { OnOk result (O.rows out.new ≡ with_more (O.rows out.old) (map (put_row table.old.keys table.old.folds) table.old.groups)) }
    ensures next { IfOk result (λ next. NextPass (table.old.keys + length table.old.folds) left.old table.new (record { blocks = Sp.blocks store.old; held = Sp.held store.old; puts = Sp.puts store.old; faults = Sp.faults store.old }) (record { blocks = Sp.blocks store.new; held = Sp.held store.new; puts = Sp.puts store.new; faults = Sp.faults store.new }) next) }
    ensures grown { HasGrown (record { blocks = Sp.blocks store.old; held = Sp.held store.old; puts = Sp.puts store.old; faults = Sp.faults store.old }) (record { blocks = Sp.blocks store.new; held = Sp.held store.new; puts = Sp.puts store.new; faults = Sp.faults store.new }) }
    ensures out { O.width out.new ≡ O.width out.old }
    ensures ok { OnOk result (O.fault out.new ≡ O.fault out.old) }
    ensures keeps { O.keeps out.old out.new }
    ensures later { Sp.faults store.old ≤ Sp.faults store.new }
    ensures fault { IfErr result (λ fault. IsOfStoreOrOut fault (Sp.faults store.old) (Sp.faults store.new) (O.fault out.new)) }
{
    steps.tick();
    table.put(alloc, out)?;
    if left.rows() == 0 {
        return Ok(None);
    }
    table.clear();
    let next = read_again(alloc, width, table, left, store)?;
    Ok(Some(next))
}

/// Puts the groups of all passes.
pub(crate) fn passes<Sp: Spill, O: RowOut, L: Ledger>(
    alloc: Global,
    width: u32,
    table: &mut Table,
    left: Partition,
    store: &mut Sp,
    out: &mut O,
    steps: &mut Steps<L>,
) -> Result<(), ExecFault>
    requires width { width ≡ table.old.keys + length table.old.folds }
    requires low { 1 ≤ width }
    requires high { group_width table.old.keys table.old.folds ≤ 511 }
    requires frames { 2 ≤ table.old.frames }
    requires takes { Takes (table.old.keys + length table.old.folds) left (Sp.held store.old) (Sp.blocks store.old) }
    requires out { O.width out.old ≡ table.old.keys + words_of_folds table.old.folds }
    ensures shape { HasSameShape table.old table.new }
    ensures ended { OnOk result ((rows : List (List ℤ)) → TookBy table.old left (Sp.blocks store.old) rows → IsSome (Sp.blocks store.old) → Ended table.old rows (O.rows out.old) (O.rows out.new) steps.old steps.new width (Sp.puts store.old) (length left.places) (Sp.puts store.new)) }
    ensures ticks { (rows : List (List ℤ)) → TookBy table.old left (Sp.blocks store.old) rows → IsSome (Sp.blocks store.old) → steps.new ≤ steps.old + passes_for (length (keys_of table.old.keys rows)) (room_of table.old) }
    ensures first { OnOk result (0 < left.rows → First left (Sp.blocks store.old) (Sp.held store.old) (Sp.blocks store.new) (Sp.held store.new)) }
    ensures grown { HasGrown (record { blocks = Sp.blocks store.old; held = Sp.held store.old; puts = Sp.puts store.old; faults = Sp.faults store.old }) (record { blocks = Sp.blocks store.new; held = Sp.held store.new; puts = Sp.puts store.new; faults = Sp.faults store.new }) }
    ensures least { OnOk result (Sp.puts store.old + blocks_for left.rows left.width ≤ Sp.puts store.new + length left.places) }
    ensures keeps { O.keeps out.old out.new }
    ensures later { Sp.faults store.old ≤ Sp.faults store.new }
    ensures fault { IfErr result (λ fault. IsOfStoreOrOut fault (Sp.faults store.old) (Sp.faults store.new) (O.fault out.new)) }
{
    let mut left = left;
    'passes: while let Some(next) = pass(alloc, width, table, &mut left, store, out, steps)? {
        left = next;
    }
    Ok(())
}
