//! The groupers end.
ghost use Rattle.std.specs.Prelude.{◌≡◌, ◌+◌, ◌<◌, ◌≤◌, ◌++◌, ◌∷◌, [], All, OnOk, IfErr, IfOk, length, vec_len, vec_capacity, ℕ, slice_index_or};
ghost use Rattle.pdq_group.specs.Folds.{words_of_folds};
ghost use Rattle.pdq_spill.specs.Faults.{IsOfStore};
ghost use Rattle.pdq_gather.specs.Homes.{Each, HomeOf, store_of};
ghost use Rattle.pdq_gather.specs.Groups.{DeskHome, EndFailed, IsOut, IsReceipt, PutGroups, PutsAtLeast};

use crate::moving::push_in_room;
use pdq_edge::Spill;
use pdq_exchange::Desk;
use pdq_group::{Folded, Grouper, Steps};
use pdq_owner::{Folder, Kept};
use pdq_spill::{Bench, ExecFault};
use std::marker::Brand;
use std::sync::ledger::{Blank, Ledger};

/// The grouper of a desk ends: it puts its groups.
fn end_one<Sp: Spill + Send, L: Ledger>(
    desk: Desk<Folder<Sp>>,
    benches: &mut Vec<Bench<Sp>>,
    out: &mut Kept,
    steps: &mut Steps<L>,
) -> Result<Folded, ExecFault>
    requires room { vec_len benches.old < vec_capacity benches.old }
    requires width { out.old.width ≡ desk.owner.grouper.table.keys + words_of_folds desk.owner.grouper.table.folds }
    requires out { IsOut out.old }
    ensures bench { (bench : _) × (benches.new.items ≡ benches.old.items ++ bench ∷ []) × DeskHome (store_of Sp.blocks Sp.held Sp.puts Sp.faults) desk bench × OnOk result (PutsAtLeast Sp.puts desk bench) × IfErr result (λ cause. IsOfStore cause desk.owner.grouper.store.faults (Sp.faults bench.store)) }
    ensures capacity { vec_capacity benches.old ≤ vec_capacity benches.new }
    ensures put { OnOk result (PutGroups (desk ∷ []) out.old.rows out.new.rows) }
    ensures receipt { IfOk result (λ folded. IsReceipt desk folded) }
    ensures width { out.new.width ≡ out.old.width }
    ensures out { IsOut out.new }
{
    let folder = desk.leave();
    let grouper = folder.leave();
    let (bench, ended) = grouper.end(out, steps);
    push_in_room(benches, bench);
    ended
}

/// The groupers of all desks give their benches back.
pub(crate) fn leave_folders<Sp: Spill + Send>(
    desks: &mut Vec<Desk<Folder<Sp>>>,
    benches: &mut Vec<Bench<Sp>>,
)
    requires room { vec_len benches.old + vec_len desks.old ≤ vec_capacity benches.old }
    ensures empty { desks.new.items ≡ [] }
    ensures home { (more : _) × (benches.new.items ≡ benches.old.items ++ more) × Each (DeskHome (store_of Sp.blocks Sp.held Sp.puts Sp.faults)) desks.old.items more }
    ensures many { vec_len benches.new ≡ vec_len benches.old + vec_len desks.old }
    ensures capacity { vec_capacity benches.old ≤ vec_capacity benches.new }
{
    'leaving: while desks.len() > 0 {
        let desk = desks.remove(0);
        let folder = desk.leave();
        let grouper = folder.leave();
        let bench = grouper.leave();
        push_in_room(benches, bench);
    }
}

/// All groupers give their benches back.
pub(crate) fn leave_groupers<Sp: Spill>(
    groupers: &mut Vec<Grouper<Sp>>,
    benches: &mut Vec<Bench<Sp>>,
)
    requires room { vec_len benches.old + vec_len groupers.old ≤ vec_capacity benches.old }
    ensures empty { groupers.new.items ≡ [] }
    ensures home { (more : _) × (benches.new.items ≡ benches.old.items ++ more) × Each (HomeOf (store_of Sp.blocks Sp.held Sp.puts Sp.faults)) groupers.old.items more }
{
    'leaving: while groupers.len() > 0 {
        let grouper = groupers.remove(0);
        let bench = grouper.leave();
        push_in_room(benches, bench);
    }
}

/// The groupers of all desks end, under a count of their passes. At a fault those behind it only give their benches back.
fn end_folders<Sp: Spill + Send, L: Ledger>(
    desks: &mut Vec<Desk<Folder<Sp>>>,
    benches: &mut Vec<Bench<Sp>>,
    out: &mut Kept,
    folded: &mut Vec<Folded>,
    blank: Blank,
) -> Result<(), ExecFault>
    requires name { blank.name ≡ L.name }
    requires parts { blank.parts ≡ L.parts }
    requires some { 0 < L.parts }
    requires no_bench { benches.old.items ≡ [] }
    requires none_folded { folded.old.items ≡ [] }
    requires bench_room { vec_len desks.old ≤ vec_capacity benches.old }
    requires folded_room { vec_len desks.old ≤ vec_capacity folded.old }
    requires widths { All (λ desk. out.old.width ≡ desk.owner.grouper.table.keys + words_of_folds desk.owner.grouper.table.folds) desks.old.items }
    requires out { IsOut out.old }
    ensures empty { desks.new.items ≡ [] }
    ensures home { Each (DeskHome (store_of Sp.blocks Sp.held Sp.puts Sp.faults)) desks.old.items benches.new.items }
    ensures many { vec_len benches.new ≡ vec_len desks.old }
    ensures capacity { vec_capacity benches.old ≤ vec_capacity benches.new }
    ensures put { OnOk result (PutGroups desks.old.items out.old.rows out.new.rows) }
    ensures least { OnOk result (Each (PutsAtLeast Sp.puts) desks.old.items benches.new.items) }
    ensures receipts { OnOk result (Each IsReceipt desks.old.items folded.new.items) }
    ensures failed { IfErr result (λ cause. EndFailed Sp.faults desks.old.items benches.new.items cause) }
{
    let mut steps = Steps::<L>::new(blank);
    'ending: while desks.len() > 0 {
        match end_one(desks.remove(0), benches, out, &mut steps) {
            Ok(receipt) => push_in_room(folded, receipt),
            Err(fault) => {
                leave_folders(desks, benches);
                return Err(fault);
            }
        }
    }
    Ok(())
}

/// The groupers of all desks end, and each puts its groups. At a fault those behind it only give their benches back.
pub(crate) fn end_all<Sp: Spill + Send>(
    desks: &mut Vec<Desk<Folder<Sp>>>,
    benches: &mut Vec<Bench<Sp>>,
    out: &mut Kept,
    folded: &mut Vec<Folded>,
) -> Result<(), ExecFault>
    requires no_bench { benches.old.items ≡ [] }
    requires none_folded { folded.old.items ≡ [] }
    requires bench_room { vec_len desks.old ≤ vec_capacity benches.old }
    requires folded_room { vec_len desks.old ≤ vec_capacity folded.old }
    requires widths { All (λ desk. out.old.width ≡ desk.owner.grouper.table.keys + words_of_folds desk.owner.grouper.table.folds) desks.old.items }
    requires out { IsOut out.old }
    ensures empty { desks.new.items ≡ [] }
    ensures home { Each (DeskHome (store_of Sp.blocks Sp.held Sp.puts Sp.faults)) desks.old.items benches.new.items }
    ensures many { vec_len benches.new ≡ vec_len desks.old }
    ensures capacity { vec_capacity benches.old ≤ vec_capacity benches.new }
    ensures put { OnOk result (PutGroups desks.old.items out.old.rows out.new.rows) }
    ensures least { OnOk result (Each (PutsAtLeast Sp.puts) desks.old.items benches.new.items) }
    ensures receipts { OnOk result (Each IsReceipt desks.old.items folded.new.items) }
    ensures failed { IfErr result (λ cause. EndFailed Sp.faults desks.old.items benches.new.items cause) }
{
    end_folders::<Sp, Brand>(desks, benches, out, folded, Blank::new(1))
}
