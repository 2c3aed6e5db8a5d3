//! The last step of a query with groups.
ghost use Rattle.std.specs.Prelude.{◌≡◌, ◌+◌, ◌<◌, ◌≤◌, ◌⊎◌, [], ℕ, ℤ, List, All, OnOk, IfOk, IfErr, IsSome, Ok, Err, length, vec_len, vec_capacity, true, false};
ghost use Rattle.std.specs.List.{range_with_len, sum_by};
ghost use Rattle.pdq_exchange.specs.Waves.{IsSamePlan, at_each};
ghost use Rattle.pdq_group.specs.declared.shape.Fold.{Fold};
ghost use Rattle.pdq_group.specs.Folds.{AreFoldable, words_of_folds};
ghost use Rattle.pdq_group.specs.Groupers.{KeepsShape, Took};
ghost use Rattle.pdq_owner.specs.Phases.{CountsGiven, LaneFailed, WasStopped};
ghost use Rattle.pdq_gather.specs.Homes.{Each, HomeOf, StoreFailed, store_of};
ghost use Rattle.pdq_gather.specs.Rows.{Comes};
ghost use Rattle.pdq_gather.specs.Groups.{AreAlike, DeskHome, EndFailed, GroupedInto, IsOut, IsReceipt, PutEnough, PutGroups, PutsAtLeast};

use crate::ending::{end_all, leave_folders, leave_groupers};
use crate::grouping::fold_phase;
use pdq_edge::{Spill, Stop};
use pdq_exchange::{Desk, Lane, Scanner, Wave};
use pdq_group::{Folded, Grouper};
use pdq_owner::{Folder, Kept};
use pdq_spill::{Bench, ExecFault};
use std::alloc::Global;
use std::thread::Threads;

/// All groupers of the desks end and put their groups where the rows were taken whole; else all give their benches back.
fn end_or_leave<Sp: Spill + Send>(
    whole: Result<bool, ExecFault>,
    desks: &mut Vec<Desk<Folder<Sp>>>,
    benches: &mut Vec<Bench<Sp>>,
    out: &mut Kept,
    folded: &mut Vec<Folded>,
) -> Result<bool, ExecFault>
    requires no_bench { benches.old.items ≡ [] }
    requires none_folded { folded.old.items ≡ [] }
    requires bench_room { vec_len desks.old ≤ vec_capacity benches.old }
    requires folded_room { vec_len desks.old ≤ vec_capacity folded.old }
    requires widths { All (λ desk. out.old.width ≡ desk.owner.grouper.table.keys + words_of_folds desk.owner.grouper.table.folds) desks.old.items }
    requires out { IsOut out.old }
    ensures empty { desks.new.items ≡ [] }
    ensures home { Each (DeskHome (store_of Sp.blocks Sp.held Sp.puts Sp.faults)) desks.old.items benches.new.items }
    ensures many { vec_len benches.new ≡ vec_len desks.old }
    ensures capacity { vec_capacity benches.old ≤ vec_capacity benches.new }
    ensures whole { IfOk result (λ ended. Ok ended ≡ whole) }
    ensures put { IfOk result (λ ended. ended ≡ true → PutGroups desks.old.items out.old.rows out.new.rows) }
    ensures least { IfOk result (λ ended. ended ≡ true → Each (PutsAtLeast Sp.puts) desks.old.items benches.new.items) }
    ensures receipts { IfOk result (λ ended. ended ≡ true → Each IsReceipt desks.old.items folded.new.items) }
    ensures failed { IfErr result (λ cause. (whole ≡ Err cause) ⊎ ((whole ≡ Ok true) × EndFailed Sp.faults desks.old.items benches.new.items cause)) }
{
    if let Ok(true) = whole {
        end_all(desks, benches, out, folded)?;
        return Ok(true);
    }
    leave_folders(desks, benches);
    whole
}

/// The owners group what the lanes give, and all groups are put to `out`. The bench of each grouper is in `benches` afterwards, whatever the answer,
/// in the order of the groupers. The answer is false where the lanes have more than 20,000,000 rows: then nothing is said of `out`.
///
/// # Errors
/// The fault of a lane; `SpillFault` where a grouper's store failed in this call; `Stopped` where `stop` said so; and `Memory`.
pub fn fold_step<R: Threads + Sync, Sc: Scanner, Sp: Spill + Send, St: Stop>(
    rt: &R,
    alloc: Global,
    lanes: &mut [Lane<Sc>],
    groupers: &mut Vec<Grouper<Sp>>,
    benches: &mut Vec<Bench<Sp>>,
    out: &mut Kept,
    folded: &mut Vec<Folded>,
    plan: &mut Wave,
    width: u32,
    stop: &mut St,
) -> Result<bool, ExecFault>
    requires low { 1 ≤ width }
    requires high { width ≤ 511 }
    requires lanes { length lanes.old ≡ length plan.old.given }
    requires plan { plan.old.width ≡ width }
    requires some { 0 < length groupers.old.items }
    requires no_bench { benches.old.items ≡ [] }
    requires none_folded { folded.old.items ≡ [] }
    requires bench_room { vec_len groupers.old ≤ vec_capacity benches.old }
    requires folded_room { vec_len groupers.old ≤ vec_capacity folded.old }
    requires lane_widths { All (λ lane. (Sc.width lane.scanner ≡ width) × (lane.load.batch.width ≡ width)) lanes.old }
    requires widths { All (λ g. g.table.keys + length g.table.folds ≡ width) groupers.old.items }
    requires out_widths { All (λ g. out.old.width ≡ g.table.keys + words_of_folds g.table.folds) groupers.old.items }
    requires fresh { All (λ g. Took g []) groupers.old.items }
    requires none_put { out.old.rows ≡ [] }
    requires out { IsOut out.old }
    ensures empty { groupers.new.items ≡ [] }
    ensures back { Each (HomeOf (store_of Sp.blocks Sp.held Sp.puts Sp.faults)) groupers.old.items benches.new.items }
    ensures plan { IsSamePlan plan.old plan.new }
    ensures lanes_kept { at_each lanes.old lanes.new (λ i old new. Sc.keeps old.scanner new.scanner) }
    ensures stop_kept { St.keeps stop.old stop.new }
    ensures asked_later { St.asked stop.old ≤ St.asked stop.new }
    ensures counted { OnOk result (at_each lanes.old lanes.new (λ i old new. CountsGiven Sc.left old new)) }
    ensures ended { IfOk result (λ whole. whole ≡ true → All (λ lane. (Sc.left lane.scanner).count ≡ 0) lanes.new) }
    ensures over { IfOk result (λ whole. whole ≡ false → (rows : List (List ℤ)) → Comes Sc.left lanes.old rows → 20000000 < length rows) }
    ensures frames { IfOk result (λ whole. whole ≡ true → Each (λ g f. f.frames ≡ g.table.frames) groupers.old.items folded.new.items) }
    ensures receipts { IfOk result (λ whole. whole ≡ true → (rows : List (List ℤ)) → Comes Sc.left lanes.old rows → (sum_by (λ f. f.rows) folded.new.items ≡ length rows) × (length rows ≤ 20000000)) }
    ensures grouped { IfOk result (λ whole. whole ≡ true → (keys : ℕ) (folds : List Fold) (rows : List (List ℤ)) → plan.old.keys ≡ range_with_len 0 keys → AreAlike keys folds groupers.old.items → All (λ g. IsSome g.store.blocks) groupers.old.items → Comes Sc.left lanes.old rows → AreFoldable folds keys rows → GroupedInto keys folds (length groupers.old.items) rows out.new.rows) }
    ensures least { IfOk result (λ whole. whole ≡ true → (keys : ℕ) (folds : List Fold) (rows : List (List ℤ)) → plan.old.keys ≡ range_with_len 0 keys → AreAlike keys folds groupers.old.items → Comes Sc.left lanes.old rows → PutEnough Sp.puts keys folds rows groupers.old.items benches.new.items) }
    ensures told { OnOk result (St.told stop.new ≡ St.told stop.old) }
    ensures failed { IfErr result (λ cause. (((cause ≡ ExecFault.Memory) ⊎ (LaneFailed Sc.fault lanes.new cause ⊎ StoreFailed Sp.faults groupers.old.items benches.new.items cause)) × (St.told stop.new ≡ St.told stop.old)) ⊎ WasStopped (St.told stop.old) (St.told stop.new) (St.last stop.new) cause) }
{
    let Ok(mut desks) = Vec::with_capacity(alloc, groupers.len()) else {
        leave_groupers(groupers, benches);
        return Err(ExecFault::Memory);
    };
    let whole = fold_phase(rt, alloc, lanes, groupers, &mut desks, plan, width, stop);
    let ended = end_or_leave(whole, &mut desks, benches, out, folded);
    leave_groupers(groupers, benches);
    desks.destroy_empty();
    ended
}
