//! The last step of a query with groups, over benches.
ghost use Rattle.std.specs.Prelude.{◌≡◌, ◌+◌, ◌^◌, ◌<◌, ◌≤◌, ◌⊎◌, [], ℕ, ℤ, List, All, OnOk, IfOk, IfErr, IsSome, length, vec_len, vec_capacity, true, false};
ghost use Rattle.std.specs.List.{range_with_len, sum_by};
ghost use Rattle.pdq_exchange.specs.Waves.{at_each};
ghost use Rattle.pdq_group.specs.Folds.{AreFoldable, words_of_folds};
ghost use Rattle.pdq_group.specs.Tables.{group_width};
ghost use Rattle.pdq_owner.specs.Phases.{CountsGiven, LaneFailed, WasStopped};
ghost use Rattle.pdq_gather.specs.Homes.{Each, IsAfter, store_of};
ghost use Rattle.pdq_gather.specs.Rows.{Comes};
ghost use Rattle.pdq_gather.specs.Groups.{GroupedInto, IsOut};
ghost use Rattle.pdq_gather.specs.Benches.{BenchFailed, TookEnough};

use crate::benches::groupers_of;
use crate::plans::plan_by_first;
use crate::step::fold_step;
use pdq_edge::{Spill, Stop};
use pdq_exchange::{Lane, Scanner};
use pdq_group::{Folded, GroupShape};
use pdq_owner::Kept;
use pdq_spill::{Bench, ExecFault};
use std::alloc::Global;
use std::thread::Threads;

/// Groups what the lanes give: each bench is an owner, which groups the rows whose key words are its own and overflows into its bench's store. All
/// groups are put to `out`, and on true there is one receipt for each bench, in order. Each bench is back in its place with its frames and its
/// store, whatever the answer. The answer is false where the lanes have more than 20,000,000 rows: then nothing is said of `out`.
///
/// # Errors
/// The fault of a lane; `SpillFault` where the store of a bench failed in this call; `Stopped` where `stop` said so; and `Memory`.
pub fn group_step<R: Threads + Sync, Sc: Scanner, Sp: Spill + Send, St: Stop>(
    rt: &R,
    alloc: Global,
    shape: &GroupShape,
    lanes: &mut [Lane<Sc>],
    benches: &mut Vec<Bench<Sp>>,
    out: &mut Kept,
    folded: &mut Vec<Folded>,
    stop: &mut St,
) -> Result<bool, ExecFault>
    requires low { 1 ≤ shape.now.keys + length shape.now.folds.items }
    requires high { group_width shape.now.keys shape.now.folds.items ≤ 511 }
    requires count { length lanes.old < 2 ^ 32 }
    requires lane_widths { All (λ lane. (Sc.width lane.scanner ≡ shape.now.keys + length shape.now.folds.items) × (lane.load.batch.width ≡ shape.now.keys + length shape.now.folds.items)) lanes.old }
    requires some { 0 < length benches.old.items }
    requires frames { All (λ bench. 2 ≤ bench.region.frames) benches.old.items }
    requires none_folded { folded.old.items ≡ [] }
    requires folded_room { vec_len benches.old ≤ vec_capacity folded.old }
    requires out_width { out.old.width ≡ shape.now.keys + words_of_folds shape.now.folds.items }
    requires none_put { out.old.rows ≡ [] }
    requires out { IsOut out.old }
    ensures back { Each (IsAfter (store_of Sp.blocks Sp.held Sp.puts Sp.faults)) benches.old.items benches.new.items }
    ensures lanes_kept { at_each lanes.old lanes.new (λ i old new. Sc.keeps old.scanner new.scanner) }
    ensures stop_kept { St.keeps stop.old stop.new }
    ensures asked_later { St.asked stop.old ≤ St.asked stop.new }
    ensures counted { OnOk result (at_each lanes.old lanes.new (λ i old new. CountsGiven Sc.left old new)) }
    ensures ended { IfOk result (λ whole. whole ≡ true → All (λ lane. (Sc.left lane.scanner).count ≡ 0) lanes.new) }
    ensures over { IfOk result (λ whole. whole ≡ false → (rows : List (List ℤ)) → Comes Sc.left lanes.old rows → 20000000 < length rows) }
    ensures frames { IfOk result (λ whole. whole ≡ true → Each (λ bench f. f.frames ≡ bench.region.frames) benches.old.items folded.new.items) }
    ensures receipts { IfOk result (λ whole. whole ≡ true → (rows : List (List ℤ)) → Comes Sc.left lanes.old rows → (sum_by (λ f. f.rows) folded.new.items ≡ length rows) × (length rows ≤ 20000000)) }
    ensures grouped { IfOk result (λ whole. whole ≡ true → (rows : List (List ℤ)) → All (λ bench. IsSome (Sp.blocks bench.store)) benches.old.items → Comes Sc.left lanes.old rows → AreFoldable shape.now.folds.items shape.now.keys rows → GroupedInto shape.now.keys shape.now.folds.items (length benches.old.items) rows out.new.rows) }
    ensures least { IfOk result (λ whole. whole ≡ true → (rows : List (List ℤ)) → Comes Sc.left lanes.old rows → TookEnough Sp.puts shape.now.keys shape.now.folds.items rows benches.old.items benches.new.items) }
    ensures told { OnOk result (St.told stop.new ≡ St.told stop.old) }
    ensures failed { IfErr result (λ cause. (((cause ≡ ExecFault.Memory) ⊎ (LaneFailed Sc.fault lanes.new cause ⊎ BenchFailed Sp.faults benches.old.items benches.new.items cause)) × (St.told stop.new ≡ St.told stop.old)) ⊎ WasStopped (St.told stop.old) (St.told stop.new) (St.last stop.new) cause) }
{
    let width = shape.keys + shape.folds.len() as u32;
    let Ok(mut plan) = plan_by_first(alloc, lanes.len() as u32, width, shape.keys) else {
        return Err(ExecFault::Memory);
    };
    let Some(mut groupers) = groupers_of(alloc, shape, benches) else {
        return Err(ExecFault::Memory);
    };
    let ran = fold_step(
        rt,
        alloc,
        lanes,
        &mut groupers,
        benches,
        out,
        folded,
        &mut plan,
        width,
        stop,
    );
    groupers.destroy_empty();
    ran
}
