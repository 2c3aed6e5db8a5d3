//! The rows that lanes give are grouped over benches.
ghost use Rattle.std.specs.Prelude.{◌≡◌, ◌+◌, ◌^◌, ◌<◌, ◌≤◌, List, All, IfErr, IfOk, IsSome, OnOk, length, sum_by, true};
ghost use Rattle.std.specs.List.{AllZip};
ghost use Rattle.pdq_value.specs.Tables.{TableView};
ghost use Rattle.pdq_query.specs.Answer.{choices};
ghost use Rattle.pdq_exchange.specs.Waves.{at_each};
ghost use Rattle.pdq_owner.specs.Phases.{CountsGiven};
ghost use Rattle.pdq_eval.specs.Overflow.{blocks_of_groups};
ghost use Rattle.pdq_eval.specs.Results.{folds};
ghost use Rattle.pdq_result.specs.Answers.{AreGroups};
ghost use Rattle.pdq_seat.specs.Seating.{all_frames};
ghost use Rattle.pdq_seat.specs.Stores.{IsBenchLater};
ghost use Rattle.pdq_fold.specs.Folding.{AreReceipts, FoldFailed, GiveInputs, input_width};

use pdq_edge::{Spill, Stop};
use pdq_exchange::{Lane, Scanner};
use pdq_gather::group_step;
use pdq_group::Folded;
use pdq_owner::Kept;
use pdq_plan::Plan;
use pdq_result::{group_row_width, group_shape};
use pdq_spill::{Bench, ExecFault};
use std::alloc::Global;
use std::thread::Threads;

/// What grouping leaves.
#[derive(Drop)]
pub struct Grouped {
    /// The groups of all owners, each a row of words: those of its key, and then those of its folds.
    pub groups: Kept,
    /// One receipt of each owner, owner 0 first.
    pub folded: Vec<Folded>,
}

/// Groups what the lanes give: the words that the running rows of a query with a fold or GROUP BY hand to groupers. Each bench is an owner, which groups
/// the rows whose key words are its own and overflows into its bench's store. Each bench is back in its place with its frames and its store, whatever
/// the answer.
///
/// # Errors
/// `RowLimit` where the lanes give more than 20,000,000 rows; the fault of a lane; `SpillFault` where the store of a bench failed in this call;
/// `Stopped` where `stop` said so; and `Memory`.
pub fn fold_lanes<R: Threads + Sync, Sc: Scanner, Sp: Spill + Send, St: Stop>(
    rt: &R,
    alloc: Global,
    plan: &Plan,
    lanes: &mut [Lane<Sc>],
    benches: &mut Vec<Bench<Sp>>,
    stop: &mut St,
) -> Result<Grouped, ExecFault>
    requires folds { folds plan.now.query ≡ true }
    requires groups { length plan.now.query.groups ≤ 16 }
    requires items { length plan.now.query.items ≤ 16 }
    requires count { length lanes.old < 2 ^ 32 }
    requires lane_widths { All (λ lane. (Sc.width lane.scanner ≡ input_width plan.now.query) × (lane.load.batch.width ≡ input_width plan.now.query)) lanes.old }
    requires some { 0 < length benches.old.items }
    requires frames { All (λ bench. 2 ≤ bench.region.frames) benches.old.items }
    ensures benches { AllZip (IsBenchLater Sp.blocks Sp.faults Sp.puts) benches.old.items benches.new.items }
    ensures lanes_kept { at_each lanes.old lanes.new (λ i old new. Sc.keeps old.scanner new.scanner) }
    ensures stop_kept { St.keeps stop.old stop.new }
    ensures asked_later { St.asked stop.old ≤ St.asked stop.new }
    ensures counted { OnOk result (at_each lanes.old lanes.new (λ i old new. CountsGiven Sc.left old new)) }
    ensures ended { OnOk result (All (λ lane. (Sc.left lane.scanner).count ≡ 0) lanes.new) }
    ensures groups { IfOk result (λ grouped. (tables : List TableView) → All (λ bench. IsSome (Sp.blocks bench.store)) benches.old.items → GiveInputs Sc.left tables plan.now lanes.old → AreGroups tables plan.now grouped.groups.rows) }
    ensures receipts { IfOk result (λ grouped. AreReceipts benches.old.items grouped.folded.items) }
    ensures rows { IfOk result (λ grouped. (tables : List TableView) → GiveInputs Sc.left tables plan.now lanes.old → sum_by (λ f. f.rows) grouped.folded.items ≡ length (choices tables plan.now.query)) }
    ensures least { IfOk result (λ grouped. (tables : List TableView) → GiveInputs Sc.left tables plan.now lanes.old →
        sum_by (λ b. Sp.puts b.store) benches.old.items + blocks_of_groups tables plan.now.query (all_frames benches.old.items) ≤ sum_by (λ b. Sp.puts b.store) benches.new.items) }
    ensures told { OnOk result (St.told stop.new ≡ St.told stop.old) }
    ensures failed { IfErr result (FoldFailed Sp.faults Sc.left Sc.fault plan.now lanes.old lanes.new benches.old.items benches.new.items (St.told stop.old) (St.told stop.new) (St.last stop.new)) }
{
    let Ok(shape) = group_shape(alloc, plan.query()) else {
        return Err(ExecFault::Memory);
    };
    let mut groups = Kept::new(alloc, group_row_width(&shape), None);
    let Ok(mut folded) = Vec::with_capacity(alloc, benches.len()) else {
        return Err(ExecFault::Memory);
    };
    let whole = group_step(
        rt,
        alloc,
        &shape,
        lanes,
        benches,
        &mut groups,
        &mut folded,
        stop,
    )?;
    if !whole {
        return Err(ExecFault::RowLimit);
    }
    Ok(Grouped { groups, folded })
}
