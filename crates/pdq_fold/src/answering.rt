//! The answer of a query with groups, from the rows that lanes give.
ghost use Rattle.std.specs.Prelude.{◌≡◌, ◌+◌, ◌^◌, ◌<◌, ◌≤◌, List, All, IfErr, IfOk, IsSome, OnOk, Some, length, map, sum_by, true};
ghost use Rattle.std.specs.List.{AllZip};
ghost use Rattle.pdq_value.specs.Cells.{scale_of};
ghost use Rattle.pdq_value.specs.Tables.{IsShape, TableView, shape_of};
ghost use Rattle.pdq_query.specs.Answer.{answer, choices};
ghost use Rattle.pdq_query.specs.Fits.{Fits};
ghost use Rattle.pdq_mean.specs.Loops.{lists_of};
ghost use Rattle.pdq_exchange.specs.Waves.{at_each};
ghost use Rattle.pdq_owner.specs.Phases.{CountsGiven};
ghost use Rattle.pdq_eval.specs.Overflow.{blocks_of_groups};
ghost use Rattle.pdq_eval.specs.Results.{folds};
ghost use Rattle.pdq_result.specs.Answers.{IsPlanOver};
ghost use Rattle.pdq_seat.specs.Seating.{all_frames};
ghost use Rattle.pdq_seat.specs.Stores.{IsBenchLater};
ghost use Rattle.pdq_fold.specs.Folding.{AreReceipts, FoldFailed, GiveInputs, input_width};

use crate::folding::fold_lanes;
use pdq_dict::Dict;
use pdq_edge::{Spill, Stop};
use pdq_exchange::{Lane, Scanner};
use pdq_group::Folded;
use pdq_plan::Plan;
use pdq_result::grouped_answer;
use pdq_spill::{Bench, ExecFault};
use pdq_value::{Cell, TableShape};
use std::alloc::Global;
use std::slice;
use std::thread::Threads;

/// The answer of a query with groups, and who made it.
#[derive(Drop)]
pub struct FoldedRows {
    /// The rows of the answer.
    pub rows: Vec<Vec<Cell>>,
    /// One receipt of each owner, owner 0 first.
    pub folded: Vec<Folded>,
}

/// The answer of a query with a fold or GROUP BY, from lanes that give the words that its running rows hand to groupers. `dict` and `shapes` are those
/// of the stored tables. Each bench is back in its place with its frames and its store, whatever the answer.
///
/// # Errors
/// As `fold_lanes`.
pub fn fold_answer<R: Threads + Sync, Sc: Scanner, Sp: Spill + Send, St: Stop>(
    rt: &R,
    alloc: Global,
    dict: &Dict,
    shapes: &[TableShape],
    plan: &Plan,
    lanes: &mut [Lane<Sc>],
    benches: &mut Vec<Bench<Sp>>,
    stop: &mut St,
) -> Result<FoldedRows, ExecFault>
    requires kinds { All IsShape (map shape_of shapes.now) }
    requires fits { Fits (map shape_of shapes.now) plan.now.query }
    requires folds { folds plan.now.query ≡ true }
    requires count { length lanes.old < 2 ^ 32 }
    requires lane_widths { All (λ lane. (Sc.width lane.scanner ≡ input_width plan.now.query) × (lane.load.batch.width ≡ input_width plan.now.query)) lanes.old }
    requires some { 0 < length benches.old.items }
    requires frames { All (λ bench. 2 ≤ bench.region.frames) benches.old.items }
    ensures benches { AllZip (IsBenchLater Sp.blocks Sp.faults Sp.puts) benches.old.items benches.new.items }
    ensures lanes_kept { at_each lanes.old lanes.new (λ i old new. Sc.keeps old.scanner new.scanner) }
    ensures stop_kept { St.keeps stop.old stop.new }
    ensures asked_later { St.asked stop.old ≤ St.asked stop.new }
    ensures counted { OnOk result (at_each lanes.old lanes.new (λ i old new. CountsGiven Sc.left old new)) }
    ensures ended { OnOk result (All (λ lane. (Sc.left lane.scanner).count ≡ 0) lanes.new) }
    ensures answer { IfOk result (λ made. (tables : List TableView) → IsPlanOver dict.now (map shape_of shapes.now) plan.now tables → All (λ bench. IsSome (Sp.blocks bench.store)) benches.old.items →
        GiveInputs Sc.left tables plan.now lanes.old → answer tables plan.now.query ≡ Some (lists_of made.rows.items)) }
    ensures scales { IfOk result (λ made. All (All (λ c. scale_of c ≤ 8)) (lists_of made.rows.items)) }
    ensures receipts { IfOk result (λ made. AreReceipts benches.old.items made.folded.items) }
    ensures rows { IfOk result (λ made. (tables : List TableView) → GiveInputs Sc.left tables plan.now lanes.old → sum_by (λ f. f.rows) made.folded.items ≡ length (choices tables plan.now.query)) }
    ensures least { IfOk result (λ made. (tables : List TableView) → GiveInputs Sc.left tables plan.now lanes.old →
        sum_by (λ b. Sp.puts b.store) benches.old.items + blocks_of_groups tables plan.now.query (all_frames benches.old.items) ≤ sum_by (λ b. Sp.puts b.store) benches.new.items) }
    ensures told { OnOk result (St.told stop.new ≡ St.told stop.old) }
    ensures failed { IfErr result (FoldFailed Sp.faults Sc.left Sc.fault plan.now lanes.old lanes.new benches.old.items benches.new.items (St.told stop.old) (St.told stop.new) (St.last stop.new)) }
{
    let grouped = fold_lanes(rt, alloc, plan, lanes, benches, stop)?;
    let groups = slice::from_ref(&grouped.groups);
    let Ok(rows) = grouped_answer(alloc, dict, shapes, plan, groups) else {
        return Err(ExecFault::Memory);
    };
    Ok(FoldedRows {
        rows,
        folded: grouped.folded,
    })
}
