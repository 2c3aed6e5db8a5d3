//! Plans of one table with groups.
ghost use Rattle.std.specs.Prelude.{◌≡◌, ◌+◌, ◌<◌, ◌≤◌, ◌∷◌, ◌⊎◌, [], All, IfErr, IfOk, OnOk, length, true};
ghost use Rattle.std.specs.List.{AllZip};
ghost use Rattle.pdq_query.specs.Fits.{Fits};
ghost use Rattle.pdq_plan.specs.Plans.{steps_of};
ghost use Rattle.pdq_plan.specs.StepViews.{step_of};
ghost use Rattle.pdq_eval.specs.Results.{folds};
ghost use Rattle.pdq_seat.specs.Stores.{IsBenchLater};
ghost use Rattle.pdq_exec.specs.GroupedTables.{GroupedFailed, IsGroupedRun};
ghost use Rattle.pdq_exec.specs.Runs.{KeepsEnough};

use crate::answer::Ran;
use crate::receipts::leave_lanes;
use pdq_edge::{Spill, Stop};
use pdq_fold::fold_answer;
use pdq_plan::{Plan, Step};
use pdq_result::group_picks;
use pdq_scan::{lanes_scan_the_step, table_lanes};
use pdq_spill::{Bench, ExecFault};
use pdq_table::Stored;
use std::alloc::Global;
use std::thread::Threads;

/// Runs the plan of one table with groups.
pub(crate) fn grouped_table<R: Threads + Sync, Sp: Spill + Send, St: Stop>(
    rt: &R,
    alloc: Global,
    stored: &Stored,
    plan: &Plan,
    step: &Step,
    scans: u32,
    benches: &mut Vec<Bench<Sp>>,
    stop: &mut St,
) -> Result<Ran, ExecFault>
    requires query { Fits stored.now.schema.shapes plan.now.query }
    requires left { KeepsEnough stored.now plan.now }
    requires scans { (1 ≤ scans) × (scans ≤ 16) }
    requires only { steps_of plan.now ≡ step_of step.now ∷ [] }
    requires folds { folds plan.now.query ≡ true }
    requires some { 0 < length benches.old.items }
    requires frames { All (λ b. 2 ≤ b.region.frames) benches.old.items }
    ensures benches { AllZip (IsBenchLater Sp.blocks Sp.faults Sp.puts) benches.old.items benches.new.items }
    ensures stop_kept { St.keeps stop.old stop.new }
    ensures asked_later { St.asked stop.old ≤ St.asked stop.new }
    ensures ran { IfOk result (IsGroupedRun Sp.blocks Sp.puts stored.now plan.now scans benches.old.items benches.new.items) }
    ensures told { OnOk result (St.told stop.new ≡ St.told stop.old) }
    ensures failed { IfErr result (GroupedFailed Sp.faults stored.now plan.now benches.old.items benches.new.items (St.told stop.old) (St.told stop.new) (St.last stop.new)) }
{
    lanes_scan_the_step();
    let dict = stored.dict();
    let shapes = stored.schema().shapes();
    let Ok(picks) = group_picks(alloc, plan) else {
        return Err(ExecFault::Memory);
    };
    let Ok(mut lanes) = table_lanes(alloc, stored, plan, step, scans, Some(&picks)) else {
        return Err(ExecFault::Memory);
    };
    let made = fold_answer(rt, alloc, dict, shapes, plan, &mut lanes, benches, stop)?;
    let mut scanned = Vec::new(alloc);
    let Ok(()) = leave_lanes(lanes, &mut scanned) else {
        return Err(ExecFault::Memory);
    };
    Ok(Ran {
        rows: made.rows,
        built: Vec::new(alloc),
        folded: made.folded,
        scanned,
    })
}
