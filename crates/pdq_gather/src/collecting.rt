//! The last step of a query without groups over one table: its rows as they come.
ghost use Rattle.std.specs.Prelude.{◌≡◌, ◌+◌, ◌^◌, ◌<◌, ◌≤◌, ◌⊎◌, ◌++◌, [], ℕ, ℤ, List, All, OnOk, IfOk, IfErr, length, map, true, false};
ghost use Rattle.pdq_exchange.specs.Waves.{IsSamePlan, at_each};
ghost use Rattle.pdq_owner.specs.Phases.{CountsGiven, LaneFailed, WasStopped};
ghost use Rattle.pdq_gather.specs.Rows.{Collected, Comes, IsFreshDesk};

use crate::limit::MOST;
use crate::plans::plan_by_first;
use pdq_edge::Stop;
use pdq_exchange::{Desk, Lane, Scanner, Wave};
use pdq_owner::{Collector, Kept, waves};
use pdq_spill::ExecFault;
use std::alloc::Global;
use std::thread::Threads;

/// So many owners at their desks, with no row.
fn collectors(alloc: Global, owners: u32, width: u32) -> Result<Vec<Desk<Collector>>, ExecFault>
    requires low { 1 ≤ width }
    requires high { width ≤ 511 }
    ensures count { IfOk result (λ desks. length desks.items ≡ owners) }
    ensures fresh { IfOk result (λ desks. All (IsFreshDesk width) desks.items) }
    ensures failed { IfErr result (λ cause. cause ≡ ExecFault.Memory) }
{
    let mut desks = Vec::new(alloc);
    'making: for _owner in 0..owners {
        let kept = Kept::new(alloc, width, Some(MOST + 1));
        let Ok(desk) = Desk::new(alloc, Collector::new(kept), width) else {
            return Err(ExecFault::Memory);
        };
        let Ok(()) = desks.push(desk) else {
            return Err(ExecFault::Memory);
        };
    }
    Ok(desks)
}

/// Puts what the owners hold behind the others.
fn leave_collectors(desks: Vec<Desk<Collector>>, kept: &mut Vec<Kept>) -> Result<(), ExecFault>
    ensures kept { OnOk result (kept.new.items ≡ kept.old.items ++ map (λ desk. desk.owner.out) desks.items) }
    ensures failed { IfErr result (λ cause. cause ≡ ExecFault.Memory) }
{
    'leaving: for desk in desks {
        let Ok(()) = kept.push(desk.leave().leave()) else {
            return Err(ExecFault::Memory);
        };
    }
    Ok(())
}

/// So many owners keep what the lanes give, each of its own `Kept`. The answer is false where the lanes have more than 20,000,000 rows; the sum over the
/// owners is looked at after each wave, so that few more are ever held.
///
/// # Errors
/// The fault of a lane; `Stopped` where `stop` said so; and `Memory`.
pub fn collect<R: Threads + Sync, Sc: Scanner, St: Stop>(
    rt: &R,
    alloc: Global,
    lanes: &mut [Lane<Sc>],
    owners: u32,
    kept: &mut Vec<Kept>,
    plan: &mut Wave,
    width: u32,
    stop: &mut St,
) -> Result<bool, ExecFault>
    requires low { 1 ≤ width }
    requires high { width ≤ 511 }
    requires lanes { length lanes.old ≡ length plan.old.given }
    requires plan { plan.old.width ≡ width }
    requires owners { 1 ≤ owners }
    requires none_kept { kept.old.items ≡ [] }
    requires lane_widths { All (λ lane. (Sc.width lane.scanner ≡ width) × (lane.load.batch.width ≡ width)) lanes.old }
    ensures plan { IsSamePlan plan.old plan.new }
    ensures lanes_kept { at_each lanes.old lanes.new (λ i old new. Sc.keeps old.scanner new.scanner) }
    ensures stop_kept { St.keeps stop.old stop.new }
    ensures asked_later { St.asked stop.old ≤ St.asked stop.new }
    ensures counted { OnOk result (at_each lanes.old lanes.new (λ i old new. CountsGiven Sc.left old new)) }
    ensures ended { IfOk result (λ whole. whole ≡ true → All (λ lane. (Sc.left lane.scanner).count ≡ 0) lanes.new) }
    ensures over { IfOk result (λ whole. whole ≡ false → (rows : List (List ℤ)) → Comes Sc.left lanes.old rows → 20000000 < length rows) }
    ensures collected { IfOk result (λ whole. whole ≡ true → (rows : List (List ℤ)) → Comes Sc.left lanes.old rows → Collected rows kept.new.items) }
    ensures widths { IfOk result (λ whole. whole ≡ true → All (λ k. k.width ≡ width) kept.new.items) }
    ensures told { OnOk result (St.told stop.new ≡ St.told stop.old) }
    ensures failed { IfErr result (λ cause. (((cause ≡ ExecFault.Memory) ⊎ LaneFailed Sc.fault lanes.new cause) × (St.told stop.new ≡ St.told stop.old)) ⊎ WasStopped (St.told stop.old) (St.told stop.new) (St.last stop.new) cause) }
{
    let mut desks = collectors(alloc, owners, width)?;
    let whole = waves(rt, lanes, &mut desks, plan, Some(MOST), stop)?;
    if !whole {
        return Ok(false);
    }
    leave_collectors(desks, kept)?;
    Ok(true)
}

/// As `collect`, with a plan of its own: rows go to the owners by all their words.
///
/// # Errors
/// As `collect`.
pub fn collect_step<R: Threads + Sync, Sc: Scanner, St: Stop>(
    rt: &R,
    alloc: Global,
    lanes: &mut [Lane<Sc>],
    owners: u32,
    width: u32,
    kept: &mut Vec<Kept>,
    stop: &mut St,
) -> Result<bool, ExecFault>
    requires low { 1 ≤ width }
    requires high { width ≤ 511 }
    requires count { length lanes.old < 2 ^ 32 }
    requires owners { 1 ≤ owners }
    requires none_kept { kept.old.items ≡ [] }
    requires lane_widths { All (λ lane. (Sc.width lane.scanner ≡ width) × (lane.load.batch.width ≡ width)) lanes.old }
    ensures lanes_kept { at_each lanes.old lanes.new (λ i old new. Sc.keeps old.scanner new.scanner) }
    ensures stop_kept { St.keeps stop.old stop.new }
    ensures asked_later { St.asked stop.old ≤ St.asked stop.new }
    ensures counted { OnOk result (at_each lanes.old lanes.new (λ i old new. CountsGiven Sc.left old new)) }
    ensures ended { IfOk result (λ whole. whole ≡ true → All (λ lane. (Sc.left lane.scanner).count ≡ 0) lanes.new) }
    ensures over { IfOk result (λ whole. whole ≡ false → (rows : List (List ℤ)) → Comes Sc.left lanes.old rows → 20000000 < length rows) }
    ensures collected { IfOk result (λ whole. whole ≡ true → (rows : List (List ℤ)) → Comes Sc.left lanes.old rows → Collected rows kept.new.items) }
    ensures widths { IfOk result (λ whole. whole ≡ true → All (λ k. k.width ≡ width) kept.new.items) }
    ensures told { OnOk result (St.told stop.new ≡ St.told stop.old) }
    ensures failed { IfErr result (λ cause. (((cause ≡ ExecFault.Memory) ⊎ LaneFailed Sc.fault lanes.new cause) × (St.told stop.new ≡ St.told stop.old)) ⊎ WasStopped (St.told stop.old) (St.told stop.new) (St.last stop.new) cause) }
{
    let Ok(mut plan) = plan_by_first(alloc, lanes.len() as u32, width, width) else {
        return Err(ExecFault::Memory);
    };
    collect(rt, alloc, lanes, owners, kept, &mut plan, width, stop)
}
