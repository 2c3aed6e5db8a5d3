//! The phase in which groupers take rows.
ghost use Rattle.std.specs.Prelude.{◌≡◌, ◌+◌, ◌<◌, ◌≤◌, ◌⊎◌, ◌++◌, [], ℕ, ℤ, List, All, OnOk, IfOk, IfErr, length, vec_len, vec_capacity, true, false};
ghost use Rattle.pdq_exchange.specs.Routing.{owner_of};
ghost use Rattle.pdq_exchange.specs.Waves.{IsSamePlan, at_each};
ghost use Rattle.pdq_group.specs.Groupers.{KeepsShape, Took};
ghost use Rattle.pdq_owner.specs.Phases.{CountsGiven, LaneFailed, WasStopped};
ghost use Rattle.pdq_gather.specs.Homes.{Each};
ghost use Rattle.pdq_gather.specs.Rows.{Comes};
ghost use Rattle.pdq_gather.specs.Groups.{DeskStoreFailed, FoldedBy, groupers_at};

use crate::limit::MOST;
use crate::moving::open_folders;
use pdq_edge::{Spill, Stop};
use pdq_exchange::{Desk, Lane, Scanner, Wave};
use pdq_group::Grouper;
use pdq_owner::{Folder, waves};
use pdq_spill::ExecFault;
use std::alloc::Global;
use std::thread::Threads;

/// The groupers go to desks and take what the lanes give; false where that is too many rows. At the first want of memory nothing is taken.
pub(crate) fn fold_phase<R: Threads + Sync, Sc: Scanner, Sp: Spill + Send, St: Stop>(
    rt: &R,
    alloc: Global,
    lanes: &mut [Lane<Sc>],
    groupers: &mut Vec<Grouper<Sp>>,
    desks: &mut Vec<Desk<Folder<Sp>>>,
    plan: &mut Wave,
    width: u32,
    stop: &mut St,
) -> Result<bool, ExecFault>
    requires low { 1 ≤ width }
    requires high { width ≤ 511 }
    requires lanes { length lanes.old ≡ length plan.old.given }
    requires plan { plan.old.width ≡ width }
    requires empty { desks.old.items ≡ [] }
    requires room { vec_len groupers.old ≤ vec_capacity desks.old }
    requires some { 0 < length groupers.old.items }
    requires lane_widths { All (λ lane. (Sc.width lane.scanner ≡ width) × (lane.load.batch.width ≡ width)) lanes.old }
    requires widths { All (λ g. g.table.keys + length g.table.folds ≡ width) groupers.old.items }
    requires fresh { All (λ g. Took g []) groupers.old.items }
    ensures plan { IsSamePlan plan.old plan.new }
    ensures many { vec_len desks.new + vec_len groupers.new ≡ vec_len groupers.old }
    ensures kept { Each KeepsShape groupers.old.items (groupers_at desks.new.items ++ groupers.new.items) }
    ensures lanes_kept { at_each lanes.old lanes.new (λ i old new. Sc.keeps old.scanner new.scanner) }
    ensures stop_kept { St.keeps stop.old stop.new }
    ensures asked_later { St.asked stop.old ≤ St.asked stop.new }
    ensures counted { OnOk result (at_each lanes.old lanes.new (λ i old new. CountsGiven Sc.left old new)) }
    ensures ended { IfOk result (λ whole. whole ≡ true → All (λ lane. (Sc.left lane.scanner).count ≡ 0) lanes.new) }
    ensures folded { IfOk result (λ whole. whole ≡ true → FoldedBy Sc.left (owner_of plan.old.keys (length groupers.old.items)) lanes.old desks.new.items) }
    ensures over { IfOk result (λ whole. whole ≡ false → (rows : List (List ℤ)) → Comes Sc.left lanes.old rows → 20000000 < length rows) }
    ensures none_left { OnOk result (groupers.new.items ≡ []) }
    ensures told { OnOk result (St.told stop.new ≡ St.told stop.old) }
    ensures failed { IfErr result (λ cause. (((cause ≡ ExecFault.Memory) ⊎ (LaneFailed Sc.fault lanes.new cause ⊎ DeskStoreFailed groupers.old.items desks.new.items cause)) × (St.told stop.new ≡ St.told stop.old)) ⊎ WasStopped (St.told stop.old) (St.told stop.new) (St.last stop.new) cause) }
{
    if !open_folders(alloc, groupers, desks, width) {
        return Err(ExecFault::Memory);
    }
    waves(rt, lanes, desks, plan, Some(MOST), stop)
}
