//! One phase of a run: waves until each scanner is at its end.
ghost use Rattle.std.specs.Prelude.{◌≡◌, ◌<◌, ◌≤◌, ◌⊎◌, ℕ, All, List, [], Option, OnOk, IfOk, IfErr, Bool, true, false, length, ⊤};
ghost use Rattle.pdq_edge.specs.Causes.{Rose};
ghost use Rattle.pdq_exchange.specs.Routing.{owner_of};
ghost use Rattle.pdq_exchange.specs.Waves.{IsSamePlan, at_each};
ghost use Rattle.pdq_owner.specs.Phases.{CountsGiven, DeskFailed, HoldFew, HoldMore, LaneFailed, SomeFull, WasStopped, WereSent};

use crate::fills::Fills;
use pdq_edge::Stop;
use pdq_exchange::{Desk, Lane, Scanner, Wave, wave};
use pdq_spill::ExecFault;
use std::thread::Threads;

/// Asks whether to stop.
pub fn ask<St: Stop>(stop: &mut St) -> Result<(), ExecFault>
    ensures asked { Rose (St.asked stop.old) (St.asked stop.new) }
    ensures asked_later { St.asked stop.old ≤ St.asked stop.new }
    ensures told { OnOk result (St.told stop.new ≡ St.told stop.old) }
    ensures stopped { IfErr result (λ cause. WasStopped (St.told stop.old) (St.told stop.new) (St.last stop.new) cause) }
    ensures kept { St.keeps stop.old stop.new }
{
    match stop.stopped() {
        None => Ok(()),
        Some(step) => Err(ExecFault::Stopped { step }),
    }
}

/// Whether some owner has stopped taking rows.
fn any_full<Ow: Fills>(desks: &[Desk<Ow>]) -> bool
    ensures some { result ≡ true → SomeFull Ow.full desks.now }
    ensures none { result ≡ false → All (λ desk. Ow.full desk.owner ≡ false) desks.now }
{
    for desk in desks {
        if desk.owner().is_full() {
            return true;
        }
    }
    false
}

/// Whether the owners together hold more rows than they may, where there is a limit.
fn hold_more<Ow: Fills>(desks: &[Desk<Ow>], most: Option<u64>) -> bool
    ensures more { result ≡ true → HoldMore (λ desk. Ow.count desk.owner) most desks.now }
    ensures few { result ≡ false → HoldFew (λ desk. Ow.count desk.owner) most desks.now }
{
    let Some(mut room) = most else {
        return false;
    };
    for desk in desks {
        let count = desk.owner().count();
        if count > room {
            return true;
        }
        room -= count;
    }
    false
}

/// Whether no more rows are to come to these owners.
fn must_stop<Ow: Fills>(desks: &[Desk<Ow>], most: Option<u64>) -> bool
    ensures over { result ≡ true → SomeFull Ow.full desks.now ⊎ HoldMore (λ desk. Ow.count desk.owner) most desks.now }
    ensures none_full { result ≡ false → All (λ desk. Ow.full desk.owner ≡ false) desks.now }
    ensures few { result ≡ false → HoldFew (λ desk. Ow.count desk.owner) most desks.now }
{
    if any_full(desks) {
        return true;
    }
    hold_more(desks, most)
}

/// Goes on until each scanner is at its end, or some owner takes no more rows, or the owners together hold more than `most` rows, where that is a
/// limit: then the answer is false. The owners are looked at after each wave, and `stop` is asked between waves.
///
/// # Errors
/// The fault of a scanner or of an owner, and `Stopped` where `stop` said so.
pub fn waves<R: Threads + Sync, Sc: Scanner, Ow: Fills, St: Stop>(
    rt: &R,
    lanes: &mut [Lane<Sc>],
    desks: &mut [Desk<Ow>],
    plan: &mut Wave,
    most: Option<u64>,
    stop: &mut St,
) -> Result<bool, ExecFault>
    requires lanes { length lanes.old ≡ length plan.old.given }
    requires desks { 0 < length desks.old }
    requires lane_widths { All (λ lane. (Sc.width lane.scanner ≡ plan.old.width) × (lane.load.batch.width ≡ plan.old.width)) lanes.old }
    requires desk_widths { All (λ desk. (Ow.width desk.owner ≡ plan.old.width) × (desk.batch.width ≡ plan.old.width)) desks.old }
    ensures plan { IsSamePlan plan.old plan.new }
    ensures lanes_kept { at_each lanes.old lanes.new (λ i old new. Sc.keeps old.scanner new.scanner) }
    ensures desks_kept { at_each desks.old desks.new (λ j old new. Ow.keeps old.owner new.owner) }
    ensures stop_kept { St.keeps stop.old stop.new }
    ensures asked_later { St.asked stop.old ≤ St.asked stop.new }
    ensures sent { OnOk result (WereSent Sc.left Ow.takes (owner_of plan.old.keys (length desks.old)) lanes.old lanes.new desks.old desks.new) }
    ensures counted { OnOk result (at_each lanes.old lanes.new (λ i old new. CountsGiven Sc.left old new)) }
    ensures ended { IfOk result (λ whole. whole ≡ true → All (λ lane. (Sc.left lane.scanner).count ≡ 0) lanes.new) }
    ensures none_full { IfOk result (λ whole. whole ≡ true → All (λ desk. Ow.full desk.owner ≡ false) desks.new) }
    ensures few { IfOk result (λ whole. whole ≡ true → HoldFew (λ desk. Ow.count desk.owner) most desks.new) }
    ensures over { IfOk result (λ whole. whole ≡ false → SomeFull Ow.full desks.new ⊎ HoldMore (λ desk. Ow.count desk.owner) most desks.new) }
    ensures told { OnOk result (St.told stop.new ≡ St.told stop.old) }
    ensures failed { IfErr result (λ cause. ((LaneFailed Sc.fault lanes.new cause ⊎ DeskFailed Ow.fault desks.new cause) × (St.told stop.new ≡ St.told stop.old)) ⊎ WasStopped (St.told stop.old) (St.told stop.new) (St.last stop.new) cause) }
{
    'rounds: loop {
        let more = wave(rt, lanes, desks, plan)?;
        if must_stop(desks, most) {
            return Ok(false);
        }
        if !more {
            return Ok(true);
        }
        ask(stop)?;
    }
}
