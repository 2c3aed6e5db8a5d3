//! The two halves of a round: the lanes fill, and then the desks absorb.
ghost use Rattle.std.specs.Prelude.{◌≡◌, ◌<◌, ◌≤◌, ℕ, All, Ok, OnOk, length, map, slice_index_or};
ghost use Rattle.pdq_exchange.specs.Batches.{Row};
ghost use Rattle.pdq_exchange.specs.Loads.{AreRouted, rows_given};
ghost use Rattle.pdq_exchange.specs.Routing.{IsRouted, owner_of, share_of};
ghost use Rattle.pdq_exchange.specs.Waves.{DeskRan, LaneRan, at_each, desks_answer, lanes_answer};

use crate::lane::Lane;
use crate::load::Load;
use crate::{Desk, Owner, Scanner};
use pdq_spill::ExecFault;
use std::mem::swap;
use std::thread;
use std::thread::Threads;

/// So few rows together are absorbed sooner than a thread is started.
const FEW_ROWS: u32 = 512;

/// Each lane fills its batch, in at most so many threads.
pub(crate) fn fill_all<R: Threads + Sync, Sc: Scanner>(
    rt: &R,
    lanes: &mut [Lane<Sc>],
    keys: &[u32],
    owners: usize,
    threads: usize,
)
    requires threads { 0 < threads }
    requires wide { All (λ lane. Sc.width lane.scanner ≡ lane.load.batch.width) lanes.old }
    requires keys { All (λ lane. All (λ k. k < lane.load.batch.width) keys.now) lanes.old }
    requires some { 0 < owners }
    ensures ran { at_each lanes.old lanes.new (λ i old new. LaneRan Sc.left Sc.fault old.scanner new.scanner old.scanned new.scanned new.load.batch.rows new.outcome) }
    ensures routed { at_each lanes.old lanes.new (λ i old new. OnOk new.outcome (IsRouted (owner_of keys.now owners) new.load.batch.rows new.load.owners.items)) }
    ensures widths { at_each lanes.old lanes.new (λ i old new. Sc.width new.scanner ≡ Sc.width old.scanner) }
    ensures batch_widths { at_each lanes.old lanes.new (λ i old new. new.load.batch.width ≡ old.load.batch.width) }
    ensures kept { at_each lanes.old lanes.new (λ i old new. Sc.keeps old.scanner new.scanner) }
{
    thread::for_each_mut(
        rt,
        lanes,
        threads,
        &|_, lane: &mut Lane<Sc>|
            requires { (Sc.width lane.old.scanner ≡ lane.old.load.batch.width) × All (λ k. k < lane.old.load.batch.width) keys.now × (0 < owners) }
            ensures ran { LaneRan Sc.left Sc.fault lane.old.scanner lane.new.scanner lane.old.scanned lane.new.scanned lane.new.load.batch.rows lane.new.outcome }
            ensures routed { OnOk lane.new.outcome (IsRouted (owner_of keys.entry.now owners) lane.new.load.batch.rows lane.new.load.owners.items) }
            ensures width { Sc.width lane.new.scanner ≡ Sc.width lane.old.scanner }
            ensures batch_width { lane.new.load.batch.width ≡ lane.old.load.batch.width }
            ensures kept { Sc.keeps lane.old.scanner lane.new.scanner }
        { lane.fill(keys, owners) },
    );
}

/// Whether the loads have few rows together.
fn has_few_rows(loads: &[Load]) -> bool {
    let mut rows = 0;
    for load in loads {
        rows += load.batch.rows();
        if rows >= FEW_ROWS {
            return false;
        }
    }
    true
}

/// Each desk absorbs its rows, in at most so many threads, and in the caller's own where there are few.
pub(crate) fn absorb_all<R: Threads + Sync, Ow: Owner>(
    rt: &R,
    desks: &mut [Desk<Ow>],
    loads: &[Load],
    threads: usize,
)
    requires threads { 0 < threads }
    requires wide { All (λ desk. All (λ load. load.batch.width ≡ Ow.width desk.owner) loads.now) desks.old }
    requires batches { All (λ desk. desk.batch.width ≡ Ow.width desk.owner) desks.old }
    ensures ran { (owner : Row → ℕ) → AreRouted owner loads.now → at_each desks.old desks.new (λ j old new. DeskRan Ow.takes Ow.fault old.owner new.owner (share_of owner j (rows_given loads.now)) new.outcome) }
    ensures widths { at_each desks.old desks.new (λ j old new. Ow.width new.owner ≡ Ow.width old.owner) }
    ensures batch_widths { at_each desks.old desks.new (λ j old new. new.batch.width ≡ old.batch.width) }
    ensures kept { at_each desks.old desks.new (λ j old new. Ow.keeps old.owner new.owner) }
{
    let threads = if has_few_rows(loads) { 1 } else { threads };
    thread::for_each_mut(
        rt,
        desks,
        threads,
        &|number, desk: &mut Desk<Ow>|
            requires { All (λ load. load.batch.width ≡ Ow.width desk.old.owner) loads.now × (desk.old.batch.width ≡ Ow.width desk.old.owner) }
            ensures ran { (owner : Row → ℕ) → AreRouted owner loads.entry.now → DeskRan Ow.takes Ow.fault desk.old.owner desk.new.owner (share_of owner number (rows_given loads.entry.now)) desk.new.outcome }
            ensures width { Ow.width desk.new.owner ≡ Ow.width desk.old.owner }
            ensures batch_width { desk.new.batch.width ≡ desk.old.batch.width }
            ensures kept { Ow.keeps desk.old.owner desk.new.owner }
        { desk.absorb(number, loads) },
    );
}

/// A lane and a load change what they hold.
fn trade<Sc>(lane: &mut Lane<Sc>, load: &mut Load)
    ensures lane { lane.new ≡ record lane.old { load = load.old } }
    ensures load { load.new ≡ lane.old.load }
{
    swap(&mut lane.load, load);
}

/// Takes the loads of the lanes, and leaves them others.
pub(crate) fn hand_over<Sc>(lanes: &mut [Lane<Sc>], loads: &mut [Load])
    requires { length loads.old ≡ length lanes.old }
    ensures loads { loads.new ≡ map (λ lane. lane.load) lanes.old }
    ensures lanes { at_each lanes.old lanes.new (λ i old new. (new.scanner ≡ old.scanner) × (new.scanned ≡ old.scanned) × (new.outcome ≡ old.outcome)) }
    ensures left { map (λ lane. lane.load) lanes.new ≡ loads.old }
{
    for i in 0..lanes.len() {
        trade(&mut lanes[i], &mut loads[i]);
    }
}

/// What the lanes answered together.
pub(crate) fn lanes_say<Sc>(lanes: &[Lane<Sc>]) -> Result<bool, ExecFault>
    ensures { result ≡ lanes_answer (map (λ lane. lane.outcome) lanes.now) }
{
    let mut more = false;
    for lane in lanes {
        more |= lane.outcome?;
    }
    Ok(more)
}

/// What the desks answered together, where there is more to come or not.
pub(crate) fn desks_say<Ow>(desks: &[Desk<Ow>], more: bool) -> Result<bool, ExecFault>
    ensures { result ≡ desks_answer more (map (λ desk. desk.outcome) desks.now) }
{
    for desk in desks {
        desk.outcome?;
    }
    Ok(more)
}
