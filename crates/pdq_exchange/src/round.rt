//! The round itself.
ghost use Rattle.std.specs.Prelude.{◌≡◌, ◌<◌, ◌≤◌, All, OnOk, OnErr, [], length, map, slice_index_or};
ghost use Rattle.pdq_exchange.specs.Exchanged.{Waved};
ghost use Rattle.pdq_exchange.specs.Routing.{owner_of, share_of};
ghost use Rattle.pdq_exchange.specs.Waves.{DeskRan, IsSamePlan, LaneRan, answered, at_each, lanes_answer};

use crate::halves::{absorb_all, desks_say, fill_all, hand_over, lanes_say};
use crate::lane::Lane;
use crate::plan::threads_for;
use crate::{Desk, Owner, Scanner, Wave};
use pdq_spill::ExecFault;
use std::thread::Threads;

/// One round of the exchange. Each scanner fills one batch, of 1,024 rows at most; then each row is absorbed by the owner of its key, which gets the
/// rows of the first scanner first, in order, then those of the second, and so on. True exactly where some scanner has rows left.
///
/// A fault is that of the scanner of smallest number that failed, else of the owner of smallest number. Where a scanner failed no owner is called.
/// Whatever the answer, all scanners and owners stand in their lanes and desks, and can be taken back.
///
/// At most as many threads are at work as there are processors, or two; which is no matter of the answer.
pub fn wave<R: Threads + Sync, Sc: Scanner, Ow: Owner>(
    rt: &R,
    lanes: &mut [Lane<Sc>],
    desks: &mut [Desk<Ow>],
    wave: &mut Wave,
) -> Result<bool, ExecFault>
    requires lanes { length lanes.old ≡ length wave.old.given }
    requires desks { 0 < length desks.old }
    requires lane_widths { All (λ lane. (Sc.width lane.scanner ≡ wave.old.width) × (lane.load.batch.width ≡ wave.old.width)) lanes.old }
    requires desk_widths { All (λ desk. (Ow.width desk.owner ≡ wave.old.width) × (desk.batch.width ≡ wave.old.width)) desks.old }
    ensures plan { IsSamePlan wave.old wave.new }
    ensures lane_widths { All (λ lane. (Sc.width lane.scanner ≡ wave.new.width) × (lane.load.batch.width ≡ wave.new.width)) lanes.new }
    ensures desk_widths { All (λ desk. (Ow.width desk.owner ≡ wave.new.width) × (desk.batch.width ≡ wave.new.width)) desks.new }
    ensures lanes_ran { at_each lanes.old lanes.new (λ i old new. LaneRan Sc.left Sc.fault old.scanner new.scanner old.scanned new.scanned (slice_index_or wave.new.given i []) new.outcome) }
    ensures lanes_kept { at_each lanes.old lanes.new (λ i old new. Sc.keeps old.scanner new.scanner) }
    ensures desks_ran { OnOk (lanes_answer (map (λ lane. lane.outcome) lanes.new)) (at_each desks.old desks.new (λ j old new. DeskRan Ow.takes Ow.fault old.owner new.owner (share_of (owner_of wave.old.keys (length desks.old)) j wave.new.given) new.outcome)) }
    ensures desks_left { OnErr (lanes_answer (map (λ lane. lane.outcome) lanes.new)) (desks.new ≡ desks.old) }
    ensures desks_kept { at_each desks.old desks.new (λ j old new. Ow.keeps old.owner new.owner) }
    ensures waved { OnOk result (Waved Sc.left Ow.takes (owner_of wave.old.keys (length desks.old)) wave.new.given lanes.old lanes.new desks.old desks.new) }
    ensures answer { result ≡ answered (lanes_answer (map (λ lane. lane.outcome) lanes.new)) (map (λ desk. desk.outcome) desks.new) }
{
    let threads = threads_for(rt, &mut wave.processors);
    fill_all(rt, lanes, &wave.keys, desks.len(), threads);
    hand_over(lanes, &mut wave.loads);
    let more = lanes_say(lanes)?;
    absorb_all(rt, desks, &wave.loads, threads);
    desks_say(desks, more)
}
