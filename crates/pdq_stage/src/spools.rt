//! Spools over stores.
ghost use Rattle.std.specs.Prelude.{◌≡◌, ◌+◌, ◌<◌, ◌≤◌, ◌++◌, ◌⊎◌, [], All, length, map, vec_capacity, vec_len, IfErr, OnOk, true};
ghost use Rattle.std.specs.List.{AllZip};
ghost use Rattle.pdq_seat.specs.Stores.{SomeRose};
ghost use Rattle.pdq_stage.specs.Spooling.{AreSealedIn, IsEmptySpool, IsLaterView};
ghost use Rattle.pdq_step.specs.Homes.{store_of};

use pdq_edge::Spill;
use pdq_owner::Spool;
use pdq_seat::{first_of, insert_first, last_of, push_in_room};
use pdq_spill::{ExecFault, Partition};
use std::alloc::Global;

/// Makes spools of this width over stores, from the first on, as long as there is memory; whether one was made over each.
pub fn open_spools<Sp: Spill>(
    alloc: Global,
    stores: &mut Vec<Sp>,
    spools: &mut Vec<Spool<Sp>>,
    width: u32,
    most: Option<u64>,
) -> bool
    requires low { 1 ≤ width }
    requires high { width ≤ 511 }
    requires none { spools.old.items ≡ [] }
    requires room { vec_len stores.old ≤ vec_capacity spools.old }
    ensures all { map (λ s. s.store) spools.new.items ++ map (store_of Sp.blocks Sp.held Sp.puts Sp.faults) stores.new.items ≡ map (store_of Sp.blocks Sp.held Sp.puts Sp.faults) stores.old.items }
    ensures new { All (IsEmptySpool width most) spools.new.items }
    ensures done { result ≡ true → stores.new.items ≡ [] }
    ensures count { vec_len spools.new + vec_len stores.new ≡ vec_len stores.old }
    ensures capacity { vec_capacity stores.old ≤ vec_capacity stores.new }
{
    'opening: while stores.len() > 0 {
        let Ok(rows) = Partition::new(alloc, width) else {
            return false;
        };
        push_in_room(spools, Spool::new(rows, first_of(stores), most));
    }
    true
}

/// Puts the stores of spools before those over which none was made. What was put is given up.
pub fn back_spools<Sp: Spill>(spools: &mut Vec<Spool<Sp>>, stores: &mut Vec<Sp>)
    requires room { vec_len spools.old + vec_len stores.old ≤ vec_capacity stores.old }
    ensures none { spools.new.items ≡ [] }
    ensures all { map (store_of Sp.blocks Sp.held Sp.puts Sp.faults) stores.new.items ≡ map (λ s. s.store) spools.old.items ++ map (store_of Sp.blocks Sp.held Sp.puts Sp.faults) stores.old.items }
{
    'backing: while spools.len() > 0 {
        let (_rows, store) = last_of(spools).leave();
        insert_first(stores, store);
    }
}

/// Puts the stores of spools behind others. What was put is given up.
fn leave_spools<Sp: Spill>(spools: &mut Vec<Spool<Sp>>, stores: &mut Vec<Sp>)
    requires room { vec_len spools.old + vec_len stores.old ≤ vec_capacity stores.old }
    ensures none { spools.new.items ≡ [] }
    ensures all { map (store_of Sp.blocks Sp.held Sp.puts Sp.faults) stores.new.items ≡ map (store_of Sp.blocks Sp.held Sp.puts Sp.faults) stores.old.items ++ map (λ s. s.store) spools.old.items }
{
    'leaving: while spools.len() > 0 {
        let (_rows, store) = first_of(spools).leave();
        push_in_room(stores, store);
    }
}

/// Seals what was put into spools, one after the other, and takes them apart: their stores stand in their places again in every case.
///
/// # Errors
/// `SpillFault` where a store failed, and `Memory`.
pub fn close_spools<Sp: Spill>(
    spools: &mut Vec<Spool<Sp>>,
    stores: &mut Vec<Sp>,
    rows: &mut Vec<Partition>,
) -> Result<(), ExecFault>
    requires no_store { stores.old.items ≡ [] }
    requires no_rows { rows.old.items ≡ [] }
    requires store_room { vec_len spools.old ≤ vec_capacity stores.old }
    requires row_room { vec_len spools.old ≤ vec_capacity rows.old }
    ensures none { spools.new.items ≡ [] }
    ensures home { AllZip IsLaterView (map (λ s. s.store) spools.old.items) (map (store_of Sp.blocks Sp.held Sp.puts Sp.faults) stores.new.items) }
    ensures sealed { OnOk result (AreSealedIn Sp.blocks Sp.held spools.old.items rows.new.items stores.new.items) }
    ensures failed { IfErr result (λ cause. (cause ≡ ExecFault.Memory) ⊎ ((cause ≡ ExecFault.SpillFault) × SomeRose (λ v. v.faults) (map (λ s. s.store) spools.old.items) (map (store_of Sp.blocks Sp.held Sp.puts Sp.faults) stores.new.items))) }
{
    'closing: while spools.len() > 0 {
        let (mut partition, mut store) = first_of(spools).leave();
        let sealed = partition.seal(&mut store);
        push_in_room(stores, store);
        match sealed {
            Ok(()) => push_in_room(rows, partition),
            Err(fault) => {
                leave_spools(spools, stores);
                return Err(fault);
            }
        }
    }
    Ok(())
}
