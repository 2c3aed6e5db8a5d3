//! The lanes over the partitions of owners.
ghost use Rattle.std.specs.Prelude.{◌≡◌, ◌+◌, ◌<◌, ◌≤◌, ◌++◌, [], ◌∷◌, All, MatchResult, IfOk, None, OnOk, length, map, option_map, vec_capacity, vec_len};
ghost use Rattle.std.specs.List.{AllZip};
ghost use Rattle.pdq_scan.specs.Lanes.{IsFresh, given_width};
ghost use Rattle.pdq_scan.specs.PartitionLanes.{IsReady, coming_from, comings_from, store_view};
ghost use Rattle.pdq_scan.specs.Pickers.{IsZeroFilled, picks_of};
ghost use Rattle.pdq_scan.specs.Readers.{coming_of};

use crate::PartitionScanner;
use crate::picker::Picker;
use pdq_base::Memory;
use pdq_edge::Spill;
use pdq_eval::Pick;
use pdq_exchange::Lane;
use pdq_spill::Partition;
use std::alloc::Global;

// A picker of these picks, if any.
fn picker_for(alloc: Global, picks: Option<&[Pick]>) -> Result<Option<Picker>, Memory>
    ensures picks { IfOk result (λ picker. picks_of picker ≡ option_map (λ p. p.now) picks.entry) }
    ensures zeros { IfOk result IsZeroFilled }
{
    let Some(picks) = picks else {
        return Ok(None);
    };
    let Ok(copied) = Vec::from_slice(alloc, picks) else {
        return Err(Memory);
    };
    let picker = Picker::new(alloc, copied, 0)?;
    Ok(Some(picker))
}

// A lane over one partition; without memory its store comes back.
fn lane_over<Sp: Spill + Send>(
    alloc: Global,
    rows: Partition,
    store: Sp,
    picks: Option<&[Pick]>,
    width: u32,
) -> Result<Lane<PartitionScanner<Sp>>, Sp>
    requires ready { IsReady Sp.blocks Sp.held rows store }
    requires width { given_width (option_map (λ p. p.now) picks) rows.width ≡ width }
    requires low { 1 ≤ width }
    requires high { width ≤ 511 }
    ensures lane { IfOk result (λ lane. IsFresh coming_of (λ s. s.width) width (coming_from Sp.blocks (option_map (λ p. p.now) picks.entry) rows store) lane) }
    ensures fine { IfOk result (λ lane. lane.scanner.fault ≡ None) }
    ensures store { MatchResult result (λ lane. lane.scanner.store ≡ store_view Sp.blocks Sp.held Sp.puts Sp.faults store) (λ back. store_view Sp.blocks Sp.held Sp.puts Sp.faults back ≡ store_view Sp.blocks Sp.held Sp.puts Sp.faults store) }
{
    match picker_for(alloc, picks) {
        Ok(picker) => {
            let scanner = PartitionScanner::new(rows, store, picker);
            match Lane::new(alloc, scanner, width) {
                Ok(lane) => Ok(lane),
                Err(scanner) => Err(scanner.leave()),
            }
        }
        Err(_) => Err(store),
    }
}

// Puts a store before the others.
fn insert_first<Sp>(stores: &mut Vec<Sp>, store: Sp)
    requires room { vec_len stores.old < vec_capacity stores.old }
    ensures stores { stores.new.items ≡ store ∷ stores.old.items }
    ensures capacity { vec_capacity stores.old ≤ vec_capacity stores.new }
{
    match stores.insert(0, store) {
        Ok(()) => {}
        Err(_) => unreachable!(),
    }
}

/// One lane for each of these sealed partitions, over the store that stands in its place. A lane gives the rows of its partition, or what is picked of
/// them. Each store is in a lane, or among `stores` still, in the old order.
///
/// # Errors
/// `Memory` where it is wanting.
pub fn partition_lanes<Sp: Spill + Send>(
    alloc: Global,
    rows: Vec<Partition>,
    stores: &mut Vec<Sp>,
    lanes: &mut Vec<Lane<PartitionScanner<Sp>>>,
    picks: Option<&[Pick]>,
    width: u32,
) -> Result<(), Memory>
    requires ready { AllZip (IsReady Sp.blocks Sp.held) rows.items stores.old.items }
    requires widths { All (λ p. given_width (option_map (λ ps. ps.now) picks) p.width ≡ width) rows.items }
    requires low { 1 ≤ width }
    requires high { width ≤ 511 }
    requires empty { lanes.old.items ≡ [] }
    requires room { vec_len stores.old ≤ vec_capacity lanes.old }
    ensures stores { map (λ lane. lane.scanner.store) lanes.new.items ++ map (store_view Sp.blocks Sp.held Sp.puts Sp.faults) stores.new.items ≡ map (store_view Sp.blocks Sp.held Sp.puts Sp.faults) stores.old.items }
    ensures count { vec_len lanes.new + vec_len stores.new ≡ vec_len stores.old }
    ensures capacity { vec_capacity stores.old ≤ vec_capacity stores.new }
    ensures all { OnOk result (stores.new.items ≡ []) }
    ensures lefts { OnOk result (map (λ lane. coming_of lane.scanner) lanes.new.items ≡ comings_from Sp.blocks (option_map (λ p. p.now) picks.entry) rows.items stores.old.items) }
    ensures none { All (λ lane. lane.scanned ≡ 0) lanes.new.items }
    ensures fine { All (λ lane. lane.scanner.fault ≡ None) lanes.new.items }
    ensures lane_widths { All (λ lane. (lane.scanner.width ≡ width) × (lane.load.batch.width ≡ width)) lanes.new.items }
{
    let mut left = rows;
    'opening: while left.len() > 0 {
        let partition = left.remove(0);
        let store = stores.remove(0);
        match lane_over(alloc, partition, store, picks, width) {
            Ok(lane) => match lanes.push(lane) {
                Ok(()) => {}
                Err(_) => unreachable!(),
            },
            Err(back) => {
                insert_first(stores, back);
                return Err(Memory);
            }
        }
    }
    Ok(())
}

/// Puts the stores of lanes back before the others.
pub fn leave_partitions<Sp: Spill + Send>(
    lanes: &mut Vec<Lane<PartitionScanner<Sp>>>,
    stores: &mut Vec<Sp>,
)
    requires room { vec_len lanes.old + vec_len stores.old ≤ vec_capacity stores.old }
    ensures stores { map (store_view Sp.blocks Sp.held Sp.puts Sp.faults) stores.new.items ≡ map (λ lane. lane.scanner.store) lanes.old.items ++ map (store_view Sp.blocks Sp.held Sp.puts Sp.faults) stores.old.items }
    ensures capacity { vec_capacity stores.old ≤ vec_capacity stores.new }
    ensures empty { lanes.new.items ≡ [] }
{
    'leaving: while let Some(lane) = lanes.pop() {
        let (scanner, _scanned) = lane.leave();
        insert_first(stores, scanner.leave());
    }
}
