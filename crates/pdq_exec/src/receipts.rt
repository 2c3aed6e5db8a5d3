//! Receipts of lanes.
ghost use Rattle.std.specs.Prelude.{◌≡◌, ◌++◌, OnOk, map};

use pdq_base::Memory;
use pdq_exchange::{Lane, Scanned, Scanner};

/// The receipts of lanes, behind others.
pub(crate) fn leave_lanes<Sc: Scanner + Drop>(
    lanes: Vec<Lane<Sc>>,
    scanned: &mut Vec<Scanned>,
) -> Result<(), Memory>
    ensures { OnOk result (map (λ r. r.rows) scanned.new.items ≡ map (λ r. r.rows) scanned.old.items ++ map (λ lane. lane.scanned) lanes.items) }
{
    'leaving: for lane in lanes {
        let (_scanner, count) = lane.leave();
        let Ok(()) = scanned.push(count) else {
            return Err(Memory);
        };
    }
    Ok(())
}

/// Receipts behind others.
fn append(scanned: &mut Vec<Scanned>, more: Vec<Scanned>) -> Result<(), Memory>
    ensures { OnOk result (map (λ r. r.rows) scanned.new.items ≡ map (λ r. r.rows) scanned.old.items ++ map (λ r. r.rows) more.items) }
{
    'appending: for count in more {
        let Ok(()) = scanned.push(count) else {
            return Err(Memory);
        };
    }
    Ok(())
}

/// The receipts of lanes, behind others, and then more receipts.
pub(crate) fn leave_first<Sc: Scanner + Drop>(
    lanes: Vec<Lane<Sc>>,
    more: Vec<Scanned>,
    scanned: &mut Vec<Scanned>,
) -> Result<(), Memory>
    ensures { OnOk result (map (λ r. r.rows) scanned.new.items ≡ map (λ r. r.rows) scanned.old.items ++ (map (λ lane. lane.scanned) lanes.items ++ map (λ r. r.rows) more.items)) }
{
    leave_lanes(lanes, scanned)?;
    append(scanned, more)
}
