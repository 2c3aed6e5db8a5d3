//! Stores are cleared.
ghost use Rattle.pdq_exec.specs.Answering.{AreCleared};

use pdq_edge::Spill;

/// Clears all stores.
pub(crate) fn clear_all<Sp: Spill>(stores: &mut Vec<Sp>)
    ensures { AreCleared Sp.blocks Sp.held Sp.faults Sp.puts stores.old.items stores.new.items }
{
    for store in stores.iter_mut() {
        store.clear();
    }
}
