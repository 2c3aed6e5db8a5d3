ghost use Rattle.std.specs.Prelude.{◌≡◌, ◌<◌, ◌≤◌, ◌↔◌, [], IfOk, IsErrOf, Ok, OnOk, Some, length, slice_get};
ghost use Rattle.pdq_edge.specs.Blocks.{most_held, most_puts, IsFull};
ghost use Rattle.pdq_edge.specs.InMemory.{store_failed, store_put};

use crate::spill::is_full;
use crate::{Failed, Spill, StoreFault};
use std::alloc::Global;
use std::marker::Model;

/// A store in memory that fails only where it is full: where it holds 4,294,967,294 blocks, or has counted 2^64 - 1
/// puts.
#[derive(Drop)]
pub struct SureSpill {
    blocks: Vec<[u8; 4096]>,
    puts: u64,
    faults: u64,
}

impl Model for SureSpill {
    ghost use Rattle.pdq_edge.specs.InMemory.{Store};

    ghost Value = { Store };

    ghost view = { λ s. record { blocks = s.blocks.items; puts = s.puts; faults = s.faults } };
}

impl SureSpill {
    /// An empty store.
    pub fn new(alloc: Global) -> Self
        ensures empty { result ≡ record { blocks = []; puts = 0; faults = 0 } }
    {
        SureSpill {
            blocks: Vec::new(alloc),
            puts: 0,
            faults: 0,
        }
    }
}

impl Spill for SureSpill {
    ghost use Rattle.std.specs.Prelude.{refl};

    ghost blocks = { λ s. Some s.blocks };

    ghost held = { λ s. length s.blocks };

    ghost puts = { λ s. s.puts };

    ghost faults = { λ s. s.faults };

    /// Fails exactly where the store is full.
    fn put(&mut self, block: &[u8; 4096]) -> Result<u32, StoreFault>
        ensures full { IsErrOf result StoreFault.Failed ↔ IsFull (length self.old.blocks) self.old.puts }
        ensures place { IfOk result (λ place. place ≡ length self.old.blocks) }
        ensures ok { OnOk result (self.new ≡ store_put self.old block.now) }
        ensures few_held { OnOk result (length self.new.blocks ≤ most_held) }
        ensures few_puts { OnOk result (self.new.puts ≤ most_puts) }
        ensures failed { IsErrOf result StoreFault.Failed → self.new ≡ store_failed self.old }
        ensures memory { IsErrOf result StoreFault.Memory → self.new ≡ self.old }
        ensures later { self.old.faults ≤ self.new.faults }
    {
        let (place, puts, faults) = (self.blocks.len(), self.puts, self.faults);
        if is_full(place, puts) {
            self.faults = faults.saturating_add(1);
            return Err(StoreFault::Failed);
        }
        self.blocks.push(*block).map_err(|_| StoreFault::Memory)?;
        self.puts = puts + 1;
        Ok(place as u32)
    }

    /// Never fails.
    fn get(&mut self, place: u32, into: &mut [u8; 4096]) -> Result<(), Failed>
        requires held { place < length self.old.blocks }
        ensures sure { result ≡ Ok tt }
        ensures block { slice_get self.old.blocks place ≡ Some into.new }
        ensures same { self.new ≡ self.old }
    {
        *into = self.blocks[place as usize];
        Ok(())
    }

    fn clear(&mut self)
        ensures empty { self.new ≡ record self.old { blocks = [] } }
    {
        self.blocks.clear();
    }

    ghost held_is = { λ store. refl };
}
