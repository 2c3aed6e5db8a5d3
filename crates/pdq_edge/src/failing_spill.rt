ghost use Rattle.std.specs.Prelude.{◌≡◌, ◌<◌, ◌≤◌, ◌↔◌, ◌⊎◌, [], Contains, IfOk, IsErr, IsErrOf, OnErr, OnOk, Some, length, slice_get};
ghost use Rattle.pdq_edge.specs.Blocks.{most_held, most_puts, IsFull};
ghost use Rattle.pdq_edge.specs.Causes.{HasCause, Rose};
ghost use Rattle.pdq_edge.specs.InMemory.{store_called, store_call_failed, store_took};

use crate::calls::FailingCalls;
use crate::spill::is_full;
use crate::{Failed, Spill, StoreFault};
use std::alloc::Global;
use std::marker::Model;

/// A store in memory, of whose calls those with the listed numbers fail. Puts and gets are counted together, from 0.
/// It fails too where it is full.
#[derive(Drop)]
pub struct MemSpill {
    blocks: Vec<[u8; 4096]>,
    puts: u64,
    calls: FailingCalls,
}

impl Model for MemSpill {
    ghost use Rattle.pdq_edge.specs.InMemory.{FailingStore};

    ghost Value = { FailingStore };

    ghost view = { λ s. record { blocks = s.blocks.items; puts = s.puts; calls = s.calls } };
}

impl MemSpill {
    ghost use Rattle.pdq_edge.specs.InMemory.{fresh_store};

    /// An empty store whose calls with the numbers in `fails` fail.
    pub fn new(alloc: Global, fails: Vec<u64>) -> Self
        ensures fresh { result ≡ fresh_store fails.items }
    {
        MemSpill {
            blocks: Vec::new(alloc),
            puts: 0,
            calls: FailingCalls::new(fails),
        }
    }
}

impl Spill for MemSpill {
    ghost use Rattle.std.specs.Prelude.{refl};

    ghost blocks = { λ s. Some s.blocks };

    ghost held = { λ s. length s.blocks };

    ghost puts = { λ s. s.puts };

    ghost faults = { λ s. s.calls.faults };

    /// Fails exactly at the listed calls and where the store is full.
    fn put(&mut self, block: &[u8; 4096]) -> Result<u32, StoreFault>
        ensures listed { IsErrOf result StoreFault.Failed ↔ (Contains self.old.calls.fails self.old.calls.made ⊎ IsFull (length self.old.blocks) self.old.puts) }
        ensures place { IfOk result (λ place. place ≡ length self.old.blocks) }
        ensures ok { OnOk result (self.new ≡ store_took self.old block.now) }
        ensures few_held { OnOk result (length self.new.blocks ≤ most_held) }
        ensures few_puts { OnOk result (self.new.puts ≤ most_puts) }
        ensures err_failed { IsErrOf result StoreFault.Failed → self.new ≡ store_call_failed self.old }
        ensures err_memory { IsErrOf result StoreFault.Memory → self.new ≡ store_called self.old }
        ensures later { self.old.calls.faults ≤ self.new.calls.faults }
        ensures rose { IsErrOf result StoreFault.Failed → Rose self.old.calls.faults self.new.calls.faults }
    {
        let (place, puts) = (self.blocks.len(), self.puts);
        if self.calls.fails() || is_full(place, puts) {
            self.calls.fault();
            return Err(StoreFault::Failed);
        }
        self.blocks.push(*block).map_err(|_| StoreFault::Memory)?;
        self.puts = puts + 1;
        Ok(place as u32)
    }

    /// Fails exactly at the listed calls.
    fn get(&mut self, place: u32, into: &mut [u8; 4096]) -> Result<(), Failed>
        requires held { place < length self.old.blocks }
        ensures listed { IsErr result ↔ Contains self.old.calls.fails self.old.calls.made }
        ensures block { OnOk result (slice_get self.old.blocks place ≡ Some into.new) }
        ensures ok { OnOk result (self.new ≡ store_called self.old) }
        ensures err { OnErr result (self.new ≡ store_call_failed self.old) }
        ensures cause { HasCause self.old.calls.faults self.new.calls.faults result }
    {
        if self.calls.fails() {
            self.calls.fault();
            return Err(Failed);
        }
        *into = self.blocks[place as usize];
        Ok(())
    }

    fn clear(&mut self)
        ensures empty { self.new ≡ record self.old { blocks = [] } }
    {
        self.blocks.clear();
    }

    ghost held_is = { λ store. refl };
}
