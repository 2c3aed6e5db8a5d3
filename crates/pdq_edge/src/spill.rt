ghost use Rattle.std.specs.Prelude.{◌≡◌, ◌+◌, ◌<◌, ◌≤◌, ◌↔◌, ℕ, List, Option, Some, length, slice_get, IfOk, OnOk, OnErr, IfSome, IsErrOf, IsTrue};
ghost use Rattle.pdq_edge.specs.Blocks.{most_held, most_puts, appended, emptied, IsFull};
ghost use Rattle.pdq_edge.specs.Causes.{HasCause, Rose};

use crate::Failed;

// The most blocks that a store holds at once.
const MOST_HELD: usize = 4294967294;

/// Whether a store with so many blocks and puts takes no more.
pub(crate) fn is_full(held: usize, puts: u64) -> bool
    ensures full { IsTrue result ↔ IsFull held puts }
{
    MOST_HELD <= held || puts == u64::MAX
}

/// Why a block was not put.
#[derive(Clone, Copy, Debug, PartialEq, Eq)]
pub enum StoreFault {
    /// The store failed, or is full; the count of faults rose.
    Failed,
    /// Want of memory.
    Memory,
}

/// A store for blocks of 4,096 bytes that overflow, each at a place counted from 0. It holds at most 4,294,967,294
/// blocks and counts at most 2^64 - 1 puts.
pub trait Spill {
    // The blocks, each at its place, where they are told.
    ghost blocks: { Self → Option (List (List ℕ)) };

    // How many blocks were put since it was last cleared.
    ghost held: { Self → ℕ };

    // How many blocks were ever put.
    ghost puts: { Self → ℕ };

    // How often it has failed.
    ghost faults: { Self → ℕ };

    /// Puts a block behind the others and answers its place. A put that fails puts nothing.
    fn put(&mut self, block: &[u8; 4096]) -> Result<u32, StoreFault>
        ensures counted { IfSome (blocks self.old) (λ blocks. held self.old ≡ length blocks) }
        ensures place { IfOk result (λ place. place ≡ held self.old) }
        ensures blocks { OnOk result (blocks self.new ≡ appended (blocks self.old) block.now) }
        ensures held { OnOk result (held self.new ≡ held self.old + 1) }
        ensures puts { OnOk result (puts self.new ≡ puts self.old + 1) }
        ensures few_held { OnOk result (held self.new ≤ most_held) }
        ensures few_puts { OnOk result (puts self.new ≤ most_puts) }
        ensures full { IsFull (held self.old) (puts self.old) → IsErrOf result StoreFault.Failed }
        ensures err_blocks { OnErr result (blocks self.new ≡ blocks self.old) }
        ensures err_held { OnErr result (held self.new ≡ held self.old) }
        ensures err_puts { OnErr result (puts self.new ≡ puts self.old) }
        ensures later { faults self.old ≤ faults self.new }
        ensures passed { OnOk result (faults self.new ≡ faults self.old) }
        ensures memory { IsErrOf result StoreFault.Memory → faults self.new ≡ faults self.old }
        ensures failed { IsErrOf result StoreFault.Failed → Rose (faults self.old) (faults self.new) };

    /// Gets the block at a place.
    fn get(&mut self, place: u32, into: &mut [u8; 4096]) -> Result<(), Failed>
        requires held { place < held self.old }
        ensures counted { IfSome (blocks self.old) (λ blocks. held self.old ≡ length blocks) }
        ensures block { OnOk result (IfSome (blocks self.old) (λ blocks. slice_get blocks place ≡ Some into.new)) }
        ensures blocks { blocks self.new ≡ blocks self.old }
        ensures held { held self.new ≡ held self.old }
        ensures puts { puts self.new ≡ puts self.old }
        ensures cause { HasCause (faults self.old) (faults self.new) result };

    /// Takes all blocks out, which never fails.
    fn clear(&mut self)
        ensures blocks { blocks self.new ≡ emptied (blocks self.old) }
        ensures held { held self.new ≡ 0 }
        ensures puts { puts self.new ≡ puts self.old }
        ensures faults { faults self.new ≡ faults self.old };

    // Where the blocks are told, as many are held. `put` and `get` say so again for their callers.
    ghost held_is: { (store : Self) → IfSome (blocks store) (λ blocks. held store ≡ length blocks) };
}
