ghost use Rattle.std.specs.Prelude.{◌≡◌, ◌<◌, ◌≤◌, ℕ, List, Option, length, IfOk, IfSome, IsErrOf, OnOk};
ghost use Rattle.pdq_edge.specs.Causes.{Rose};

use std::alloc::Global;

/// Why a file was not read.
#[derive(Clone, Copy, Debug, PartialEq, Eq)]
pub enum FileFault {
    /// The outside failed, or there is no such file; the count of faults rose.
    Failed,
    /// The file has more bytes than the limit.
    TooLong,
    /// Want of memory.
    Memory,
}

/// Files that are read whole.
pub trait Files {
    // The bytes of the file of a name, where they are told.
    ghost contents: { Self → List ℕ → Option (List ℕ) };

    // How often it has failed.
    ghost faults: { Self → ℕ };

    /// Reads the whole file of this name, of at most `limit` bytes.
    fn read_whole(&mut self, alloc: Global, name: &str, limit: u64) -> Result<Vec<u8>, FileFault>
        ensures bytes { IfOk result (λ read. IfSome (contents self.old name.now) (λ bytes. read.items ≡ bytes)) }
        ensures short { IfOk result (λ read. length read.items ≤ limit) }
        ensures too_long { IsErrOf result FileFault.TooLong → IfSome (contents self.old name.now) (λ bytes. limit < length bytes) }
        ensures same { (other : List ℕ) → contents self.new other ≡ contents self.old other }
        ensures later { faults self.old ≤ faults self.new }
        ensures passed { OnOk result (faults self.new ≡ faults self.old) }
        ensures too_long_faults { IsErrOf result FileFault.TooLong → faults self.new ≡ faults self.old }
        ensures memory { IsErrOf result FileFault.Memory → faults self.new ≡ faults self.old }
        ensures failed { IsErrOf result FileFault.Failed → Rose (faults self.old) (faults self.new) };
}
