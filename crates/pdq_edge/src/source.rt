ghost use Rattle.std.specs.Prelude.{◌≡◌, ◌<◌, ◌==◌, ◌||◌, ℕ, Bool, List, Option, length, take, IfOk, OnErr, IsTrue};
ghost use Rattle.std.specs.Io.{ReadsAtMost};
ghost use Rattle.pdq_edge.specs.Bytes.{Gives, told_count};
ghost use Rattle.pdq_edge.specs.Causes.{HasCause};

/// The outside failed, and the object's count of faults rose.
#[derive(Clone, Copy, Debug, PartialEq, Eq)]
pub struct Failed;

/// Where bytes come from.
pub trait Source {
    // The bytes to come, where they are told.
    ghost left: { Self → Option (List ℕ) };

    // How many bytes it gave.
    ghost taken: { Self → ℕ };

    // Whether a read has answered the end.
    ghost ended: { Self → Bool };

    // How often it has failed.
    ghost faults: { Self → ℕ };

    /// Reads some of the bytes to come into the front of `into`, which is not empty, and answers how many; 0 is the
    /// end of input, and stays the end. A read that fails takes nothing.
    fn read(&mut self, into: &mut [u8]) -> Result<usize, Failed>
        requires room { 0 < length into.old }
        ensures bound { ReadsAtMost result into.new }
        ensures bytes { IfOk result (λ n. Gives (left self.old) (left self.new) (take n into.new)) }
        ensures taken { IfOk result (λ n. taken self.new ≡ told_count (taken self.old) n) }
        ensures ended { IfOk result (λ n. ended self.new ≡ (ended self.old || n == 0)) }
        ensures stays { IsTrue (ended self.old) → IfOk result (λ n. n ≡ 0) }
        ensures err_left { OnErr result (left self.new ≡ left self.old) }
        ensures err_taken { OnErr result (taken self.new ≡ taken self.old) }
        ensures err_ended { OnErr result (ended self.new ≡ ended self.old) }
        ensures cause { HasCause (faults self.old) (faults self.new) result };
}
