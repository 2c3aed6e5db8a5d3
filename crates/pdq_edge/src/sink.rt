ghost use Rattle.std.specs.Prelude.{◌≡◌, ◌<◌, ◌≤◌, ℕ, List, Option, length, take, IfOk, OnErr, OnOk};
ghost use Rattle.pdq_edge.specs.Bytes.{Grows, GrewSome};
ghost use Rattle.pdq_edge.specs.Causes.{HasCause};

use crate::Failed;

/// Where bytes go.
pub trait Sink {
    // The bytes that it took, where they are told.
    ghost written: { Self → Option (List ℕ) };

    // The bytes that a flush has handed on, where they are told.
    ghost flushed: { Self → Option (List ℕ) };

    // How often it has failed.
    ghost faults: { Self → ℕ };

    /// Takes some of the first bytes of a piece, at least one unless the piece is empty, and answers how many. A
    /// write that fails takes nothing.
    fn write(&mut self, from: &[u8]) -> Result<usize, Failed>
        ensures some { 0 < length from.now → IfOk result (λ n. 0 < n) }
        ensures bound { IfOk result (λ n. n ≤ length from.now) }
        ensures bytes { IfOk result (λ n. Grows (written self.old) (written self.new) (take n from.now)) }
        ensures err { OnErr result (written self.new ≡ written self.old) }
        ensures flushed { flushed self.new ≡ flushed self.old }
        ensures cause { HasCause (faults self.old) (faults self.new) result };

    /// Hands on all that was taken. A flush that fails hands on nothing.
    fn flush(&mut self) -> Result<(), Failed>
        ensures same { written self.new ≡ written self.old }
        ensures flushed { OnOk result (flushed self.new ≡ written self.new) }
        ensures err_flushed { OnErr result (flushed self.new ≡ flushed self.old) }
        ensures cause { HasCause (faults self.old) (faults self.new) result };
}

/// Writes a whole piece. Where that fails the sink has taken a first part of it.
#[tactic(auto, using(crate::proofs::Growing::grows_none, crate::proofs::Growing::grew_some))]
pub fn write_all<K: Sink>(sink: &mut K, piece: &[u8]) -> Result<(), Failed>
    ensures whole { OnOk result (Grows (K.written sink.old) (K.written sink.new) piece.now) }
    ensures part { OnErr result (GrewSome (K.written sink.old) (K.written sink.new) piece.now) }
    ensures flushed { K.flushed sink.new ≡ K.flushed sink.old }
    ensures cause { HasCause (K.faults sink.old) (K.faults sink.new) result }
{
    let mut at = 0;
    'writes: while at < piece.len() {
        at += sink.write(&piece[at..])?;
    }
    Ok(())
}
