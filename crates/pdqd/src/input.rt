//! The input of a command, read as one.
ghost use Rattle.std.specs.Prelude.{◌≡◌, ◌≤◌, ◌++◌, IfOk, IfErr, IsErrOf, IsTrue, OnOk, take};
ghost use Rattle.pdq_edge.specs.Causes.{Rose};
ghost use Rattle.pdq_session.specs.Progress.{Came, source_view};
ghost use Rattle.pdqd.specs.Input.{GaveSome, IsInput};

use pdq_base::Memory;
use pdq_edge::Source;
use std::alloc::Global;

/// The most bytes of a plain table.
const MOST_BYTES: usize = 16_777_216;

/// How many bytes are asked for at once.
const PIECE: usize = 16_384;

/// Why the input is not at hand.
#[derive(Clone, Copy)]
pub(crate) enum InputFault {
    /// The source or a file failed.
    Failed,
    /// Memory was wanting.
    Memory,
}

impl From<Memory> for InputFault {
    ghost use Rattle.pdqd.specs.declared.input.InputFault.TheVariants.{Memory};

    ghost from_gives = { λ _ e. e ≡ Memory };

    fn from(_memory: Memory) -> InputFault {
        InputFault::Memory
    }
}

/// Reads the source to its end, or until it has given more bytes than a plain table may have.
pub(crate) fn read_input<So: Source>(alloc: Global, source: &mut So) -> Result<Vec<u8>, InputFault>
    ensures read { IfOk result (λ bytes. IsInput (source_view So.left So.taken So.ended source.old) (source_view So.left So.taken So.ended source.new) bytes.items) }
    ensures some { IfErr result (λ _. GaveSome (source_view So.left So.taken So.ended source.old) (source_view So.left So.taken So.ended source.new)) }
    ensures passed { OnOk result (So.faults source.new ≡ So.faults source.old) }
    ensures memory { IsErrOf result InputFault.Memory → So.faults source.new ≡ So.faults source.old }
    ensures failed { IsErrOf result InputFault.Failed → Rose (So.faults source.old) (So.faults source.new) }
{
    let mut bytes = Vec::new(alloc);
    'reads: while bytes.len() <= MOST_BYTES {
        let mut piece = [0; PIECE];
        let Ok(n) = source.read(&mut piece) else {
            return Err(InputFault::Failed);
        };
        if n == 0 {
            return Ok(bytes);
        }
        let Ok(()) = bytes.extend_from_slice(&piece[..n]) else {
            return Err(InputFault::Memory);
        };
    }
    Ok(bytes)
}
