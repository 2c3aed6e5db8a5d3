//! The text of what a query came to.
ghost use Rattle.std.specs.Prelude.{◌≡◌, ◌++◌, OnOk};
ghost use Rattle.pdq_answer.specs.Evaluations.{IsPrintable, evaluated_text};

use crate::evaluating::Evaluated;
use pdq_base::Memory;
use pdq_reply::{add_answer, add_store_failed, add_too_many_rows};
use std::alloc::Global;

/// Adds what a query came to: its rows, or the line that tells why there are none. Nothing is added of one that was stopped.
///
/// # Errors
/// `Memory` where it is wanting.
pub fn add_evaluated(alloc: Global, out: &mut Vec<u8>, evaluated: &Evaluated) -> Result<(), Memory>
    requires printable { IsPrintable evaluated.now }
    ensures text { OnOk result (out.new.items ≡ out.old.items ++ evaluated_text evaluated.now) }
{
    match evaluated {
        Evaluated::Rows(rows) => add_answer(alloc, out, rows),
        Evaluated::TooManyRows => add_too_many_rows(out),
        Evaluated::StoreFailed => add_store_failed(out),
        Evaluated::Stopped(_) => Ok(()),
    }
}
