//! Where an operator puts its rows.
ghost use Rattle.std.specs.Prelude.{◌≡◌, ℕ, ℤ, List, [], ◌∷◌, Option, Some, length, OnOk, OnErr, IfErr};
ghost use Rattle.pdq_spill.specs.Rows.{with_more};
ghost use Rattle.pdq_spill.specs.declared.faults.ExecFault.{ExecFault};

use crate::ExecFault;

/// Where an operator puts its rows, one by one, all of one width.
pub trait RowOut {
    // The rows put so far, where they are told.
    ghost rows: { Self → Option (List (List ℤ)) };

    // How many words a row has.
    ghost width: { Self → ℕ };

    // The fault that it answered last, if any; so a caller can tell where a fault came from.
    ghost fault: { Self → Option ExecFault };

    // What each of its calls keeps, whatever it answers.
    ghost keeps: { Self → Self → Type 0 };

    /// Puts a row behind the others.
    ///
    /// # Errors
    /// Any fault, which the implementor explains. A put that fails puts nothing.
    fn put(&mut self, row: &[i64]) -> Result<(), ExecFault>
        requires width { length row.now ≡ width self.old }
        ensures width { width self.new ≡ width self.old }
        ensures rows { OnOk result (rows self.new ≡ with_more (rows self.old) (row.now ∷ [])) }
        ensures err { OnErr result (rows self.new ≡ rows self.old) }
        ensures ok { OnOk result (fault self.new ≡ fault self.old) }
        ensures fault { IfErr result (λ answered. fault self.new ≡ Some answered) }
        ensures keeps { keeps self.old self.new };

    // What is kept holds of a value with itself, and over two calls in a row.
    ghost keeps_itself: { (out : Self) → keeps out out };

    ghost keeps_on: { (before between after : Self) → keeps before between → keeps between after → keeps before after };
}
