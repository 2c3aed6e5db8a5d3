ghost use Rattle.std.specs.Prelude.{◌≡◌, ◌||◌, ℕ, Bool, Option, IfOk, IfSome, IsTrue, OnErr};
ghost use Rattle.pdq_edge.specs.Bytes.{told_count};
ghost use Rattle.pdq_edge.specs.Callers.{callers_in, came, says_closed, is_closed, FitsComing, ComesOut};
ghost use Rattle.pdq_edge.specs.Causes.{HasCause};

use crate::{Failed, Knock};

/// Accepts clients, as a listener does.
pub trait Door<C> {
    // The callers still to come, where they are told.
    ghost coming: { Self → Option ℕ };

    // How many callers it gave, those lost among them.
    ghost given: { Self → ℕ };

    // Whether it has answered that none will come again.
    ghost closed: { Self → Bool };

    // How often it has failed.
    ghost faults: { Self → ℕ };

    /// The next caller, or that none is there now, or that none will come again.
    fn next(&mut self) -> Result<Knock<C>, Failed>
        ensures fits { IfOk result (λ knock. IfSome (coming self.old) (λ n. FitsComing n knock)) }
        ensures coming { ComesOut (coming self.old) (coming self.new) (callers_in result) }
        ensures given { IfOk result (λ knock. given self.new ≡ told_count (given self.old) (came knock)) }
        ensures err_given { OnErr result (given self.new ≡ given self.old) }
        ensures closed { closed self.new ≡ (closed self.old || says_closed result) }
        ensures stays { IsTrue (closed self.old) → IfOk result (λ knock. IsTrue (is_closed knock)) }
        ensures cause { HasCause (faults self.old) (faults self.new) result };
}
