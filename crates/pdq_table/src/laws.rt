//! The laws of stored tables. Each is the clause of a function with nothing to do.
ghost use Rattle.pdq_table.specs.Laws.{FragmentsHoldTheRows};

/// The rows of a table's fragments together are the rows of the table: each stands in one fragment, once.
#[tactic(auto, using(crate::proofs::Whole::fragments_hold_the_rows))]
pub fn fragments_hold_the_rows()
    ensures law { FragmentsHoldTheRows }
{}
