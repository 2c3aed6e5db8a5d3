//! The law of fragment elimination.
ghost use Rattle.pdq_prune.specs.Laws.{LeftFragmentsHoldTheRows};

/// Each row that meets the filters on its table stands in a fragment that is left. Nothing to do: it is a law.
pub fn left_fragments_hold_the_rows()
    ensures law { LeftFragmentsHoldTheRows }
{}
