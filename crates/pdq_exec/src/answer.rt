//! What a run answers.
use pdq_exchange::Scanned;
use pdq_group::Folded;
use pdq_join::Built;
use pdq_value::Cell;

/// The answer of a query, and the receipts of who made it.
#[derive(Drop)]
pub struct Ran {
    /// The rows of the answer.
    pub rows: Vec<Vec<Cell>>,
    /// For each table after the first, in the plan's order, one receipt of each owner.
    pub built: Vec<Built>,
    /// One receipt of each owner, for a query with a fold or GROUP BY; else none.
    pub folded: Vec<Folded>,
    /// For each table, in the plan's order, how many rows each scan thread gave.
    pub scanned: Vec<Scanned>,
}
