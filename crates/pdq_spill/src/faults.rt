//! Why the evaluation of a query was given up.

/// Why the evaluation of a query was given up.
#[derive(Clone, Copy, Debug, PartialEq, Eq)]
pub enum ExecFault {
    /// A store failed; its count of faults rose.
    SpillFault,
    /// The query was cancelled, by this step of the manager's history.
    Stopped { step: u64 },
    /// More rows were chosen than a query may choose.
    RowLimit,
    /// Want of memory.
    Memory,
}
