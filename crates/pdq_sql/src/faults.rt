//! What is wrong with a line or a select.

/// Why a line or a select is refused. The first nine are numbered 1 to 9 in the refusal lines, in this order.
#[derive(Clone, Copy, Debug, PartialEq, Eq)]
pub enum SqlWhy {
    /// The tokens are none of the grammar.
    BadLine,
    UnknownTable,
    UnknownColumn,
    Ambiguous,
    KindsDiffer,
    NotJoined,
    NotGrouped,
    CountOverJoin,
    TooMany,
    /// Want of memory; the place is then 0.
    Memory,
}

/// A refusal, and the place of the first byte of the token or part that it speaks of.
#[derive(Clone, Copy, Debug, PartialEq, Eq)]
pub struct SqlFault {
    pub why: SqlWhy,
    pub place: u32,
}
