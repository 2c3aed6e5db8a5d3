//! The rows of the manager's lists.

/// A query that waits to be admitted.
#[derive(Clone, Copy, Debug, PartialEq, Eq)]
pub struct Waiting {
    pub id: u32,
    pub session: u32,
    /// The effective priority, fixed when the query was submitted.
    pub priority: u32,
    /// The greatest number of fragments of one of its tables, 1 to 16.
    pub frags: u32,
    /// How many later queries were admitted before it.
    pub overtaken: u32,
}

/// A query that was admitted and is not finished.
#[derive(Clone, Copy, Debug, PartialEq, Eq)]
pub struct Active {
    pub id: u32,
    pub session: u32,
    /// The effective priority.
    pub priority: u32,
    /// The quanta that are reserved for it.
    pub quanta: u32,
    /// The scan threads that it uses.
    pub scans: u32,
    /// Whether its owner has collected it, and with it the region of its quanta.
    pub collected: bool,
    /// The step at which it was cancelled.
    pub flagged: Option<u64>,
}

/// A query that was cancelled while it waited, and that its owner has not collected.
#[derive(Clone, Copy, Debug, PartialEq, Eq)]
pub struct Withdrawn {
    pub id: u32,
    pub session: u32,
    /// The step of the cancellation.
    pub by: u64,
}

/// An open session: a user's or an administrator's.
#[derive(Clone, Copy, Debug, PartialEq, Eq)]
pub struct Session {
    pub number: u32,
    pub admin: bool,
}

/// What a change that waits asks for. MAX_PDQPRIORITY and DS_NONPDQ_QUERY_MEM are no part of it, since they change at once.
#[derive(Clone, Copy, Debug, PartialEq, Eq)]
pub struct Pending {
    pub total_kb: u32,
    pub max_queries: u32,
    pub max_scans: u32,
}

/// A query that was admitted, with its shares.
#[derive(Clone, Copy, Debug, PartialEq, Eq)]
pub struct Admit {
    pub id: u32,
    pub quanta: u32,
    pub scans: u32,
}

/// An active query as a status shows it.
#[derive(Clone, Copy, Debug, PartialEq, Eq)]
pub struct ActiveRow {
    pub session: u32,
    pub id: u32,
    pub priority: u32,
    pub quanta: u32,
    pub scans: u32,
}

/// A waiting query as a status shows it.
#[derive(Clone, Copy, Debug, PartialEq, Eq)]
pub struct WaitingRow {
    pub session: u32,
    pub id: u32,
    pub priority: u32,
    pub overtaken: u32,
    /// The gate at which it stands.
    pub gate: u32,
}
