//! What happens to the manager, and what it answers.

/// How a query ended.
#[derive(Clone, Copy, Debug, PartialEq, Eq)]
pub enum How {
    Done,
    Stopped,
    Failed,
}

/// A change of one parameter of the configuration, as onmode makes it: -D, -M, -Q, -S, -N.
#[derive(Clone, Copy, Debug, PartialEq, Eq)]
pub enum Setting {
    /// MAX_PDQPRIORITY, in percent; for later submissions alone.
    MaxPriority(u32),
    /// DS_TOTAL_MEMORY, in KB.
    TotalMemory(u32),
    /// DS_MAX_QUERIES.
    MaxQueries(u32),
    /// DS_MAX_SCANS.
    MaxScans(u32),
    /// DS_NONPDQ_QUERY_MEM, in KB; at once, for later admissions.
    NonPdq(u32),
}

/// What a caller asks of the manager.
#[derive(Clone, Copy, Debug, PartialEq, Eq)]
pub enum Event {
    OpenSession { admin: bool },
    CloseSession,
    Submit { priority: u32, frags: u32 },
    Collect { id: u32 },
    Finish { id: u32, how: How },
    Cancel { id: u32 },
    Onmode { setting: Setting },
}

/// What the manager replies to an event that it enters into its journal.
#[derive(Clone, Copy, Debug, PartialEq, Eq)]
pub enum Reply {
    Opened {
        session: u32,
    },
    Closed,
    /// Gate 0 says that the query was admitted in its own step.
    Placed {
        id: u32,
        priority: u32,
        gate: u32,
    },
    Granted {
        quanta: u32,
        scans: u32,
        priority: u32,
        flagged: Option<u64>,
    },
    /// The query was withdrawn at the step `by`.
    Cancelled {
        by: u64,
    },
    Finished,
    Withdrawn,
    Flagged,
    Changed {
        pending: bool,
    },
}

/// Why an event was refused.
#[derive(Clone, Copy, Debug, PartialEq, Eq)]
pub enum Why {
    /// 1,024 queries wait.
    QueueFull,
    /// The journal could not hold all that this event may lead to.
    JournalFull,
    /// The caller is neither the query's owner nor an administrator.
    NotAllowed,
    /// No query of this number waits, is active or was withdrawn.
    NoSuchQuery,
    /// The configuration so changed is not valid.
    BadValue,
    /// The query is flagged or withdrawn already.
    AlreadyCancelled,
    /// 64 sessions are open.
    TooManySessions,
    /// The pool that came does not fit the configuration so changed, which asks for these numbers.
    PoolSize { quanta: u32, frames: u32 },
}

/// What an event comes to: an entry with its reply, or an answer that makes no entry.
#[derive(Clone, Copy, Debug, PartialEq, Eq)]
pub enum Answer {
    Entered(Reply),
    /// The query still waits, at this gate.
    Waits(u32),
    Refuses(Why),
}

/// One entry of the journal.
#[derive(Clone, Copy, Debug, PartialEq, Eq)]
pub struct Entry {
    pub session: u32,
    pub event: Event,
    pub reply: Reply,
}
