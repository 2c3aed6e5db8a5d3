//! What is replied to one line of a session, as a value that names the steps that it prints.
use pdq_model::{Setting, Why};
use pdq_sql::SqlFault;

/// The session that is open: its number, and whether it is an administrator's.
#[derive(Clone, Copy, Debug, PartialEq, Eq)]
pub struct Party {
    pub number: u32,
    pub admin: bool,
}

/// What a session keeps from line to line: who it is, its priority, and the greatest step that was printed.
#[derive(Clone, Copy, Debug, PartialEq, Eq)]
pub struct Standing {
    pub party: Option<Party>,
    pub priority: u32,
    pub step: u64,
}

/// How a query ended that ran: with the text of its rows, or for this cause.
#[derive(Drop)]
pub enum Evaluated {
    Rows(Vec<u8>),
    TooManyRows,
    StoreFailed,
    NoMemory,
}

/// What a granted query came to: its end and the step of it, or the steps at which it was stopped and flagged.
#[derive(Drop)]
pub enum Ran {
    Ended(Evaluated, u64),
    WasStopped(u64, u64),
}

/// What became of a query that was placed: it was cancelled while it waited, at these steps; or it was granted at this step, so many quanta and
/// scan threads, with this priority and flag.
#[derive(Drop)]
pub enum Came {
    WasCancelled(u64, u64),
    WasGranted(u64, u32, u32, u32, Option<u64>, Ran),
}

/// What is replied to one line.
#[derive(Drop)]
pub enum Replied {
    /// No reply at all.
    Silent,
    /// The line is none of the language, or its query does not fit the tables.
    Error(SqlFault),
    /// No session is open.
    NoSession,
    /// Want of memory, for the whole line.
    NoRoom,
    Opened(u32, u64, bool),
    /// The session's own refusals at a step: HELLO or ADMIN in an open session, SHUTDOWN by a user.
    NotNow(u64),
    NotAllowed(u64),
    /// The manager's refusal at a step.
    Refused(Why, u64),
    /// A change was refused at a step; the pool was made by the status of the first step.
    ChangeRefused(Why, u64, u64),
    PrioritySet(u32),
    OutOfRange,
    /// The fragments that a query asked for, its number, step, priority and gate, and what became of it.
    Placed(u32, u32, u64, u32, u32, Came),
    /// Whether the query waited, its number, and the step.
    Cancelled(bool, u32, u64),
    Changed(Setting, bool, u64),
    Shown(u64, Vec<u8>),
    /// The session ends with this line: its number and step, and whether the line was SHUTDOWN.
    Closed(u32, u64, bool),
    /// It ends before it was opened.
    Left,
}
