//! What the lines of a script and of a session say.
use crate::ast::Ast;

/// Whose line it is: a script's, which acts for several sessions, or one session's own.
#[derive(Clone, Copy, Debug, PartialEq, Eq)]
pub enum LineHome {
    Script,
    Session,
}

/// The priority that SET PDQPRIORITY asks for.
#[derive(Clone, Copy, Debug, PartialEq, Eq)]
pub enum Level {
    Number(u32),
    Off,
    Low,
    High,
    Default,
}

/// What ONMODE sets: MAX_PDQPRIORITY (`-D`), DS_TOTAL_MEMORY (`-M`), DS_MAX_QUERIES (`-Q`) or DS_MAX_SCANS (`-S`), as in Informix, or
/// DS_NONPDQ_QUERY_MEM (`-N`, an option of our own).
#[derive(Clone, Copy, Debug, PartialEq, Eq)]
pub enum Letter {
    D,
    M,
    Q,
    S,
    N,
}

/// A line. A number above 4,294,967,295 is carried as that.
#[derive(Debug, Drop)]
pub enum Command {
    SetPriority(Level),
    Query(Ast),
    Cancel(u32),
    /// `ONSTAT -g MGM`
    Onstat,
    Onmode { letter: Letter, value: u32 },
    Claim { priority: u32, frags: u32 },
    Run(u32),
    Done(u32),
    OpenSession { admin: bool },
    /// USE
    Choose(u32),
    CloseSession(u32),
    Hello,
    Admin,
    Quit,
    Shutdown,
}
