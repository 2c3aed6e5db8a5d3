//! What a line of a session asks for that is no query.
use pdq_model::Setting;
use pdq_sql::SqlFault;

/// A line that is no query over the tables.
#[derive(Clone, Copy)]
pub enum Plain {
    /// A blank line or a comment.
    Nothing,
    /// No line of the language.
    BadLine(SqlFault),
    /// A query over names that do not fit the tables.
    Unresolved(SqlFault),
    /// HELLO, and ADMIN.
    Open(bool),
    /// SET PDQPRIORITY with this number.
    Priority(u32),
    Cancel(u32),
    /// ONMODE.
    Change(Setting),
    Status,
    Quit,
    Shutdown,
}
