//! What a line of a script says.
ghost use Rattle.std.specs.Prelude.{◌≡◌, ◌≤◌, Ok, Some, None, IfErr, IfOk, IfSome, IsTrue, length, option_map};
ghost use Rattle.pdq_query.specs.Fits.{Fits};
ghost use Rattle.pdq_query.specs.Queries.{query_of};
ghost use Rattle.pdq_sql.specs.Asts.{ast_of};
ghost use Rattle.pdq_sql.specs.Commands.{command_of};
ghost use Rattle.pdq_sql.specs.LineReading.{has_no_end};
ghost use Rattle.pdq_session.specs.Commands.{line_of, said_as, AsksNoTable, IsUnread, QueryHasParts};
ghost use Rattle.pdq_session.specs.ScriptLines.{IsLineOf, SaysLine};
ghost use Rattle.pdq_session.specs.ScriptStates.{asked_of, shapes_asked};
ghost use Rattle.pdq_session.specs.ScriptTranscript.{fault_of, fault_of_command, fault_of_query, query_asked};

use crate::script_sessions::ScriptSessions;
use pdq_query::Query as Resolved;
use pdq_reply::LineFault;
use pdq_sql::{Ast, Command, LineHome, SqlFault, SqlWhy, read_line, resolve};
use std::alloc::Global;

/// Why a line is not run.
#[derive(Clone, Copy)]
pub(crate) enum Unread {
    Memory,
    Fault(LineFault),
}

/// A line as it is run.
#[derive(Drop)]
pub(crate) enum ScriptLine {
    /// A blank line or a comment.
    Blank,
    /// QUERY with this query.
    Query(Resolved),
    /// RUN of the query of this number.
    Run(u32),
    /// Any other command.
    Other(Command),
}

fn unread_by(fault: SqlFault) -> Unread
    ensures value { IsUnread result (Some (LineFault.Refused fault)) }
    ensures memory { fault.why ≡ SqlWhy.Memory → result ≡ Unread.Memory }
{
    match fault.why {
        SqlWhy::Memory => Unread::Memory,
        _ => Unread::Fault(LineFault::Refused(fault)),
    }
}

// The query that a select asks for.
fn resolved(alloc: Global, sessions: &ScriptSessions, ast: &Ast) -> Result<Resolved, Unread>
    requires some_item { 1 ≤ length ast.now.items.items }
    requires some_table { 1 ≤ length ast.now.tables.items }
    ensures value { IfOk result (λ q. query_asked (asked_of sessions.now.stored) (ast_of ast.now) ≡ Ok (query_of q)) }
    ensures fits { IfOk result (λ q. Fits (shapes_asked (asked_of sessions.now.stored)) (query_of q)) }
    ensures bad { IfErr result (λ u. IsUnread u (fault_of_query (query_asked (asked_of sessions.now.stored) (ast_of ast.now)))) }
{
    match resolve(alloc, sessions.shapes(), ast) {
        Ok(query) => Ok(query),
        Err(fault) => Err(unread_by(fault)),
    }
}

// The line of a command.
fn line_with(
    alloc: Global,
    sessions: &ScriptSessions,
    command: Command,
) -> Result<ScriptLine, Unread>
    requires parts { QueryHasParts (command_of command) }
    ensures says { IfOk result (IsLineOf (asked_of sessions.now.stored) (Some (command_of command))) }
    ensures bad { IfErr result (λ u. IsUnread u (fault_of_command (asked_of sessions.now.stored) (command_of command))) }
{
    match command {
        Command::Query(ast) => match resolved(alloc, sessions, &ast) {
            Ok(query) => Ok(ScriptLine::Query(query)),
            Err(unread) => Err(unread),
        },
        Command::Run(id) => Ok(ScriptLine::Run(id)),
        other => Ok(ScriptLine::Other(other)),
    }
}

// The line of what was said.
fn line_said(
    alloc: Global,
    sessions: &ScriptSessions,
    said: Option<Command>,
) -> Result<ScriptLine, Unread>
    requires parts { IfSome said (λ c. QueryHasParts (command_of c)) }
    ensures says { IfOk result (IsLineOf (asked_of sessions.now.stored) (option_map command_of said)) }
    ensures bad { IfErr result (λ u. IsUnread u (fault_of (asked_of sessions.now.stored) (said_as said))) }
{
    match said {
        Some(command) => line_with(alloc, sessions, command),
        None => Ok(ScriptLine::Blank),
    }
}

/// Reads a line of a script over its tables.
///
/// # Errors
/// Why the line ends the script, or want of memory.
#[tactic(auto, unfolding(crate::specs::Commands::line_of))]
pub(crate) fn read_script_line(
    alloc: Global,
    sessions: &ScriptSessions,
    line: &[u8],
) -> Result<ScriptLine, Unread>
    requires size { length line.now ≤ 8192 }
    requires line { IsTrue (has_no_end line.now) }
    ensures says { IfOk result (SaysLine (asked_of sessions.now.stored) (line_of line.now)) }
    ensures bad { IfErr result (λ u. IsUnread u (fault_of (asked_of sessions.now.stored) (line_of line.now))) }
{
    match read_line(alloc, LineHome::Script, line) {
        Ok(said) => line_said(alloc, sessions, said),
        Err(fault) => Err(unread_by(fault)),
    }
}
