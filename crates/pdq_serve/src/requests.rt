//! What a line of a session asks for, as it is read.
ghost use Rattle.std.specs.Prelude.{◌≡◌, ◌≤◌, IfOk, IsTrue, length};
ghost use Rattle.pdq_query.specs.Fits.{Fits};
ghost use Rattle.pdq_query.specs.Queries.{query_of};
ghost use Rattle.pdq_sql.specs.Asts.{ast_of};
ghost use Rattle.pdq_sql.specs.Commands.{command_of};
ghost use Rattle.pdq_sql.specs.LineReading.{has_no_end};
ghost use Rattle.pdq_sql.specs.Resolution.{resolution_of};
ghost use Rattle.pdq_reply.specs.Changes.{letter_setting, level_priority};
ghost use Rattle.pdq_serve.specs.Commands.{said_by, said_by_command, said_by_query, said_in, IsRequest, QueryHasParts};
ghost use Rattle.pdq_serve.specs.Questions.{IsQuestion};

use crate::commands::Request;
use crate::questions::Question;
use pdq_base::Memory;
use pdq_model::Setting;
use pdq_prune::{left, widest};
use pdq_query::Query;
use pdq_sql::{Ast, Command, Letter, Level, LineHome, SqlFault, SqlWhy, read_line, resolve};
use pdq_table::Stored;
use pdq_talk::Plain;
use std::alloc::Global;

/// The priority that SET PDQPRIORITY asks for, where DEFAULT is this.
fn priority_of(level: Level, opening: u32) -> u32
    ensures value { result ≡ level_priority opening level }
{
    match level {
        Level::Number(priority) => priority,
        Level::Off => 0,
        Level::Low => 1,
        Level::High => 100,
        Level::Default => opening,
    }
}

/// What ONMODE sets by this letter.
fn setting_of(letter: Letter, value: u32) -> Setting
    ensures value { result ≡ letter_setting letter value }
{
    match letter {
        Letter::D => Setting::MaxPriority(value),
        Letter::M => Setting::TotalMemory(value),
        Letter::Q => Setting::MaxQueries(value),
        Letter::S => Setting::MaxScans(value),
        Letter::N => Setting::NonPdq(value),
    }
}

/// A query that fits the tables, with the number of the fragments that can hold an answer, of the table where they are most.
fn question(alloc: Global, stored: &Stored, query: Query) -> Result<Question, Memory>
    requires fits { Fits stored.now.schema.shapes (query_of query) }
    ensures question { IfOk result (λ q. IsQuestion stored.now q) }
    ensures query { IfOk result (λ q. q.query ≡ query) }
{
    let left = left(alloc, stored, &query)?;
    let frags = widest(&left);
    Ok(Question { query, frags })
}

/// A query, where its names fit the tables.
fn query_request(alloc: Global, stored: &Stored, ast: &Ast) -> Result<Request, Memory>
    requires some_item { 1 ≤ length ast.now.items.items }
    requires some_table { 1 ≤ length ast.now.tables.items }
    ensures request { IfOk result (λ r. IsRequest stored.now r) }
    ensures said { IfOk result (λ r. said_in r ≡ said_by_query (resolution_of stored.now.schema.shapes (ast_of ast.now))) }
{
    match resolve(alloc, stored.schema().shapes(), ast) {
        Ok(query) => Ok(Request::Query(question(alloc, stored, query)?)),
        Err(
            SqlFault {
                why: SqlWhy::Memory,
                ..
            },
        ) => Err(Memory),
        Err(fault) => Ok(Request::Plain(Plain::Unresolved(fault))),
    }
}

/// What a command of a session asks for.
fn request_of(
    alloc: Global,
    stored: &Stored,
    opening: u32,
    command: &Command,
) -> Result<Request, Memory>
    requires parts { QueryHasParts (command_of command.now) }
    ensures request { IfOk result (λ r. IsRequest stored.now r) }
    ensures said { IfOk result (λ r. said_in r ≡ said_by_command stored.now opening (command_of command.now)) }
{
    let plain = match command {
        Command::Query(ast) => return query_request(alloc, stored, ast),
        Command::SetPriority(level) => Plain::Priority(priority_of(*level, opening)),
        Command::Cancel(id) => Plain::Cancel(*id),
        Command::Onstat => Plain::Status,
        Command::Onmode { letter, value } => Plain::Change(setting_of(*letter, *value)),
        Command::Hello => Plain::Open(false),
        Command::Admin => Plain::Open(true),
        Command::Quit => Plain::Quit,
        Command::Shutdown => Plain::Shutdown,
        _ => Plain::Nothing,
    };
    Ok(Request::Plain(plain))
}

/// What a line of these bytes asks for.
///
/// # Errors
/// `Memory` where it is wanting.
#[tactic(auto, unfolding(crate::specs::Commands::said_by))]
pub(crate) fn read_request(
    alloc: Global,
    stored: &Stored,
    opening: u32,
    line: &[u8],
) -> Result<Request, Memory>
    requires size { length line.now ≤ 8192 }
    requires line { IsTrue (has_no_end line.now) }
    ensures request { IfOk result (λ r. IsRequest stored.now r) }
    ensures said { IfOk result (λ r. said_in r ≡ said_by stored.now opening line.now) }
{
    match read_line(alloc, LineHome::Session, line) {
        Ok(Some(command)) => request_of(alloc, stored, opening, &command),
        Ok(None) => Ok(Request::Plain(Plain::Nothing)),
        Err(
            SqlFault {
                why: SqlWhy::Memory,
                ..
            },
        ) => Err(Memory),
        Err(fault) => Ok(Request::Plain(Plain::BadLine(fault))),
    }
}
