//! What is asked of the tables at hand: the question, or the line that refuses it.
ghost use Rattle.std.specs.Prelude.{◌≡◌, ◌≤◌, IfOk, OnOk, IsErrOf, Err, length};
ghost use Rattle.pdq_edge.specs.Causes.{Rose};
ghost use Rattle.pdq_sql.specs.Asts.{ast_of};
ghost use Rattle.pdq_sql.specs.Reading.{select_reading};
ghost use Rattle.pdq_sql.specs.Resolution.{resolution_of};
ghost use Rattle.pdq_reply.specs.Answers.{refused_select, refused_table};
ghost use Rattle.pdq_table.specs.Storing.{shapes_of};
ghost use Rattle.pdqd.specs.Ask.{IsAskable, ask_question, question_of, question_of_query, question_of_select};
ghost use Rattle.pdqd.specs.Files.{FilesGive};

use crate::input::InputFault;
use pdq_ask::read_stored;
use pdq_base::Memory;
use pdq_edge::Files;
use pdq_load::{Unloaded, load_tables};
use pdq_reply::{add_refused_select, add_refused_table};
use pdq_sql::{Ast, Query, SqlFault, SqlWhy, read_select, resolve};
use pdq_table::Stored;
use pdq_value::LoadFault;
use std::alloc::Global;

/// What is asked.
#[derive(Drop)]
pub(crate) enum Asked {
    /// A query over stored tables.
    Question { stored: Stored, query: Query },
    /// Nothing: this line refuses it.
    Refused(Vec<u8>),
}

fn refusal(alloc: Global, fault: SqlFault) -> Result<Asked, Memory>
    ensures asked { IfOk result (λ a. question_of a ≡ Err (refused_select fault)) }
    ensures askable { IfOk result IsAskable }
{
    let mut text = Vec::new(alloc);
    add_refused_select(alloc, &mut text, fault)?;
    Ok(Asked::Refused(text))
}

/// Stored tables have the shapes of their schema.
fn know_shapes(stored: &Stored)
    ensures shapes { shapes_of stored.now.tables ≡ stored.now.schema.shapes }
{
    let _dict = stored.dict();
}

/// What a select in the grammar asks of stored tables.
fn question_of_ast(alloc: Global, stored: Stored, ast: &Ast) -> Result<Asked, Memory>
    requires some_item { 1 ≤ length ast.now.items.items }
    requires some_table { 1 ≤ length ast.now.tables.items }
    ensures asked { IfOk result (λ a. question_of a ≡ question_of_query stored.tables (resolution_of (shapes_of stored.tables) (ast_of ast.now))) }
    ensures askable { IfOk result IsAskable }
{
    know_shapes(&stored);
    match resolve(alloc, stored.schema().shapes(), ast) {
        Ok(query) => Ok(Asked::Question { stored, query }),
        Err(
            SqlFault {
                why: SqlWhy::Memory,
                ..
            },
        ) => Err(Memory),
        Err(fault) => refusal(alloc, fault),
    }
}

/// What a select asks of stored tables.
fn question_of_select(alloc: Global, stored: Stored, select: &[u8]) -> Result<Asked, Memory>
    requires size { length select.now ≤ 8192 }
    ensures asked { IfOk result (λ a. question_of a ≡ question_of_select stored.tables (select_reading select.now)) }
    ensures askable { IfOk result IsAskable }
{
    match read_select(alloc, select) {
        Ok(ast) => question_of_ast(alloc, stored, &ast),
        Err(fault) => match fault.why {
            SqlWhy::BadLine => refusal(alloc, fault),
            _ => Err(Memory),
        },
    }
}

fn refused_table(alloc: Global, fault: LoadFault) -> Result<Asked, Memory>
    ensures asked { IfOk result (λ a. question_of a ≡ Err (refused_table fault)) }
    ensures askable { IfOk result IsAskable }
{
    let mut text = Vec::new(alloc);
    add_refused_table(alloc, &mut text, fault)?;
    Ok(Asked::Refused(text))
}

/// What a select asks of the one plain table that the bytes say.
#[tactic(auto, unfolding(crate::specs::Ask::ask_question))]
pub(crate) fn question(alloc: Global, select: &[u8], bytes: Vec<u8>) -> Result<Asked, Memory>
    requires size { length select.now ≤ 8192 }
    ensures asked { IfOk result (λ a. question_of a ≡ ask_question select.now bytes.items) }
    ensures askable { IfOk result IsAskable }
{
    let stored = read_stored(alloc, &bytes);
    drop(bytes);
    match stored {
        Ok(stored) => question_of_select(alloc, stored, select),
        Err(LoadFault::Memory) => Err(Memory),
        Err(fault) => refused_table(alloc, fault),
    }
}

/// What a select asks of the tables of the schema file of this name.
pub(crate) fn question_from_files<F: Files>(
    alloc: Global,
    select: &[u8],
    schema: &str,
    files: &mut F,
) -> Result<Asked, InputFault>
    requires size { length select.now ≤ 8192 }
    ensures asked { IfOk result (λ a. FilesGive (F.contents files.old) select.now schema.now (question_of a)) }
    ensures askable { IfOk result IsAskable }
    ensures passed { OnOk result (F.faults files.new ≡ F.faults files.old) }
    ensures failed { IsErrOf result InputFault.Failed → Rose (F.faults files.old) (F.faults files.new) }
    ensures memory { IsErrOf result InputFault.Memory → F.faults files.new ≡ F.faults files.old }
{
    match load_tables(alloc, schema, files) {
        Ok(stored) => Ok(question_of_select(alloc, stored, select)?),
        Err(Unloaded::Refused(line)) => Ok(Asked::Refused(line)),
        Err(Unloaded::Failed) => Err(InputFault::Failed),
        Err(Unloaded::Memory) => Err(InputFault::Memory),
    }
}
