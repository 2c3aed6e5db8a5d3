//! The parser of the command line, and the form of the words that it finds.
ghost use Rattle.std.specs.Prelude.{◌≡◌, IfErr, IfOk, Some, is_some, map, option_map, string_bytes, true};
ghost use Rattle.clap.specs.Words.{app_of, first_of, found_of, kind_of, rows_of, subcommand_rows_of};
ghost use Rattle.clap.specs.declared.error.kind.ErrorKind.TheVariants.{OutOfMemory};
ghost use Rattle.pdqd.specs.Words.{form_of, over_tables};
ghost use Rattle.pdqd.specs.CommandLine.{ask_command, ask_found, command_line, form_found, found_beside_ask, make_command, make_found, number_in, numbers_found, script_command, script_found};

use crate::file_names::FileName;
use crate::words::{Form, make, number, over_tables, script};
use clap::{Arg, ArgMatches, Command, Error};
use pdq_base::Memory;
use pdq_value::Text;
use std::alloc::{AllocError, Global};

/// `ask SELECT`, and the name of a schema file that may follow.
fn ask_command<'a>(alloc: Global) -> Result<Command<'a>, AllocError>
    ensures app { IfOk result (λ command. app_of command ≡ ask_command) }
{
    let select = Arg::new(alloc, "select").required(true);
    let schema = Arg::new(alloc, "schema");
    Command::new(alloc, "ask").arg(select)?.arg(schema)
}

/// `script T Q S m p`, and the name of a schema file that may follow.
fn script_command<'a>(alloc: Global) -> Result<Command<'a>, AllocError>
    ensures app { IfOk result (λ command. app_of command ≡ script_command) }
{
    let total_memory = Arg::new(alloc, "total_memory").required(true);
    let max_queries = Arg::new(alloc, "max_queries").required(true);
    let max_scans = Arg::new(alloc, "max_scans").required(true);
    let max_priority = Arg::new(alloc, "max_priority").required(true);
    let opening = Arg::new(alloc, "opening").required(true);
    let schema = Arg::new(alloc, "schema");
    Command::new(alloc, "script")
        .arg(total_memory)?
        .arg(max_queries)?
        .arg(max_scans)?
        .arg(max_priority)?
        .arg(opening)?
        .arg(schema)
}

/// `make N`.
fn make_command<'a>(alloc: Global) -> Result<Command<'a>, AllocError>
    ensures app { IfOk result (λ command. app_of command ≡ make_command) }
{
    let count = Arg::new(alloc, "count").required(true);
    Command::new(alloc, "make").arg(count)
}

/// The command line: one of the three commands, and no word for help.
fn command_line<'a>(alloc: Global) -> Result<Command<'a>, AllocError>
    ensures app { IfOk result (λ command. app_of command ≡ command_line) }
{
    let ask = ask_command(alloc)?;
    let script = script_command(alloc)?;
    let make = make_command(alloc)?;
    let program = Command::new(alloc, "pdqd")
        .no_binary_name(true)
        .disable_help_flag(true)
        .disable_help_subcommand(true)
        .subcommand_required(true);
    program
        .subcommand(ask)?
        .subcommand(script)?
        .subcommand(make)
}

/// What a parse finds in words that have a form; they are refused for want of memory alone.
pub(crate) fn parse<'a>(alloc: Global, words: &'a [String]) -> Result<ArgMatches<'a>, Error>
    requires form { is_some (form_of (map string_bytes words.now)) ≡ true }
    ensures found { IfOk result (λ found. form_found (subcommand_rows_of found) ≡ form_of (map string_bytes words.entry.now)) }
    ensures wanting { IfErr result (λ error. kind_of error ≡ OutOfMemory) }
{
    command_line(alloc)?.try_get_matches_from(words)
}

/// The word of this name.
fn word_in<'a>(found: &ArgMatches<'a>, name: &str) -> Option<&'a str>
    ensures value { option_map (λ word. word.now) result ≡ first_of name.now (rows_of (found_of found.now)) }
{
    found.get_str(name)
}

/// The number that the word of this name says.
fn number_in(found: &ArgMatches, name: &str) -> Option<u32>
    ensures value { result ≡ number_in (rows_of (found_of found.now)) name.now }
{
    match word_in(found, name) {
        Some(word) => number(word),
        None => None,
    }
}

/// The script of the numbers among the words of `script`; None where one is out of range.
fn numbers_in(found: &ArgMatches) -> Option<Form>
    ensures value { result ≡ numbers_found (rows_of (found_of found.now)) }
{
    script(
        number_in(found, "total_memory"),
        number_in(found, "max_queries"),
        number_in(found, "max_scans"),
        number_in(found, "max_priority"),
        number_in(found, "opening"),
    )
}

/// A script over the tables of the schema file of this name; None where there is no script.
///
/// # Errors
/// `Memory` where it is wanting.
fn script_over(alloc: Global, form: Option<Form>, schema: &str) -> Result<Option<Form>, Memory>
    ensures value { IfOk result (λ script. script ≡ over_tables schema.now form) }
{
    let schema = FileName::copied(alloc, schema)?;
    match form {
        Some(form) => Ok(over_tables(form, schema)),
        None => Ok(None),
    }
}

/// The script that the words of `script` ask for; None where a number is out of range.
///
/// # Errors
/// `Memory` where it is wanting.
fn script_in(alloc: Global, found: &ArgMatches) -> Result<Option<Form>, Memory>
    ensures value { IfOk result (λ form. form ≡ script_found (rows_of (found_of found.now))) }
{
    let form = numbers_in(found);
    match word_in(found, "schema") {
        Some(schema) => script_over(alloc, form, schema),
        None => Ok(form),
    }
}

/// The making that the words of `make` ask for; None where its number is out of range.
fn making_in(found: &ArgMatches) -> Option<Form>
    ensures value { result ≡ make_found (rows_of (found_of found.now)) }
{
    make(number_in(found, "count"))
}

/// The form of the words of a command of this name, which is not `ask`; None where a number is out of range.
///
/// # Errors
/// `Memory` where it is wanting.
fn form_beside_ask(alloc: Global, name: &str, words: &ArgMatches) -> Result<Option<Form>, Memory>
    ensures value { IfOk result (λ form. form ≡ found_beside_ask name.now (rows_of (found_of words.now))) }
{
    if name == "make" {
        Ok(making_in(words))
    } else {
        script_in(alloc, words)
    }
}

/// The question that the words of `ask` put.
///
/// # Errors
/// `Memory` where it is wanting.
fn question_in(alloc: Global, found: &ArgMatches) -> Result<Option<Form>, Memory>
    ensures value { IfOk result (λ form. form ≡ ask_found (rows_of (found_of found.now))) }
{
    let Some(select) = word_in(found, "select") else {
        return Ok(None);
    };
    let select = Text::from_str(alloc, select)?;
    let Some(schema) = word_in(found, "schema") else {
        return Ok(Some(Form::Ask(select)));
    };
    let schema = FileName::copied(alloc, schema)?;
    Ok(Some(Form::AskTables { select, schema }))
}

/// The form of the words of the command of this name; None where a number is out of range.
///
/// # Errors
/// `Memory` where it is wanting.
fn form_of_command(alloc: Global, name: &str, words: &ArgMatches) -> Result<Option<Form>, Memory>
    ensures value { IfOk result (λ form. form ≡ form_found (Some (name.now, rows_of (found_of words.now)))) }
{
    if name == "ask" {
        question_in(alloc, words)
    } else {
        form_beside_ask(alloc, name, words)
    }
}

/// The form of the words that a parse found; None where a number is out of range.
///
/// # Errors
/// `Memory` where it is wanting.
pub(crate) fn form_in(alloc: Global, found: &ArgMatches) -> Result<Option<Form>, Memory>
    ensures value { IfOk result (λ form. form ≡ form_found (subcommand_rows_of found.now)) }
{
    match found.subcommand() {
        Some(command) => form_of_command(alloc, command.0, command.1),
        None => Ok(None),
    }
}
