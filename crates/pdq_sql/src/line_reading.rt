//! A line of a script or of a session, read from its tokens from left to right.
ghost use Rattle.std.specs.Prelude.{◌≡◌, ◌≤◌, length, IsTrue, IfOk, IfErr, IfSome, IsSome, Result, Ok, None, true, false, option_map};
ghost use Rattle.std.specs.Str.{bytes_eq};
ghost use Rattle.pdq_sql.specs.Tokens.{tokens_of};
ghost use Rattle.pdq_sql.specs.Reading.{Gives, number_of, expect_of, IsReadAs};
ghost use Rattle.pdq_sql.specs.Grammar.{Accepts, IsRefusal};
ghost use Rattle.pdq_sql.specs.LineGrammar.{IsLine, AcceptsLine};
ghost use Rattle.pdq_sql.specs.LineReading.{is_silent, has_no_end, script_verb_of, session_verb_of, verb_of, verb_at, next_word, word_at, level_of, mode_of, user_of, command_after, whole_line_of, line_reading};
ghost use Rattle.pdq_sql.specs.Commands.{CommandView, command_of};
ghost use Rattle.pdq_sql.specs.declared.line_reading.Verb.TheVariants as verb;

use crate::ast::Ast;
use crate::commands::{Command, Letter, Level, LineHome};
use crate::faults::SqlFault;
use crate::lexing::tokens;
use crate::reading::{NO_MEMORY, ParseFault, Unread, expect, number, select, unread_of};
use crate::tokens::{Mark, Token, TokenKind};
use pdq_base::{is_blank, is_text};
use std::alloc::Global;

/// The first word of a line.
#[derive(Clone, Copy)]
pub enum Verb {
    Set,
    Query,
    Cancel,
    Onstat,
    Onmode,
    Claim,
    Run,
    Done,
    Open,
    Use,
    Close,
    Hello,
    Admin,
    Quit,
    Shutdown,
}

/// The verb that a word is, in a script or in a session.
fn verb_of(home: LineHome, word: &[u8]) -> Option<Verb>
    ensures value { result ≡ verb_of home word.now }
{
    if is_text(word, b"set") {
        Some(Verb::Set)
    } else if is_text(word, b"query") {
        Some(Verb::Query)
    } else if is_text(word, b"cancel") {
        Some(Verb::Cancel)
    } else if is_text(word, b"onstat") {
        Some(Verb::Onstat)
    } else if is_text(word, b"onmode") {
        Some(Verb::Onmode)
    } else {
        match home {
            LineHome::Script => script_verb_of(word),
            LineHome::Session => session_verb_of(word),
        }
    }
}

fn script_verb_of(word: &[u8]) -> Option<Verb>
    ensures value { result ≡ script_verb_of word.now }
{
    if is_text(word, b"claim") {
        Some(Verb::Claim)
    } else if is_text(word, b"run") {
        Some(Verb::Run)
    } else if is_text(word, b"done") {
        Some(Verb::Done)
    } else if is_text(word, b"open") {
        Some(Verb::Open)
    } else if is_text(word, b"use") {
        Some(Verb::Use)
    } else if is_text(word, b"close") {
        Some(Verb::Close)
    } else {
        None
    }
}

fn session_verb_of(word: &[u8]) -> Option<Verb>
    ensures value { result ≡ session_verb_of word.now }
{
    if is_text(word, b"hello") {
        Some(Verb::Hello)
    } else if is_text(word, b"admin") {
        Some(Verb::Admin)
    } else if is_text(word, b"quit") {
        Some(Verb::Quit)
    } else if is_text(word, b"shutdown") {
        Some(Verb::Shutdown)
    } else {
        None
    }
}

fn leading_verb(home: LineHome, tokens: &[Token]) -> Result<(Verb, &[Token]), ParseFault>
    ensures value { Gives (λ x. (x.0, x.1.now)) result (verb_at home tokens.now) }
{
    match tokens {
        [
            Token {
                kind: TokenKind::Word(word),
                ..
            },
            rest @ ..,
        ] => match verb_of(home, word.bytes()) {
            Some(verb) => Ok((verb, rest)),
            None => Err(ParseFault::Unread(unread_of(tokens))),
        },
        _ => Err(ParseFault::Unread(unread_of(tokens))),
    }
}

/// Whether this word is next.
fn next_word(text: &[u8], tokens: &[Token]) -> bool
    ensures value { result ≡ next_word text.now tokens.now }
{
    match tokens {
        [
            Token {
                kind: TokenKind::Word(word),
                ..
            },
            ..
        ] => is_text(word.bytes(), text),
        _ => false,
    }
}

/// What stands after this word.
fn word<'a>(text: &[u8], tokens: &'a [Token]) -> Result<&'a [Token], ParseFault>
    ensures value { Gives (λ x. (text.now, x.now)) result (word_at text.now tokens.now) }
{
    match tokens {
        [
            Token {
                kind: TokenKind::Word(word),
                ..
            },
            rest @ ..,
        ] => {
            if is_text(word.bytes(), text) {
                Ok(rest)
            } else {
                Err(ParseFault::Unread(unread_of(tokens)))
            }
        }
        _ => Err(ParseFault::Unread(unread_of(tokens))),
    }
}

#[tactic(auto, unfolding(crate::specs::LineReading::level_of))]
fn read_level(tokens: &[Token]) -> Result<(Level, &[Token]), ParseFault>
    ensures value { Gives (λ x. (x.0, x.1.now)) result (level_of tokens.now) }
{
    if next_word(b"off", tokens) {
        let rest = word(b"off", tokens)?;
        Ok((Level::Off, rest))
    } else if next_word(b"low", tokens) {
        let rest = word(b"low", tokens)?;
        Ok((Level::Low, rest))
    } else if next_word(b"high", tokens) {
        let rest = word(b"high", tokens)?;
        Ok((Level::High, rest))
    } else if next_word(b"default", tokens) {
        let rest = word(b"default", tokens)?;
        Ok((Level::Default, rest))
    } else {
        let (n, rest) = number(tokens)?;
        Ok((Level::Number(n), rest))
    }
}

/// The letter of ONMODE.
fn mode(tokens: &[Token]) -> Result<(Letter, &[Token]), ParseFault>
    ensures value { Gives (λ x. (x.0, x.1.now)) result (mode_of tokens.now) }
{
    match tokens {
        [
            Token {
                kind: TokenKind::Switch(letter),
                ..
            },
            rest @ ..,
        ] => Ok((*letter, rest)),
        _ => Err(ParseFault::Unread(unread_of(tokens))),
    }
}

#[tactic(auto, unfolding(crate::specs::LineReading::user_of))]
fn user(tokens: &[Token]) -> Result<(bool, &[Token]), ParseFault>
    ensures value { Gives (λ x. (x.0, x.1.now)) result (user_of tokens.now) }
{
    if next_word(b"user", tokens) {
        let rest = word(b"user", tokens)?;
        Ok((false, rest))
    } else {
        let rest = word(b"admin", tokens)?;
        Ok((true, rest))
    }
}

/// What follows `SET`.
#[tactic(auto, unfolding(crate::specs::LineReading::command_after))]
fn set_priority(tokens: &[Token]) -> Result<(Command, &[Token]), ParseFault>
    ensures value { Gives (λ x. (command_of x.0, x.1.now)) result (command_after verb.Set tokens.now) }
{
    let rest = word(b"pdqpriority", tokens)?;
    let (level, rest) = read_level(rest)?;
    Ok((Command::SetPriority(level), rest))
}

/// What follows `ONSTAT`.
#[tactic(auto, unfolding(crate::specs::LineReading::command_after))]
fn onstat(tokens: &[Token]) -> Result<(Command, &[Token]), ParseFault>
    ensures value { Gives (λ x. (command_of x.0, x.1.now)) result (command_after verb.Onstat tokens.now) }
{
    let rest = expect(Mark::Statistics, tokens)?;
    let rest = word(b"mgm", rest)?;
    Ok((Command::Onstat, rest))
}

/// What follows `ONMODE`.
#[tactic(auto, unfolding(crate::specs::LineReading::command_after))]
fn onmode(tokens: &[Token]) -> Result<(Command, &[Token]), ParseFault>
    ensures value { Gives (λ x. (command_of x.0, x.1.now)) result (command_after verb.Onmode tokens.now) }
{
    let (letter, rest) = mode(tokens)?;
    let (value, rest) = number(rest)?;
    Ok((Command::Onmode { letter, value }, rest))
}

/// What follows `CLAIM`.
#[tactic(auto, unfolding(crate::specs::LineReading::command_after))]
fn claim(tokens: &[Token]) -> Result<(Command, &[Token]), ParseFault>
    ensures value { Gives (λ x. (command_of x.0, x.1.now)) result (command_after verb.Claim tokens.now) }
{
    let (priority, rest) = number(tokens)?;
    let (frags, rest) = number(rest)?;
    Ok((Command::Claim { priority, frags }, rest))
}

/// What follows a verb.
#[tactic(auto, unfolding(crate::specs::LineReading::command_after))]
fn command_after(
    alloc: Global,
    verb: Verb,
    tokens: &[Token],
) -> Result<(Command, &[Token]), ParseFault>
    ensures value { Gives (λ x. (command_of x.0, x.1.now)) result (command_after verb tokens.now) }
{
    match verb {
        Verb::Set => set_priority(tokens),
        Verb::Query => {
            let (ast, rest) = select(alloc, tokens)?;
            Ok((Command::Query(ast), rest))
        }
        Verb::Cancel => {
            let (id, rest) = number(tokens)?;
            Ok((Command::Cancel(id), rest))
        }
        Verb::Onstat => onstat(tokens),
        Verb::Onmode => onmode(tokens),
        Verb::Claim => claim(tokens),
        Verb::Run => {
            let (id, rest) = number(tokens)?;
            Ok((Command::Run(id), rest))
        }
        Verb::Done => {
            let (id, rest) = number(tokens)?;
            Ok((Command::Done(id), rest))
        }
        Verb::Open => {
            let (admin, rest) = user(tokens)?;
            Ok((Command::OpenSession { admin }, rest))
        }
        Verb::Use => {
            let (number, rest) = number(tokens)?;
            Ok((Command::Choose(number), rest))
        }
        Verb::Close => {
            let (number, rest) = number(tokens)?;
            Ok((Command::CloseSession(number), rest))
        }
        Verb::Hello => Ok((Command::Hello, tokens)),
        Verb::Admin => Ok((Command::Admin, tokens)),
        Verb::Quit => Ok((Command::Quit, tokens)),
        Verb::Shutdown => Ok((Command::Shutdown, tokens)),
    }
}

#[tactic(auto, unfolding(crate::specs::LineReading::whole_line_of))]
fn whole_line(alloc: Global, home: LineHome, tokens: &[Token]) -> Result<Command, ParseFault>
    ensures value { Gives command_of result (whole_line_of home tokens.now) }
{
    let (verb, after) = leading_verb(home, tokens)?;
    let (command, after) = command_after(alloc, verb, after)?;
    let after = expect(Mark::End, after)?;
    match after {
        [] => Ok(command),
        [first, ..] => Err(ParseFault::Unread(Unread::At(first.place))),
    }
}

/// Whether a line is blank or a comment.
fn is_silent(line: &[u8]) -> bool
    ensures value { result ≡ is_silent line.now }
{
    for byte in line {
        if !is_blank(*byte) {
            return *byte == b'#';
        }
    }
    true
}

/// Reads a line of a script or of a session: None for a line of blanks alone, and for one whose first byte that is not blank is `#`.
///
/// # Errors
/// `BadLine`, at the first token that no line of this home has after the tokens before it; the end of the line is a token too, whose
/// place is the line's length. `Memory`, at 0.
pub fn read_line(alloc: Global, home: LineHome, line: &[u8]) -> Result<Option<Command>, SqlFault>
    requires size { length line.now ≤ 8192 }
    requires line { IsTrue (has_no_end line.now) }

    ensures value { IsReadAs (option_map command_of) result (line_reading home line.now) }

    // A blank line or a comment gives nothing, and no other line does.
    ensures silent { is_silent line.now ≡ true → result ≡ Ok None }
    ensures speaks { is_silent line.now ≡ false → IfOk result (λ o. IsSome o) }
    // What is read is a line of the grammar.
    ensures found { IfOk result (λ o. IfSome o (λ c. IsLine home (tokens_of line.now) (command_of c))) }
    // A line of the grammar is read, unless memory runs out.
    ensures only { (c : CommandView) → IsLine home (tokens_of line.now) c → AcceptsLine result c }
    // What is refused is refused at the first token that no line has after the tokens before it.
    ensures bad { IfErr result (IsRefusal (IsLine home) (tokens_of line.now)) }
{
    if is_silent(line) {
        return Ok(None);
    }
    let Ok(tokens) = tokens(alloc, line) else {
        return Err(NO_MEMORY);
    };
    let command = whole_line(alloc, home, &tokens)?;
    Ok(Some(command))
}
