//! The words of the command line.
ghost use Rattle.std.specs.Prelude.{◌≡◌, IfOk, IfSome, OnErr, is_some, map, string_bytes};
ghost use Rattle.std.specs.Char.{is_ascii_digit};
ghost use Rattle.std.specs.List.{list_all};
ghost use Rattle.pdqd.specs.Words.{over_tables, script_form, has_digits, has_leading_zero, is_count, is_number, make_of, number_of, script_of, is_plain_word, form_of, form_of_plain, form_of_two, HasForm, IsInRange};

use crate::command_line::{form_in, parse};
use crate::file_names::FileName;
use pdq_base::Memory;
use pdq_model::Config;
use pdq_value::Text;
use std::alloc::Global;

/// DS_NONPDQ_QUERY_MEM when a script begins, in KB.
const NONPDQ_KB: u32 = 128;

/// What the words ask for.
#[derive(Drop)]
pub(crate) enum Form {
    /// A script over a manager of this configuration, with the priority that its sessions begin with.
    Script {
        config: Config,
        opening: u32,
    },
    /// The same over the tables of the schema file of this name.
    ScriptTables {
        config: Config,
        opening: u32,
        schema: FileName,
    },
    /// The answer of a select over the plain table of the source.
    Ask(Text),
    /// The answer of a select over the tables of the schema file of this name.
    AskTables {
        select: Text,
        schema: FileName,
    },
    /// The ends of three answers over so many generated sales and their shops.
    Make(u32),
}

fn all_digits(word: &[u8]) -> bool
    ensures value { result ≡ list_all is_ascii_digit word.now }
{
    word.iter().all(|byte| byte.is_ascii_digit())
}

fn has_digits(word: &[u8]) -> bool
    ensures value { result ≡ has_digits word.now }
{
    !word.is_empty() && word.len() <= 7 && all_digits(word)
}

fn has_leading_zero(word: &[u8]) -> bool
    ensures value { result ≡ has_leading_zero word.now }
{
    word.len() > 1 && word.starts_with(b"0")
}

fn is_number(word: &[u8]) -> bool
    ensures value { result ≡ is_number word.now }
{
    has_digits(word) && !has_leading_zero(word)
}

/// The number that a word says: 1 to 7 decimal digits without a leading zero, or 0.
pub(crate) fn number(word: &str) -> Option<u32>
    ensures value { result ≡ number_of word.now }
{
    if is_number(word.as_bytes()) {
        word.parse().ok()
    } else {
        None
    }
}

/// The script of these numbers, in the order T Q S m p; None where one is missing or out of range.
#[tactic(auto, unfolding(crate::specs::Words::script_of))]
pub(crate) fn script(
    t: Option<u32>,
    q: Option<u32>,
    s: Option<u32>,
    m: Option<u32>,
    p: Option<u32>,
) -> Option<Form>
    ensures value { result ≡ script_of t q s m p }
    ensures in_range { IfSome result IsInRange }
{
    let (Some(t), Some(q), Some(s), Some(m), Some(opening)) = (t, q, s, m, p) else {
        return None;
    };
    if opening > 100 {
        return None;
    }
    match Config::check(m, t, q, s, NONPDQ_KB) {
        Some(config) => Some(Form::Script { config, opening }),
        None => None,
    }
}

/// The same script over the tables of the schema file of this name; None of another form.
pub(crate) fn over_tables(form: Form, schema: FileName) -> Option<Form>
    ensures value { result ≡ over_tables schema (Some form) }
{
    match form {
        Form::Script { config, opening } => Some(Form::ScriptTables {
            config,
            opening,
            schema,
        }),
        _ => None,
    }
}

/// The making of so many sales; None where the number is missing or out of range.
pub(crate) fn make(count: Option<u32>) -> Option<Form>
    ensures value { result ≡ make_of count }
    ensures in_range { IfSome result IsInRange }
{
    match count {
        Some(count) if 1 <= count && count <= 1_000_000 => Some(Form::Make(count)),
        _ => None,
    }
}

/// Whether a word can be in a form: at most 8,192 bytes, of which the first is no dash.
fn is_plain_word(word: &[u8]) -> bool
    ensures value { result ≡ is_plain_word word.now }
{
    word.len() <= 8192 && !word.starts_with(b"-")
}

fn are_plain(words: &[String]) -> bool
    ensures value { result ≡ list_all (λ word. is_plain_word (string_bytes word)) words.now }
{
    words.iter().all(|word| is_plain_word(word.as_bytes()))
}

/// Whether two plain words have a form, with the number in range.
fn is_form_of_two(first: &str, second: &str) -> bool
    ensures value { result ≡ is_some (form_of_two first.now second.now) }
{
    first == "ask" || (first == "make" && make(number(second)).is_some())
}

/// Whether the words of a script have a form, with each number in range.
fn is_form_of_script(first: &str, t: &str, q: &str, s: &str, m: &str, p: &str) -> bool
    ensures value { result ≡ is_some (script_form first.now t.now q.now s.now m.now p.now) }
{
    first == "script" && script(number(t), number(q), number(s), number(m), number(p)).is_some()
}

/// Whether plain words have a form, with each number in range.
fn is_form(words: &[String]) -> bool
    ensures value { result ≡ is_some (form_of_plain (map string_bytes words.now)) }
{
    match words {
        [first, second] => is_form_of_two(first, second),
        [first, _select, _schema] => first.as_str() == "ask",
        [first, t, q, s, m, p] => is_form_of_script(first, t, q, s, m, p),
        [first, t, q, s, m, p, _schema] => is_form_of_script(first, t, q, s, m, p),
        _ => false,
    }
}

/// Whether the words have a form, with each number in range. This takes no memory, so that words without a form are told
/// from want of memory.
fn have_form(words: &[String]) -> bool
    ensures value { result ≡ is_some (form_of (map string_bytes words.now)) }
{
    are_plain(words) && is_form(words)
}

/// The form that the words have; None where they have none or a number is out of range.
///
/// # Errors
/// `Memory` where it is wanting; then the words have a form.
pub(crate) fn read_words(alloc: Global, words: &[String]) -> Result<Option<Form>, Memory>
    ensures value { IfOk result (λ form. form ≡ form_of (map string_bytes words.now)) }
    ensures in_range { IfOk result (λ form. IfSome form IsInRange) }
    ensures wanting { OnErr result (HasForm (form_of (map string_bytes words.now))) }
{
    if !have_form(words) {
        return Ok(None);
    }
    match parse(alloc, words) {
        Ok(found) => form_in(alloc, &found),
        Err(_) => Err(Memory),
    }
}
