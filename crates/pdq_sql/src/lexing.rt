//! Bytes into tokens, the longest token first.
ghost use Rattle.std.specs.Prelude.{◌≡◌, ◌+◌, ◌^◌, ◌<◌, ◌≤◌, ◌++◌, ◌==◌, length, IfOk, false, slice_index, take, true};
ghost use Rattle.std.specs.Char.{is_ascii_digit};
ghost use Rattle.std.specs.Str.{is_utf8, bytes_eq};
ghost use Rattle.pdq_base.specs.Lines.{is_blank};
ghost use Rattle.pdq_sql.specs.Tokens.{is_word_byte, run_of, lowered, reserved_of, word_token, number_len, number_token, quote_of, text_token, option_of, begins_word, minus_token, begins, symbol_token, token_of, tokens_of};

use crate::commands::Letter;
use crate::tokens::{Mark, Token, TokenKind};
use pdq_base::{is_blank, is_text, is_utf8};
use pdq_value::{Name, Text};
use std::alloc::{AllocError, Global};

const MOST_WORD: usize = 32;

fn is_word_byte(byte: u8) -> bool
    ensures value { result ≡ is_word_byte byte }
{
    byte.is_ascii_alphabetic() || byte.is_ascii_digit() || byte == b'_'
}

/// How many bytes at the front belong to a word.
fn word_len(bytes: &[u8]) -> usize
    ensures count { result ≡ run_of is_word_byte bytes.now }
    ensures within { result ≤ length bytes.now }
{
    let mut n = 0;
    while n < bytes.len() && is_word_byte(bytes[n]) {
        n += 1;
    }
    n
}

/// How many bytes at the front are digits.
fn digits_len(bytes: &[u8]) -> usize
    ensures count { result ≡ run_of is_ascii_digit bytes.now }
    ensures within { result ≤ length bytes.now }
{
    let mut n = 0;
    while n < bytes.len() && bytes[n].is_ascii_digit() {
        n += 1;
    }
    n
}

/// The reserved word that a word is.
fn reserved_of(word: &[u8]) -> Option<Mark>
    ensures value { result ≡ reserved_of word.now }
{
    if is_text(word, b"select") {
        Some(Mark::Select)
    } else if is_text(word, b"from") {
        Some(Mark::From)
    } else if is_text(word, b"where") {
        Some(Mark::Where)
    } else if is_text(word, b"and") {
        Some(Mark::And)
    } else if is_text(word, b"group") {
        Some(Mark::Group)
    } else if is_text(word, b"order") {
        Some(Mark::Order)
    } else if is_text(word, b"by") {
        Some(Mark::By)
    } else if is_text(word, b"asc") {
        Some(Mark::Asc)
    } else if is_text(word, b"desc") {
        Some(Mark::Desc)
    } else if is_text(word, b"sum") {
        Some(Mark::Sum)
    } else if is_text(word, b"avg") {
        Some(Mark::Avg)
    } else if is_text(word, b"min") {
        Some(Mark::Min)
    } else if is_text(word, b"max") {
        Some(Mark::Max)
    } else if is_text(word, b"count") {
        Some(Mark::Count)
    } else {
        None
    }
}

/// The bytes in lower case.
fn lowered(alloc: Global, bytes: &[u8]) -> Result<Vec<u8>, AllocError>
    ensures value { IfOk result (λ v. v.items ≡ lowered bytes.now) }
{
    bytes.iter().map(|b| b.to_ascii_lowercase()).collect(alloc)
}

fn word(alloc: Global, bytes: &[u8]) -> Result<(TokenKind, usize), AllocError>
    requires size { length bytes.now < 2 ^ 32 }
    ensures value { IfOk result (λ r. r ≡ word_token bytes.now) }
{
    let n = word_len(bytes);
    if n > MOST_WORD {
        return Ok((TokenKind::Bad, n));
    }
    let bytes = lowered(alloc, &bytes[..n])?;
    match reserved_of(&bytes) {
        Some(mark) => Ok((TokenKind::Fixed(mark), n)),
        None => Ok((TokenKind::Word(Name::new(bytes)), n)),
    }
}

/// How parts bytes the digits at the front take, with what stands behind a point.
fn number_len(bytes: &[u8]) -> usize
    ensures count { result ≡ number_len bytes.now }
    ensures within { result ≤ length bytes.now }
{
    let n = digits_len(bytes);
    match &bytes[n..] {
        [b'.', fraction @ ..] => {
            let m = digits_len(fraction);
            if m == 0 { n } else { n + 1 + m }
        }
        _ => n,
    }
}

/// The number of the first n bytes.
fn number(alloc: Global, bytes: &[u8], n: usize) -> Result<(TokenKind, usize), AllocError>
    requires within { n ≤ length bytes.now }
    requires utf8 { is_utf8 (take n bytes.now) ≡ true }
    ensures value { IfOk result (λ r. r ≡ number_token bytes.now n) }
{
    let bytes = Vec::from_slice(alloc, &bytes[..n])?;
    Ok((TokenKind::Number(Text::new(bytes)), n))
}

/// The text behind a quote, how parts bytes it takes with its last quote, and whether that stands there.
fn quote(alloc: Global, bytes: &[u8]) -> Result<(Vec<u8>, usize, bool), AllocError>
    ensures text { IfOk result (λ r. quote_of false bytes.now ≡ (r.0.items, r.1, r.2)) }
    ensures within { IfOk result (λ r. r.1 ≤ length bytes.now) }
{
    let mut text = Vec::new(alloc);
    let mut after_quote = false;
    let mut n = 0;
    while n < bytes.len() {
        let byte = bytes[n];
        n += 1;
        if byte != b'\'' {
            if after_quote {
                return Ok((text, n - 1, true));
            }
            text.push(byte)?;
            continue;
        }
        if !after_quote {
            after_quote = true;
            continue;
        }
        text.push(byte)?;
        after_quote = false;
    }
    Ok((text, n, after_quote))
}

fn quoted(alloc: Global, bytes: &[u8]) -> Result<(TokenKind, usize), AllocError>
    requires size { length bytes.now < 2 ^ 32 }
    ensures value { IfOk result (λ r. r ≡ text_token bytes.now) }
{
    let (text, n, is_closed) = quote(alloc, bytes)?;
    if is_closed && is_utf8(&text) {
        Ok((TokenKind::Quoted(Text::new(text)), n + 1))
    } else {
        Ok((TokenKind::Bad, n + 1))
    }
}

/// The option that a letter makes behind a minus.
fn option_of(letter: u8) -> Option<TokenKind>
    ensures value { result ≡ option_of letter }
{
    if letter == b'D' {
        Some(TokenKind::Switch(Letter::D))
    } else if letter == b'M' {
        Some(TokenKind::Switch(Letter::M))
    } else if letter == b'Q' {
        Some(TokenKind::Switch(Letter::Q))
    } else if letter == b'S' {
        Some(TokenKind::Switch(Letter::S))
    } else if letter == b'N' {
        Some(TokenKind::Switch(Letter::N))
    } else if letter == b'g' {
        Some(TokenKind::Fixed(Mark::Statistics))
    } else {
        None
    }
}

fn begins_word(bytes: &[u8]) -> bool
    ensures value { result ≡ begins_word bytes.now }
{
    match bytes {
        [] => false,
        [first, ..] => is_word_byte(*first),
    }
}

/// What begins with a minus.
fn minus(alloc: Global, bytes: &[u8]) -> Result<(TokenKind, usize), AllocError>
    requires size { length bytes.now < 2 ^ 32 }
    requires minus { (slice_index bytes.now 0 == 45) ≡ true }
    ensures value { IfOk result (λ r. r ≡ minus_token bytes.now) }
{
    match bytes {
        [_, second, rest @ ..] => {
            if second.is_ascii_digit() {
                let n = number_len(&bytes[1..]);
                return number(alloc, bytes, n + 1);
            }
            match option_of(*second) {
                Some(option) => {
                    if begins_word(rest) {
                        Ok((TokenKind::Bad, 1))
                    } else {
                        Ok((option, 2))
                    }
                }
                None => Ok((TokenKind::Bad, 1)),
            }
        }
        _ => Ok((TokenKind::Bad, 1)),
    }
}

fn begins(byte: u8, bytes: &[u8]) -> bool
    ensures value { result ≡ begins byte bytes.now }
{
    match bytes {
        [] => false,
        [first, ..] => *first == byte,
    }
}

fn symbol(first: u8, rest: &[u8]) -> (TokenKind, usize)
    ensures value { result ≡ symbol_token first rest.now }
{
    if first == b'(' {
        (TokenKind::Fixed(Mark::Open), 1)
    } else if first == b')' {
        (TokenKind::Fixed(Mark::Close), 1)
    } else if first == b',' {
        (TokenKind::Fixed(Mark::Comma), 1)
    } else if first == b'.' {
        (TokenKind::Fixed(Mark::Point), 1)
    } else if first == b'*' {
        (TokenKind::Fixed(Mark::Star), 1)
    } else if first == b'=' {
        (TokenKind::Fixed(Mark::Equal), 1)
    } else if first == b'<' {
        if begins(b'=', rest) {
            (TokenKind::Fixed(Mark::AtMost), 2)
        } else if begins(b'>', rest) {
            (TokenKind::Fixed(Mark::Unequal), 2)
        } else {
            (TokenKind::Fixed(Mark::Less), 1)
        }
    } else if first == b'>' {
        if begins(b'=', rest) {
            (TokenKind::Fixed(Mark::AtLeast), 2)
        } else {
            (TokenKind::Fixed(Mark::Greater), 1)
        }
    } else {
        (TokenKind::Bad, 1)
    }
}

/// The token at the front, and how parts bytes it takes.
#[tactic(auto, using(crate::proofs::NumberBytes::number_utf8), unfolding(crate::specs::Tokens::token_of))]
fn token(alloc: Global, bytes: &[u8]) -> Result<(TokenKind, usize), AllocError>
    requires size { length bytes.now < 2 ^ 32 }
    ensures value { IfOk result (λ r. r ≡ token_of bytes.now) }
{
    let [first, rest @ ..] = bytes else {
        return Ok((TokenKind::Bad, 1));
    };
    let first = *first;
    if first.is_ascii_alphabetic() {
        word(alloc, bytes)
    } else if first.is_ascii_digit() {
        number(alloc, bytes, number_len(bytes))
    } else if first == b'-' {
        minus(alloc, bytes)
    } else if first == b'\'' {
        quoted(alloc, rest)
    } else {
        Ok(symbol(first, rest))
    }
}

/// The tokens of a line, and its end.
pub(crate) fn tokens(alloc: Global, line: &[u8]) -> Result<Vec<Token>, AllocError>
    requires size { length line.now < 2 ^ 32 }
    ensures value { IfOk result (λ v. v.items ≡ tokens_of line.now) }
{
    let mut tokens = Vec::new(alloc);
    let mut at = 0;
    while at < line.len() {
        if is_blank(line[at]) {
            at += 1;
            continue;
        }
        let (kind, size) = token(alloc, &line[at..])?;
        tokens.push(Token {
            place: at as u32,
            kind,
        })?;
        at += size;
    }
    tokens.push(Token {
        place: at as u32,
        kind: TokenKind::Fixed(Mark::End),
    })?;
    Ok(tokens)
}
