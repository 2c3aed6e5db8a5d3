//! A select, read from its tokens from left to right.
ghost use Rattle.std.specs.Prelude.{◌≡◌, ◌<◌, ◌≤◌, length, IfOk, IfErr, List, Result};
ghost use Rattle.pdq_sql.specs.declared.reading.Unread.{Unread};
ghost use Rattle.pdq_sql.specs.declared.tokens.Token.{Token};
ghost use Rattle.pdq_sql.specs.Asts.{AstView, ast_of};
ghost use Rattle.pdq_sql.specs.Reading.{Gives, unread_of, next_is, is_word_next, expect_of, name_of, number_of, compare_of, literal_of, column_of, bracketed_of, form_of, item_of, table_of, test_of, cond_of, group_of, order_of, direction_of, key_of, parts_of, conds_of, groups_of, keys_of, select_of, whole_select_of, select_reading, IsReadAs};
ghost use Rattle.pdq_sql.specs.Grammar.{IsSelect, Accepts, IsRefusal};
ghost use Rattle.pdq_sql.specs.Tokens.{tokens_of, place_at, int_of};
ghost use Rattle.pdq_sql.specs.declared.reading.ParseFault.TheVariants.{Memory};

use crate::ast::{
    Ast, AstColumn, AstCond, AstForm, AstGroup, AstItem, AstKey, AstLiteral, AstOrder, AstTable,
    AstTest,
};
use crate::faults::{SqlFault, SqlWhy};
use crate::lexing::tokens;
use crate::tokens::{Mark, Token, TokenKind};
use pdq_base::Memory;
use pdq_query::Compare;
use pdq_value::Name;
use std::alloc::{AllocError, AllocFailed, Global};

/// Where tokens are not of the grammar.
#[derive(Clone, Copy)]
pub enum Unread {
    /// At a token that cannot stand after those before it.
    At(u32),
    /// The tokens end before what they begin is whole.
    Ended,
}

/// Why tokens were not read.
#[derive(Drop)]
pub enum ParseFault {
    Memory,
    Unread(Unread),
}

impl From<AllocError> for ParseFault {
    ghost from_gives = { λ _ e. e ≡ Memory };

    fn from(_e: AllocError) -> ParseFault {
        ParseFault::Memory
    }
}

impl<T: Drop> From<AllocFailed<T>> for ParseFault {
    ghost from_gives = { λ _ e. e ≡ Memory };

    fn from(_e: AllocFailed<T>) -> ParseFault {
        ParseFault::Memory
    }
}

impl From<Memory> for ParseFault {
    ghost from_gives = { λ _ e. e ≡ Memory };

    fn from(_e: Memory) -> ParseFault {
        ParseFault::Memory
    }
}

/// What is unread from here on: the first of these tokens.
pub(crate) fn unread_of(tokens: &[Token]) -> Unread
    ensures value { result ≡ unread_of tokens.now }
{
    match tokens {
        [] => Unread::Ended,
        [first, ..] => Unread::At(first.place),
    }
}

/// Whether this token is next.
fn next_is(mark: Mark, tokens: &[Token]) -> bool
    ensures value { result ≡ next_is mark tokens.now }
{
    match tokens {
        [
            Token {
                kind: TokenKind::Fixed(m),
                ..
            },
            ..
        ] => *m == mark,
        _ => false,
    }
}

/// What stands after this token.
pub(crate) fn expect(mark: Mark, tokens: &[Token]) -> Result<&[Token], ParseFault>
    ensures value { Gives (λ x. (mark, x.now)) result (expect_of mark tokens.now) }
{
    match tokens {
        [
            Token {
                kind: TokenKind::Fixed(m),
                ..
            },
            rest @ ..,
        ] if *m == mark => Ok(rest),
        _ => Err(ParseFault::Unread(unread_of(tokens))),
    }
}

fn name(alloc: Global, tokens: &[Token]) -> Result<(Name, &[Token]), ParseFault>
    ensures value { Gives (λ x. (x.0, x.1.now)) result (name_of tokens.now) }
{
    match tokens {
        [
            Token {
                kind: TokenKind::Word(word),
                ..
            },
            rest @ ..,
        ] => {
            let word = word.copy(alloc)?;
            Ok((word, rest))
        }
        _ => Err(ParseFault::Unread(unread_of(tokens))),
    }
}

/// Whether a word that is not reserved is next.
fn is_word_next(tokens: &[Token]) -> bool
    ensures value { result ≡ is_word_next tokens.now }
{
    match tokens {
        [
            Token {
                kind: TokenKind::Word(_),
                ..
            },
            ..
        ] => true,
        _ => false,
    }
}

/// The place of the next token.
fn place_at(tokens: &[Token]) -> u32
    ensures value { result ≡ place_at tokens.now }
{
    match tokens {
        [] => 0,
        [first, ..] => first.place,
    }
}

#[tactic(auto, unfolding(crate::specs::Reading::column_of))]
fn column(alloc: Global, tokens: &[Token]) -> Result<(AstColumn, &[Token]), ParseFault>
    ensures value { Gives (λ x. (x.0, x.1.now)) result (column_of tokens.now) }
{
    let (first, rest) = name(alloc, tokens)?;
    if next_is(Mark::Point, rest) {
        let rest = expect(Mark::Point, rest)?;
        let (second, rest) = name(alloc, rest)?;
        let column = AstColumn {
            table: Some(first),
            column: second,
        };
        Ok((column, rest))
    } else {
        let column = AstColumn {
            table: None,
            column: first,
        };
        Ok((column, rest))
    }
}

#[tactic(auto, unfolding(crate::specs::Reading::bracketed_of))]
fn bracketed(
    alloc: Global,
    fold: Mark,
    tokens: &[Token],
) -> Result<(AstColumn, &[Token]), ParseFault>
    ensures value { Gives (λ x. (x.0, x.1.now)) result (bracketed_of fold tokens.now) }
{
    let rest = expect(fold, tokens)?;
    let rest = expect(Mark::Open, rest)?;
    let (column, rest) = column(alloc, rest)?;
    let rest = expect(Mark::Close, rest)?;
    Ok((column, rest))
}

#[tactic(auto, unfolding(crate::specs::Reading::form_of))]
fn form(alloc: Global, tokens: &[Token]) -> Result<(AstForm, &[Token]), ParseFault>
    ensures value { Gives (λ x. (x.0, x.1.now)) result (form_of tokens.now) }
{
    if next_is(Mark::Count, tokens) {
        let rest = expect(Mark::Count, tokens)?;
        let rest = expect(Mark::Open, rest)?;
        let rest = expect(Mark::Star, rest)?;
        let rest = expect(Mark::Close, rest)?;
        Ok((AstForm::Count, rest))
    } else if next_is(Mark::Sum, tokens) {
        let (column, rest) = bracketed(alloc, Mark::Sum, tokens)?;
        Ok((AstForm::Sum(column), rest))
    } else if next_is(Mark::Avg, tokens) {
        let (column, rest) = bracketed(alloc, Mark::Avg, tokens)?;
        Ok((AstForm::Avg(column), rest))
    } else if next_is(Mark::Min, tokens) {
        let (column, rest) = bracketed(alloc, Mark::Min, tokens)?;
        Ok((AstForm::Min(column), rest))
    } else if next_is(Mark::Max, tokens) {
        let (column, rest) = bracketed(alloc, Mark::Max, tokens)?;
        Ok((AstForm::Max(column), rest))
    } else {
        let (column, rest) = column(alloc, tokens)?;
        Ok((AstForm::Plain(column), rest))
    }
}

fn compare(tokens: &[Token]) -> Result<(Compare, &[Token]), ParseFault>
    ensures value { Gives (λ x. (x.0, x.1.now)) result (compare_of tokens.now) }
{
    match tokens {
        [
            Token {
                kind: TokenKind::Fixed(mark),
                ..
            },
            rest @ ..,
        ] => match mark {
            Mark::Equal => Ok((Compare::Eq, rest)),
            Mark::Unequal => Ok((Compare::Ne, rest)),
            Mark::Less => Ok((Compare::Lt, rest)),
            Mark::AtMost => Ok((Compare::Le, rest)),
            Mark::Greater => Ok((Compare::Gt, rest)),
            Mark::AtLeast => Ok((Compare::Ge, rest)),
            _ => Err(ParseFault::Unread(unread_of(tokens))),
        },
        _ => Err(ParseFault::Unread(unread_of(tokens))),
    }
}

fn literal(alloc: Global, tokens: &[Token]) -> Result<(AstLiteral, &[Token]), ParseFault>
    ensures value { Gives (λ x. (x.0, x.1.now)) result (literal_of tokens.now) }
{
    match tokens {
        [
            Token {
                kind: TokenKind::Number(text),
                ..
            },
            rest @ ..,
        ] => {
            let text = text.copy(alloc)?;
            Ok((AstLiteral::Number(text), rest))
        }
        [
            Token {
                kind: TokenKind::Quoted(text),
                ..
            },
            rest @ ..,
        ] => {
            let text = text.copy(alloc)?;
            Ok((AstLiteral::Words(text), rest))
        }
        _ => Err(ParseFault::Unread(unread_of(tokens))),
    }
}

#[tactic(auto, unfolding(crate::specs::Reading::test_of))]
fn test(alloc: Global, tokens: &[Token]) -> Result<(AstTest, &[Token]), ParseFault>
    ensures value { Gives (λ x. (x.0, x.1.now)) result (test_of tokens.now) }
{
    let (left, rest) = column(alloc, tokens)?;
    let is_equal = next_is(Mark::Equal, rest);
    let (compare, rest) = compare(rest)?;
    if is_equal && is_word_next(rest) {
        let (right, rest) = column(alloc, rest)?;
        Ok((AstTest::Columns(left, right), rest))
    } else {
        let (value, rest) = literal(alloc, rest)?;
        Ok((AstTest::Literal(left, compare, value), rest))
    }
}

/// The whole number at the front, and what stands behind it.
pub(crate) fn number(tokens: &[Token]) -> Result<(u32, &[Token]), ParseFault>
    ensures value { Gives (λ x. (x.0, x.1.now)) result (number_of tokens.now) }
{
    match tokens {
        [
            Token {
                kind: TokenKind::Number(text),
                ..
            },
            rest @ ..,
        ] => match int_of(text.bytes()) {
            Some(n) => Ok((n, rest)),
            None => Err(ParseFault::Unread(unread_of(tokens))),
        },
        _ => Err(ParseFault::Unread(unread_of(tokens))),
    }
}

/// The value of one to ten digits alone, at most the greatest of its type.
fn int_of(bytes: &[u8]) -> Option<u32>
    ensures value { result ≡ int_of bytes.now }
{
    if bytes.is_empty() || bytes.len() > 10 {
        return None;
    }
    let mut value: u64 = 0;
    for byte in bytes {
        if !byte.is_ascii_digit() {
            return None;
        }
        value = value * 10 + (*byte - b'0') as u64;
    }
    Some(value.min(4_294_967_295) as u32)
}

#[tactic(auto, unfolding(crate::specs::Reading::order_of))]
fn order(alloc: Global, tokens: &[Token]) -> Result<(AstOrder, &[Token]), ParseFault>
    ensures value { Gives (λ x. (x.0, x.1.now)) result (order_of tokens.now) }
{
    if is_word_next(tokens) {
        let (column, rest) = column(alloc, tokens)?;
        Ok((AstOrder::Column(column), rest))
    } else {
        let (number, rest) = number(tokens)?;
        Ok((AstOrder::Number(number), rest))
    }
}

#[tactic(auto, unfolding(crate::specs::Reading::direction_of))]
fn direction(tokens: &[Token]) -> Result<(bool, &[Token]), ParseFault>
    ensures value { Gives (λ x. (x.0, x.1.now)) result (direction_of tokens.now) }
{
    if next_is(Mark::Asc, tokens) {
        let rest = expect(Mark::Asc, tokens)?;
        Ok((false, rest))
    } else if next_is(Mark::Desc, tokens) {
        let rest = expect(Mark::Desc, tokens)?;
        Ok((true, rest))
    } else {
        Ok((false, tokens))
    }
}

/// A part of a select that stands in a list.
trait Part: Drop {
    /// What it reads from the front of the tokens.
    ghost part: { List Token → Result (Self × List Token) Unread };

    fn read(alloc: Global, tokens: &[Token]) -> Result<(Self, &[Token]), ParseFault>
        ensures exact { Gives (λ x. (x.0, x.1.now)) result (part tokens.now) }
        ensures shorter { IfOk result (λ x. length x.1.now < length tokens.now) };
}

impl Part for AstItem {
    ghost part = { item_of };

    #[tactic(auto, unfolding(crate::specs::Reading::item_of))]
    fn read(alloc: Global, tokens: &[Token]) -> Result<(AstItem, &[Token]), ParseFault> {
        let place = place_at(tokens);
        let (form, rest) = form(alloc, tokens)?;
        Ok((AstItem { place, form }, rest))
    }
}

impl Part for AstTable {
    ghost part = { table_of };

    #[tactic(auto, unfolding(crate::specs::Reading::table_of))]
    fn read(alloc: Global, tokens: &[Token]) -> Result<(AstTable, &[Token]), ParseFault> {
        let place = place_at(tokens);
        let (name, rest) = name(alloc, tokens)?;
        Ok((AstTable { place, name }, rest))
    }
}

impl Part for AstCond {
    ghost part = { cond_of };

    #[tactic(auto, unfolding(crate::specs::Reading::cond_of))]
    fn read(alloc: Global, tokens: &[Token]) -> Result<(AstCond, &[Token]), ParseFault> {
        let place = place_at(tokens);
        let (test, rest) = test(alloc, tokens)?;
        Ok((AstCond { place, test }, rest))
    }
}

impl Part for AstGroup {
    ghost part = { group_of };

    #[tactic(auto, unfolding(crate::specs::Reading::group_of))]
    fn read(alloc: Global, tokens: &[Token]) -> Result<(AstGroup, &[Token]), ParseFault> {
        let place = place_at(tokens);
        let (column, rest) = column(alloc, tokens)?;
        Ok((AstGroup { place, column }, rest))
    }
}

impl Part for AstKey {
    ghost part = { key_of };

    #[tactic(auto, unfolding(crate::specs::Reading::key_of))]
    fn read(alloc: Global, tokens: &[Token]) -> Result<(AstKey, &[Token]), ParseFault> {
        let place = place_at(tokens);
        let (order, rest) = order(alloc, tokens)?;
        let (down, rest) = direction(rest)?;
        Ok((AstKey { place, order, down }, rest))
    }
}

/// Parts with a token between each and the next.
fn parts<P: Part>(
    alloc: Global,
    separator: Mark,
    tokens: &[Token],
) -> Result<(Vec<P>, &[Token]), ParseFault>
    ensures value { Gives (λ x. (x.0.items, x.1.now)) result (parts_of separator P.part tokens.now) }
{
    let mut parts = Vec::new(alloc);
    let mut rest = tokens;
    loop {
        let (part, after) = P::read(alloc, rest)?;
        parts.push(part)?;
        if !next_is(separator, after) {
            return Ok((parts, after));
        }
        rest = expect(separator, after)?;
    }
}

#[tactic(auto, unfolding(crate::specs::Reading::conds_of))]
fn conds(alloc: Global, tokens: &[Token]) -> Result<(Vec<AstCond>, &[Token]), ParseFault>
    ensures value { Gives (λ x. (x.0.items, x.1.now)) result (conds_of tokens.now) }
{
    if next_is(Mark::Where, tokens) {
        let rest = expect(Mark::Where, tokens)?;
        let (conds, rest) = parts::<AstCond>(alloc, Mark::And, rest)?;
        Ok((conds, rest))
    } else {
        Ok((Vec::new(alloc), tokens))
    }
}

#[tactic(auto, unfolding(crate::specs::Reading::groups_of))]
fn groups(alloc: Global, tokens: &[Token]) -> Result<(Vec<AstGroup>, &[Token]), ParseFault>
    ensures value { Gives (λ x. (x.0.items, x.1.now)) result (groups_of tokens.now) }
{
    if next_is(Mark::Group, tokens) {
        let rest = expect(Mark::Group, tokens)?;
        let rest = expect(Mark::By, rest)?;
        let (groups, rest) = parts::<AstGroup>(alloc, Mark::Comma, rest)?;
        Ok((groups, rest))
    } else {
        Ok((Vec::new(alloc), tokens))
    }
}

#[tactic(auto, unfolding(crate::specs::Reading::keys_of))]
fn keys(alloc: Global, tokens: &[Token]) -> Result<(Vec<AstKey>, &[Token]), ParseFault>
    ensures value { Gives (λ x. (x.0.items, x.1.now)) result (keys_of tokens.now) }
{
    if next_is(Mark::Order, tokens) {
        let rest = expect(Mark::Order, tokens)?;
        let rest = expect(Mark::By, rest)?;
        let (keys, rest) = parts::<AstKey>(alloc, Mark::Comma, rest)?;
        Ok((keys, rest))
    } else {
        Ok((Vec::new(alloc), tokens))
    }
}

/// The select at the front, and what stands behind it.
#[tactic(auto, unfolding(crate::specs::Reading::select_of))]
pub(crate) fn select(alloc: Global, tokens: &[Token]) -> Result<(Ast, &[Token]), ParseFault>
    ensures value { Gives (λ x. (ast_of x.0, x.1.now)) result (select_of tokens.now) }
{
    let rest = expect(Mark::Select, tokens)?;
    let (items, rest) = parts::<AstItem>(alloc, Mark::Comma, rest)?;
    let rest = expect(Mark::From, rest)?;
    let (tables, rest) = parts::<AstTable>(alloc, Mark::Comma, rest)?;
    let (conds, rest) = conds(alloc, rest)?;
    let (groups, rest) = groups(alloc, rest)?;
    let (keys, rest) = keys(alloc, rest)?;
    let ast = Ast {
        items,
        tables,
        conds,
        groups,
        keys,
    };
    Ok((ast, rest))
}

/// A select and the end of the line.
#[tactic(auto, unfolding(crate::specs::Reading::whole_select_of))]
fn whole_select(alloc: Global, tokens: &[Token]) -> Result<Ast, ParseFault>
    ensures value { Gives ast_of result (whole_select_of tokens.now) }
{
    let (ast, rest) = select(alloc, tokens)?;
    let rest = expect(Mark::End, rest)?;
    match rest {
        [] => Ok(ast),
        [first, ..] => Err(ParseFault::Unread(Unread::At(first.place))),
    }
}

impl From<ParseFault> for SqlFault {
    ghost use Rattle.pdq_sql.specs.Reading.{refusal_of};

    ghost from_gives = { λ fault e. e ≡ refusal_of fault };

    fn from(fault: ParseFault) -> SqlFault {
        match fault {
            ParseFault::Memory => NO_MEMORY,
            ParseFault::Unread(Unread::At(place)) => SqlFault {
                why: SqlWhy::BadLine,
                place,
            },
            // A line's tokens have an end, so they never run out.
            ParseFault::Unread(Unread::Ended) => SqlFault {
                why: SqlWhy::BadLine,
                place: 0,
            },
        }
    }
}

pub(crate) const NO_MEMORY: SqlFault = SqlFault {
    why: SqlWhy::Memory,
    place: 0,
};

/// Reads a select. What its names mean is not asked.
///
/// # Errors
/// `BadLine`, at the first token that no select has after the tokens before it; the end of the text is a token too, whose place is the
/// text's length. `Memory`, at 0.
pub fn read_select(alloc: Global, text: &[u8]) -> Result<Ast, SqlFault>
    requires size { length text.now ≤ 8192 }

    ensures value { IsReadAs ast_of result (select_reading text.now) }

    // What is read is a select.
    ensures found { IfOk result (λ a. IsSelect (tokens_of text.now) (ast_of a)) }
    // A select is read, unless memory runs out.
    ensures only { (s : AstView) → IsSelect (tokens_of text.now) s → Accepts ast_of result s }
    // What is refused is refused at the first token that no select has after the tokens before it.
    ensures bad { IfErr result (IsRefusal IsSelect (tokens_of text.now)) }
{
    let Ok(tokens) = tokens(alloc, text) else {
        return Err(NO_MEMORY);
    };
    let ast = whole_select(alloc, &tokens)?;
    Ok(ast)
}
