//! Tokens with their places.
use crate::commands::Letter;
use pdq_value::{Name, Text};

/// A token that has no text of its own: a reserved word, a symbol, the option `-g`, or the end of the line.
#[derive(Clone, Copy, Debug, PartialEq, Eq)]
pub enum Mark {
    Select,
    From,
    Where,
    And,
    Group,
    Order,
    By,
    Asc,
    Desc,
    Sum,
    Avg,
    Min,
    Max,
    Count,
    Open,
    Close,
    Comma,
    Point,
    Star,
    Equal,
    Unequal,
    Less,
    AtMost,
    Greater,
    AtLeast,
    /// `-g`, which ONSTAT takes.
    Statistics,
    End,
}

/// What a token is.
#[derive(Debug, Drop)]
pub enum TokenKind {
    Fixed(Mark),
    /// A word that is not reserved, in lower case.
    Word(Name),
    /// The bytes of a number.
    Number(Text),
    /// The bytes that a quoted text stands for.
    Quoted(Text),
    /// An option that ONMODE takes.
    Switch(Letter),
    /// What is no token, or a word of more than 32 bytes, or a text that does not end or is not UTF-8.
    Bad,
}

/// A token, and the place of its first byte in its line.
#[derive(Debug, Drop)]
pub struct Token {
    pub place: u32,
    pub kind: TokenKind,
}
