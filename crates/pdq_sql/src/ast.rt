//! What a select says, before its names are resolved.
use pdq_query::Compare;
use pdq_value::{Name, Text};

/// A column as it is written: `column` or `table.column`.
#[derive(Debug, Drop)]
pub struct AstColumn {
    pub table: Option<Name>,
    pub column: Name,
}

/// What an item of the select list is of its column.
#[derive(Debug, Drop)]
pub enum AstForm {
    Plain(AstColumn),
    Sum(AstColumn),
    Avg(AstColumn),
    Min(AstColumn),
    Max(AstColumn),
    /// `COUNT(*)`
    Count,
}

/// An item of the select list. A `place`, here and below, is that of the first byte of the part's first token.
#[derive(Debug, Drop)]
pub struct AstItem {
    pub place: u32,
    pub form: AstForm,
}

/// A table of FROM.
#[derive(Debug, Drop)]
pub struct AstTable {
    pub place: u32,
    pub name: Name,
}

/// A literal: the bytes of a number's token, or the bytes that a quoted text stands for.
#[derive(Debug, Drop)]
pub enum AstLiteral {
    Number(Text),
    Words(Text),
}

/// What a condition of WHERE asks.
#[derive(Debug, Drop)]
pub enum AstTest {
    Literal(AstColumn, Compare, AstLiteral),
    /// Two columns are equal.
    Columns(AstColumn, AstColumn),
}

/// A condition of WHERE.
#[derive(Debug, Drop)]
pub struct AstCond {
    pub place: u32,
    pub test: AstTest,
}

/// A column of GROUP BY.
#[derive(Debug, Drop)]
pub struct AstGroup {
    pub place: u32,
    pub column: AstColumn,
}

/// What a key of ORDER BY names: an item by its number from 1, or by its column.
#[derive(Debug, Drop)]
pub enum AstOrder {
    Number(u32),
    Column(AstColumn),
}

/// A key of ORDER BY, descending or not.
#[derive(Debug, Drop)]
pub struct AstKey {
    pub place: u32,
    pub order: AstOrder,
    pub down: bool,
}

/// A select, part by part: at least one item and one table.
#[derive(Debug, Drop)]
pub struct Ast {
    pub items: Vec<AstItem>,
    pub tables: Vec<AstTable>,
    pub conds: Vec<AstCond>,
    pub groups: Vec<AstGroup>,
    pub keys: Vec<AstKey>,
}
