//! The query language: its tokens and grammar, and the resolving of names.
#![tactic(auto)]

mod ast;
mod commands;
mod faults;
mod laws;
mod lexing;
mod line_reading;
mod reading;
mod resolving;
mod resolving_checks;
mod tokens;

pub use ast::{
    Ast, AstColumn, AstCond, AstForm, AstGroup, AstItem, AstKey, AstLiteral, AstOrder, AstTable,
    AstTest,
};
pub use commands::{Command, Letter, Level, LineHome};
pub use faults::{SqlFault, SqlWhy};
pub use laws::{
    has_one_bad_place, has_one_reading, line_reading_is_the_grammar, reserved_words_are_marks,
    select_reading_is_the_grammar,
};
pub use line_reading::read_line;
pub use pdq_query::{At, Compare, Filter, Item, Key, Query};
pub use reading::read_select;
pub use resolving::resolve;
pub use resolving_checks::clusters_are_ties;
pub use tokens::{Mark, Token, TokenKind};

#[cfg(test)]
mod resolving_tests;
#[cfg(test)]
mod tests;
