//! Values, rows, and the shapes of tables.
ghost use Rattle.std.specs.Prelude.{◌≡◌};

use crate::texts::{Name, Text};
use pdq_base::Memory;
use std::alloc::Global;
use std::marker::Model;

/// What a column holds: numbers with so many decimal places (0 to 6), or texts.
#[derive(Clone, Copy, Debug, PartialEq, Eq)]
pub enum Kind {
    Number { scale: u32 },
    Words,
}

/// A value of a table: none, a number in units of its column's last decimal place, below 10^18 in magnitude, or a text. Every
/// column may hold `Null`.
#[derive(Debug, Drop)]
pub enum Value {
    Null,
    Number(i64),
    Words(Text),
}

impl Value {
    ghost use Rattle.std.specs.Prelude.{IfOk};

    /// The same value once more.
    ///
    /// # Errors
    /// `Memory` where it is wanting.
    pub fn copy(&self, alloc: Global) -> Result<Value, Memory>
        ensures value { IfOk result (λ value. value ≡ self.now) }
    {
        match self {
            Value::Null => Ok(Value::Null),
            Value::Number(number) => Ok(Value::Number(*number)),
            Value::Words(text) => Ok(Value::Words(text.copy(alloc)?)),
        }
    }
}

/// A row of a table, seen as the list of its values.
#[derive(Debug, Drop)]
pub struct Row {
    values: Vec<Value>,
}

impl Model for Row {
    ghost use Rattle.pdq_value.specs.Rows.{RowValues};

    ghost Value = { RowValues };

    ghost view = { λ r. r.values.items };
}

impl Row {
    /// A row of these values.
    pub fn new(values: Vec<Value>) -> Row
        ensures value { result ≡ values.items }
    {
        Row { values }
    }

    /// Its values.
    pub fn values(&self) -> &[Value]
        ensures value { result.now ≡ self.now }
    {
        &self.values
    }
}

/// A column: its name and what it holds.
#[derive(Debug, Drop)]
pub struct Column {
    pub name: Name,
    pub kind: Kind,
}

/// The name of a table and its columns.
#[derive(Debug, Drop)]
pub struct TableShape {
    pub name: Name,
    pub columns: Vec<Column>,
}

/// A table: its shape, and its rows in the order of the file.
#[derive(Debug, Drop)]
pub struct Table {
    pub shape: TableShape,
    pub rows: Vec<Row>,
}

/// Tables over which queries are asked.
#[derive(Debug, Drop)]
pub struct Db {
    pub tables: Vec<Table>,
}
