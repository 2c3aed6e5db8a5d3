//! A query whose names are resolved.
ghost use Rattle.std.specs.Prelude.{◌≡◌, IfOk};
ghost use Rattle.pdq_query.specs.Folds.{is_fold};
ghost use Rattle.pdq_query.specs.Queries.{query_of};

use pdq_base::Memory;
use pdq_value::Value;
use std::alloc::Global;

/// A column: the place of its table in FROM, and its place in that table, both from 0.
#[derive(Clone, Copy, Debug, PartialEq, Eq)]
pub struct At {
    pub table: u32,
    pub column: u32,
}

/// How a column is compared with a literal. No comparison holds where either is missing.
#[derive(Clone, Copy, Debug, PartialEq, Eq)]
pub enum Compare {
    Eq,
    Ne,
    Lt,
    Le,
    Gt,
    Ge,
}

/// A condition on one table.
#[derive(Debug, Drop)]
pub enum Filter {
    /// The column compared with the value, a number being in units of the column's last decimal place.
    Literal(At, Compare, Value),
    /// Two columns of one table are equal.
    Columns(At, At),
}

impl Filter {
    /// The same condition once more.
    ///
    /// # Errors
    /// `Memory` where it is wanting.
    pub fn copy(&self, alloc: Global) -> Result<Filter, Memory>
        ensures value { IfOk result (λ filter. filter ≡ self.now) }
    {
        match self {
            Filter::Literal(at, test, value) => {
                Ok(Filter::Literal(*at, *test, value.copy(alloc)?))
            }
            Filter::Columns(a, b) => Ok(Filter::Columns(*a, *b)),
        }
    }
}

/// An item of the select list.
#[derive(Clone, Copy, Debug, PartialEq, Eq)]
pub enum Item {
    Plain(At),
    Sum(At),
    Avg(At),
    Min(At),
    Max(At),
    Count,
}

/// Whether an item is a fold.
pub fn is_fold(item: Item) -> bool
    ensures value { result ≡ is_fold item }
{
    match item {
        Item::Plain(_) => false,
        Item::Sum(_) | Item::Avg(_) | Item::Min(_) | Item::Max(_) | Item::Count => true,
    }
}

/// An order key: a place in the select list from 0, descending or not.
#[derive(Clone, Copy, Debug, PartialEq, Eq)]
pub struct Key {
    pub item: u32,
    pub down: bool,
}

/// A query over the tables of some shapes.
#[derive(Debug, Drop)]
pub struct Query {
    /// The numbers of its tables among the shapes from 0, in FROM order.
    pub tables: Vec<u32>,
    pub filters: Vec<Filter>,
    /// Pairs of columns of two different tables that are equal.
    pub joins: Vec<(At, At)>,
    pub items: Vec<Item>,
    /// The columns of GROUP BY.
    pub groups: Vec<At>,
    pub keys: Vec<Key>,
}

/// The same conditions once more.
fn copied_filters(alloc: Global, filters: &[Filter]) -> Result<Vec<Filter>, Memory>
    ensures value { IfOk result (λ copied. copied.items ≡ filters.now) }
{
    let mut copied = Vec::new(alloc);
    for filter in filters {
        if copied.push(filter.copy(alloc)?).is_err() {
            return Err(Memory);
        }
    }
    Ok(copied)
}

/// A copy of plain parts of a query.
fn copied<T: Copy + Drop>(alloc: Global, parts: &[T]) -> Result<Vec<T>, Memory>
    ensures value { IfOk result (λ copied. copied.items ≡ parts.now) }
{
    Vec::from_slice(alloc, parts).map_err(|_| Memory)
}

impl Query {
    /// The same query once more.
    ///
    /// # Errors
    /// `Memory` where it is wanting.
    pub fn copy(&self, alloc: Global) -> Result<Query, Memory>
        ensures value { IfOk result (λ query. query_of query ≡ query_of self.now) }
    {
        Ok(Query {
            tables: copied(alloc, &self.tables)?,
            filters: copied_filters(alloc, &self.filters)?,
            joins: copied(alloc, &self.joins)?,
            items: copied(alloc, &self.items)?,
            groups: copied(alloc, &self.groups)?,
            keys: copied(alloc, &self.keys)?,
        })
    }
}
