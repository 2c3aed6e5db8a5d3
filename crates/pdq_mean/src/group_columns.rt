//! The group columns of choices, compared.
ghost use Rattle.std.specs.Prelude.{◌≡◌, map};
ghost use Rattle.pdq_value.specs.Cells.{cell_at, row_cmp};
ghost use Rattle.pdq_value.specs.Tables.{tables_of};
ghost use Rattle.pdq_query.specs.Queries.{query_of};
ghost use Rattle.pdq_query.specs.Conditions.{cell_in};
ghost use Rattle.pdq_query.specs.Folds.{key_of};
ghost use Rattle.pdq_mean.specs.CellRefs.{cell_of_ref};
ghost use Rattle.pdq_mean.specs.Loops.{chosen};
ghost use Rattle.pdq_mean.specs.KeyPrefixes.{columns_left};

use crate::cell_ref::{CellRef, compare_refs};
use crate::conditions::cell_in;
use crate::key_prefixes::{KeyPrefix, is_whole};
use pdq_query::{At, Query};
use pdq_value::Db;
use std::cmp::Ordering;

/// By the cells of these columns.
pub fn compare_columns(db: &Db, query: &Query, columns: &[At], a: &[usize], b: &[usize]) -> Ordering
    ensures order { result ≡ row_cmp (map (cell_in (chosen (tables_of db.now) (query_of query.now) a.now)) columns.now) (map (cell_in (chosen (tables_of db.now) (query_of query.now) b.now)) columns.now) }
{
    for at in columns {
        let order = compare_refs(cell_in(db, query, a, *at), cell_in(db, query, b, *at));
        if order.is_ne() {
            return order;
        }
    }
    Ordering::Equal
}

/// The cell of a choice in the first group column; nothing where there is none.
pub fn first_key_cell<'a>(db: &'a Db, query: &Query, choice: &[usize]) -> CellRef<'a>
    ensures value { cell_of_ref result ≡ cell_at 0 (key_of (query_of query.now) (chosen (tables_of db.now) (query_of query.now) choice.now)) }
{
    match query.groups.first() {
        Some(at) => cell_in(db, query, choice, *at),
        None => CellRef::Nothing,
    }
}

/// The group columns that tell choices apart whose prefixes tie.
pub fn columns_left<'a>(query: &'a Query, prefix: &KeyPrefix) -> &'a [At]
    ensures value { result.now ≡ columns_left (query_of query.now) prefix.now }
{
    match query.groups.split_first() {
        Some((_, later)) if is_whole(prefix) => later,
        _ => &query.groups,
    }
}
