//! Answers, from the last rows of a run.
ghost use Rattle.std.specs.Prelude.{◌≡◌, ◌<◌, ◌≤◌, ◌⊎◌, ◌∷◌, [], All, IfOk, Some, List, false, true, length, map};
ghost use Rattle.pdq_value.specs.Cells.{scale_of};
ghost use Rattle.pdq_value.specs.Tables.{IsShape, TableView as TablesView, shape_of};
ghost use Rattle.pdq_query.specs.Fits.{Fits};
ghost use Rattle.pdq_query.specs.Queries.{query_of};
ghost use Rattle.pdq_query.specs.Folds.{is_grouped};
ghost use Rattle.pdq_query.specs.Answer.{answer};
ghost use Rattle.pdq_plan.specs.Plans.{columns_of, order_of};
ghost use Rattle.pdq_mean.specs.Loops.{lists_of};
ghost use Rattle.pdq_eval.specs.Laws.{IsOrderOf};
ghost use Rattle.pdq_eval.specs.Results.{folds, item_of_nothing};
ghost use Rattle.pdq_result.specs.Answers.{AreGroups, AreRunning, IsPlanOver, rows_kept};

use crate::decoding::rows_from;
use crate::grouping::is_grouped;
use crate::sources::{group_sources, plain_sources};
use pdq_base::Memory;
use pdq_dict::Dict;
use pdq_mean::sort_rows;
use pdq_owner::Kept;
use pdq_plan::Plan;
use pdq_query::{Item, Query};
use pdq_value::{Cell, TableShape};
use std::alloc::Global;

/// What an item says of no row.
fn cell_of_nothing(item: Item) -> Cell
    ensures value { result ≡ item_of_nothing item }
{
    match item {
        Item::Plain(_) | Item::Sum(_) | Item::Avg(_) | Item::Min(_) | Item::Max(_) => Cell::Nothing,
        Item::Count => Cell::Number {
            unscaled: 0,
            scale: 0,
        },
    }
}

fn row_of_nothing(alloc: Global, query: &Query) -> Result<Vec<Cell>, Memory>
    ensures value { IfOk result (λ row. row.items ≡ map item_of_nothing query.now.items.items) }
{
    let mut row = Vec::new(alloc);
    for item in &query.items {
        let Ok(()) = row.push(cell_of_nothing(*item)) else {
            return Err(Memory);
        };
    }
    Ok(row)
}

/// The one row of a query with a fold and without GROUP BY, where no row ran.
fn rows_of_nothing(alloc: Global, query: &Query) -> Result<Vec<Vec<Cell>>, Memory>
    ensures value { IfOk result (λ rows. lists_of rows.items ≡ map item_of_nothing query.now.items.items ∷ []) }
{
    let row = row_of_nothing(alloc, query)?;
    let mut rows = Vec::new(alloc);
    let Ok(()) = rows.push(row) else {
        return Err(Memory);
    };
    Ok(rows)
}

/// Whether a query without GROUP BY has no group.
fn is_of_nothing(query: &Query, rows: &[Vec<Cell>]) -> bool
    ensures none { result ≡ true → (length rows.now ≡ 0) × (is_grouped (query_of query.now) ≡ false) }
    ensures some { result ≡ false → (is_grouped (query_of query.now) ≡ true) ⊎ (0 < length rows.now) }
{
    if is_grouped(query) {
        return false;
    }
    rows.is_empty()
}

/// The answer of a query without a fold and without GROUP BY, from the running rows that the owners keep after all tables, in any order: decoded,
/// projected, and sorted by the order keys and then as whole rows. `dict` and `shapes` are those of the stored tables.
///
/// # Errors
/// `Memory` where it is wanting.
pub fn plain_answer(
    alloc: Global,
    dict: &Dict,
    shapes: &[TableShape],
    plan: &Plan,
    kept: &[Kept],
) -> Result<Vec<Vec<Cell>>, Memory>
    requires kinds { All IsShape (map shape_of shapes.now) }
    ensures answer { IfOk result (λ rows. (tables : List TablesView) → IsPlanOver dict.now (map shape_of shapes.now) plan.now tables → folds plan.now.query ≡ false →
        AreRunning tables plan.now (rows_kept kept.now) → answer tables plan.now.query ≡ Some (lists_of rows.items)) }
    ensures scales { IfOk result (λ rows. All (All (λ c. scale_of c ≤ 8)) (lists_of rows.items)) }
{
    let query = plan.query();
    let sources = plain_sources(alloc, shapes, plan, &query.items)?;
    let mut sorted = rows_from(alloc, dict, &sources, kept)?;
    sort_rows(alloc, &query.keys, &mut sorted)?;
    Ok(sorted)
}

/// The answer of a query with a fold or GROUP BY, from the rows that the groupers of all owners put, in any order: decoded, and sorted by the order
/// keys and then as whole rows. Where no row ran there is one row of nothing, unless the query has GROUP BY. `dict` and `shapes` are those of the stored
/// tables.
///
/// # Errors
/// `Memory` where it is wanting.
pub fn grouped_answer(
    alloc: Global,
    dict: &Dict,
    shapes: &[TableShape],
    plan: &Plan,
    groups: &[Kept],
) -> Result<Vec<Vec<Cell>>, Memory>
    requires kinds { All IsShape (map shape_of shapes.now) }
    requires fits { Fits (map shape_of shapes.now) plan.now.query }
    ensures answer { IfOk result (λ rows. (tables : List TablesView) → IsPlanOver dict.now (map shape_of shapes.now) plan.now tables → folds plan.now.query ≡ true →
        AreGroups tables plan.now (rows_kept groups.now) → answer tables plan.now.query ≡ Some (lists_of rows.items)) }
    ensures scales { IfOk result (λ rows. All (All (λ c. scale_of c ≤ 8)) (lists_of rows.items)) }
{
    let query = plan.query();
    let sources = group_sources(alloc, shapes, query)?;
    let mut rows = rows_from(alloc, dict, &sources, groups)?;
    if is_of_nothing(query, &rows) {
        return rows_of_nothing(alloc, query);
    }
    sort_rows(alloc, &query.keys, &mut rows)?;
    Ok(rows)
}

/// The answer of a query with a fold and without GROUP BY, where no row ran: one row.
///
/// # Errors
/// `Memory` where it is wanting.
pub fn empty_answer(alloc: Global, plan: &Plan) -> Result<Vec<Vec<Cell>>, Memory>
    ensures answer { IfOk result (λ rows. (tables : List TablesView) → IsOrderOf tables plan.now.query (order_of plan.now) → folds plan.now.query ≡ true → is_grouped plan.now.query ≡ false →
        AreRunning tables plan.now [] → answer tables plan.now.query ≡ Some (lists_of rows.items)) }
    ensures scales { IfOk result (λ rows. All (All (λ c. scale_of c ≤ 8)) (lists_of rows.items)) }
{
    rows_of_nothing(alloc, plan.query())
}
