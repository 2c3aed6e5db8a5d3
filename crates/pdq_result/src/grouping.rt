//! What a query hands to groupers, and what they put.
ghost use Rattle.std.specs.Prelude.{◌≡◌, ◌+◌, ◌*◌, ◌≤◌, ◌++◌, ◌∷◌, [], ℕ, List, ℤ, true, IfOk, OnOk, flat_map, length, map};
ghost use Rattle.std.specs.List.{list_any};
ghost use Rattle.pdq_query.specs.Queries.{query_of};
ghost use Rattle.pdq_query.specs.Folds.{is_fold, is_grouped};
ghost use Rattle.pdq_plan.specs.Plans.{columns_of};
ghost use Rattle.pdq_group.specs.Folds.{words_of_fold, words_of_folds};
ghost use Rattle.pdq_eval.specs.Picks.{picked};
ghost use Rattle.pdq_eval.specs.Results.{folds, folds_of, folds_of_item, group_input};
ghost use Rattle.pdq_result.specs.Picking.{column_pick, item_picks};

use pdq_base::Memory;
use pdq_eval::Pick;
use pdq_group::{Fold, GroupShape};
use pdq_plan::Plan;
use pdq_query::{At, Item, Query, is_fold};
use std::alloc::Global;

/// Whether a query has GROUP BY.
pub fn is_grouped(query: &Query) -> bool
    ensures value { result ≡ is_grouped (query_of query.now) }
{
    query.groups.len() > 0
}

fn has_fold(query: &Query) -> bool
    ensures value { result ≡ list_any is_fold query.now.items.items }
{
    query.items.iter().any(|item| is_fold(*item))
}

/// Whether a query has a fold or GROUP BY.
pub fn folds(query: &Query) -> bool
    ensures value { result ≡ folds (query_of query.now) }
{
    is_grouped(query) || has_fold(query)
}

/// The fold of an item, if it is one.
fn push_fold(folds: &mut Vec<Fold>, item: Item) -> Result<(), Memory>
    ensures value { OnOk result (folds.new.items ≡ folds.old.items ++ folds_of_item item) }
{
    let fold = match item {
        Item::Plain(_) => return Ok(()),
        Item::Sum(_) => Fold::Sum,
        Item::Avg(_) => Fold::Avg,
        Item::Min(_) => Fold::Min,
        Item::Max(_) => Fold::Max,
        Item::Count => Fold::Count,
    };
    folds.push(fold).map_err(|_| Memory)
}

/// How the running rows of a query are grouped: by as many key words as it has group columns, and the folds of its select list.
///
/// # Errors
/// `Memory` where it is wanting.
#[tactic(auto, using(std::proofs::lemmas::List::flat_map_more))]
pub fn group_shape(alloc: Global, query: &Query) -> Result<GroupShape, Memory>
    requires groups { length query.now.groups.items ≤ 16 }
    ensures keys { IfOk result (λ shape. shape.keys ≡ length query.now.groups.items) }
    ensures folds { IfOk result (λ shape. shape.folds.items ≡ folds_of query.now.items.items) }
{
    let mut folds = Vec::new(alloc);
    for item in &query.items {
        push_fold(&mut folds, *item)?;
    }
    Ok(GroupShape {
        keys: query.groups.len() as u32,
        folds,
    })
}

/// How many words are put of a fold.
fn words_of_fold(fold: Fold) -> u32
    ensures value { result ≡ words_of_fold fold }
    ensures few { result ≤ 2 }
{
    match fold {
        Fold::Sum | Fold::Avg => 2,
        Fold::Min | Fold::Max | Fold::Count => 1,
    }
}

/// The words of a row that a grouper of this shape puts.
pub fn group_row_width(shape: &GroupShape) -> u32
    requires keys { shape.now.keys ≤ 16 }
    requires folds { length shape.now.folds.items ≤ 16 }
    ensures value { result ≡ shape.now.keys + words_of_folds shape.now.folds.items }
{
    let mut width = shape.keys;
    for fold in &shape.folds {
        width += words_of_fold(*fold);
    }
    width
}

fn push(picks: &mut Vec<Pick>, pick: Pick) -> Result<(), Memory>
    ensures value { OnOk result (picks.new.items ≡ picks.old.items ++ pick ∷ []) }
{
    picks.push(pick).map_err(|_| Memory)
}

fn column_pick(plan: &Plan, at: At) -> Pick
    ensures value { result ≡ column_pick (columns_of plan.now) at }
{
    Pick::Word(plan.column_place(at))
}

/// The picks of the group columns, behind others.
fn push_key_picks(plan: &Plan, groups: &[At], picks: &mut Vec<Pick>) -> Result<(), Memory>
    ensures value { OnOk result (picks.new.items ≡ picks.old.items ++ map (column_pick (columns_of plan.now)) groups.now) }
{
    for at in groups {
        push(picks, column_pick(plan, *at))?;
    }
    Ok(())
}

/// The pick of an item's fold, if it is one, behind others.
fn push_item_pick(plan: &Plan, item: Item, picks: &mut Vec<Pick>) -> Result<(), Memory>
    ensures value { OnOk result (picks.new.items ≡ picks.old.items ++ item_picks (columns_of plan.now) item) }
{
    match item {
        Item::Plain(_) => Ok(()),
        Item::Sum(at) | Item::Avg(at) | Item::Min(at) | Item::Max(at) => {
            push(picks, column_pick(plan, at))
        }
        Item::Count => push(picks, Pick::Zero),
    }
}

/// The picks of the folds, behind others.
#[tactic(auto, using(std::proofs::lemmas::List::flat_map_more))]
fn push_item_picks(plan: &Plan, items: &[Item], picks: &mut Vec<Pick>) -> Result<(), Memory>
    ensures value { OnOk result (picks.new.items ≡ picks.old.items ++ flat_map (item_picks (columns_of plan.now)) items.now) }
{
    for item in items {
        push_item_pick(plan, *item, picks)?;
    }
    Ok(())
}

/// What a running row hands to a grouper: the words of the group columns, and then a word for each fold, 0 for a count.
///
/// # Errors
/// `Memory` where it is wanting.
pub fn group_picks(alloc: Global, plan: &Plan) -> Result<Vec<Pick>, Memory>
    ensures picks { IfOk result (λ picks. (w : List ℤ) → picked picks.items w ≡ group_input (columns_of plan.now) plan.now.query w) }
    ensures count { IfOk result (λ picks. length picks.items ≡ length plan.now.query.groups + length (folds_of plan.now.query.items)) }
{
    let mut picks = Vec::new(alloc);
    let query = plan.query();
    push_key_picks(plan, &query.groups, &mut picks)?;
    push_item_picks(plan, &query.items, &mut picks)?;
    Ok(picks)
}
