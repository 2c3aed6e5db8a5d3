//! The numbers of the keys of choices.
ghost use Rattle.std.specs.Prelude.{◌≡◌, ◌+◌, ◌<◌, ◌≤◌, [], All, IfOk, if◌then◌else◌, length, map, take, true};
ghost use Rattle.std.specs.List.{dedup, range_with_len};
ghost use Rattle.std.specs.List.Sorted.{IsPermutation, IsSorted};
ghost use Rattle.pdq_value.specs.Tables.{tables_of};
ghost use Rattle.pdq_query.specs.Queries.{query_of};
ghost use Rattle.pdq_query.specs.Folds.{is_grouped, is_row};
ghost use Rattle.pdq_query.specs.Answer.{row_limit};
ghost use Rattle.pdq_mean.specs.Groups.{AreNumbersOf, choices_of};
ghost use Rattle.pdq_mean.specs.Places.{IsPrefixedPlace, NumbersKeys, keys_at, prefixed_place_cmp, numbers_at};

use crate::group_columns::{columns_left, compare_columns, first_key_cell};
use crate::key_prefixes::{Prefixed, compare_prefixes, prefix_of};
use pdq_base::Memory;
use pdq_query::Query;
use pdq_value::Db;
use std::alloc::Global;
use std::cmp::Ordering;

/// The numbers of keys: of each choice the number of its key among the keys in order, from 0; and how many keys there are.
#[derive(Drop)]
pub struct KeyNumbers {
    pub numbers: Vec<usize>,
    pub count: usize,
}

/// The numbers of the rows of the choice at a place; none past the end.
fn numbers_at(choices: &[Vec<usize>], place: usize) -> &[usize]
    ensures numbers { result.now ≡ numbers_at choices.now place }
{
    match choices.get(place) {
        Some(choice) => choice,
        None => &[],
    }
}

fn prefixed_place(db: &Db, query: &Query, choices: &[Vec<usize>], place: usize) -> Prefixed<usize>
    requires within { place < length choices.now }
    ensures item { result.item ≡ place }
    ensures prefix { IsPrefixedPlace (tables_of db.now) (query_of query.now) choices.now result }
{
    let prefix = prefix_of(first_key_cell(db, query, numbers_at(choices, place)));
    Prefixed {
        prefix,
        item: place,
    }
}

/// The places of the choices, each beside the prefix of its choice's cell in the first group column.
fn prefixed_places(
    alloc: Global,
    db: &Db,
    query: &Query,
    choices: &[Vec<usize>],
) -> Result<Vec<Prefixed<usize>>, Memory>
    ensures places { IfOk result (λ prefixed. map (λ l. l.item) prefixed.items ≡ range_with_len 0 (length choices.now)) }
    ensures prefixes { IfOk result (λ prefixed. All (IsPrefixedPlace (tables_of db.now) (query_of query.now) choices.now) prefixed.items) }
{
    let Ok(mut prefixed) = Vec::with_capacity(alloc, choices.len()) else {
        return Err(Memory);
    };
    for place in 0..choices.len() {
        if prefixed
            .push(prefixed_place(db, query, choices, place))
            .is_err()
        {
            return Err(Memory);
        }
    }
    Ok(prefixed)
}

/// By the prefixes; where they tie, by the cells that are left. Where none is left, the choices are not looked up.
fn compare_prefixed_places(
    db: &Db,
    query: &Query,
    choices: &[Vec<usize>],
    a: &Prefixed<usize>,
    b: &Prefixed<usize>,
) -> Ordering
    ensures order { result ≡ prefixed_place_cmp (tables_of db.now) (query_of query.now) choices.now a.now b.now }
{
    let order = compare_prefixes(&a.prefix, &b.prefix);
    if order.is_ne() {
        return order;
    }
    let columns = columns_left(query, &a.prefix);
    if columns.is_empty() {
        return order;
    }
    let first = numbers_at(choices, a.item);
    let second = numbers_at(choices, b.item);
    compare_columns(db, query, columns, first, second)
}

fn sort_prefixed_places(
    db: &Db,
    query: &Query,
    choices: &[Vec<usize>],
    prefixed: &mut Vec<Prefixed<usize>>,
)
    ensures permutation { IsPermutation prefixed.old.items prefixed.new.items }
    ensures sorted { IsSorted (prefixed_place_cmp (tables_of db.now) (query_of query.now) choices.now) prefixed.new.items }
{
    prefixed.sort_unstable_by(|a, b| compare_prefixed_places(db, query, choices, a, b));
}

/// Whether a place in the sorted list has another key than the one before it, or none is before it.
fn starts_key(
    db: &Db,
    query: &Query,
    choices: &[Vec<usize>],
    prefixed: &[Prefixed<usize>],
    index: usize,
) -> bool
    requires within { index < length prefixed.now }
    requires prefixes { All (IsPrefixedPlace (tables_of db.now) (query_of query.now) choices.now) prefixed.now }
    ensures one_more { let keys = keys_at (tables_of db.now) (query_of query.now) choices.now prefixed.now in length (dedup is_row (take (index + 1) keys)) ≡ length (dedup is_row (take index keys)) + (if result then 1 else 0) }
{
    if index == 0 {
        return true;
    }
    compare_prefixed_places(db, query, choices, &prefixed[index], &prefixed[index - 1]).is_ne()
}

/// In one walk over the sorted places, the number of each choice's key.
fn number_sorted(
    alloc: Global,
    db: &Db,
    query: &Query,
    choices: &[Vec<usize>],
    prefixed: &[Prefixed<usize>],
) -> Result<KeyNumbers, Memory>
    requires prefixes { All (IsPrefixedPlace (tables_of db.now) (query_of query.now) choices.now) prefixed.now }
    ensures numbers { IfOk result (λ n. NumbersKeys (tables_of db.now) (query_of query.now) choices.now prefixed.now n.numbers.items n.count) }
{
    let Ok(mut numbers) = vec![in alloc; 0; choices.len()] else {
        return Err(Memory);
    };
    let mut count: usize = 0;
    for index in 0..prefixed.len() {
        if starts_key(db, query, choices, prefixed, index) {
            count += 1;
        }
        numbers[prefixed[index].item] = count - 1;
    }
    Ok(KeyNumbers { numbers, count })
}

/// The number of each choice's key.
///
/// # Errors
/// `Memory` where it is wanting.
pub fn number_keys(
    alloc: Global,
    db: &Db,
    query: &Query,
    choices: &[Vec<usize>],
) -> Result<KeyNumbers, Memory>
    requires grouped { is_grouped (query_of query.now) ≡ true }
    requires rows { length choices.now ≤ row_limit }
    ensures numbers { IfOk result (λ n. AreNumbersOf (query_of query.now) (choices_of (tables_of db.now) (query_of query.now) choices.now) n.numbers.items n.count) }
{
    let mut prefixed = prefixed_places(alloc, db, query, choices)?;
    sort_prefixed_places(db, query, choices, &mut prefixed);
    number_sorted(alloc, db, query, choices, &prefixed)
}
