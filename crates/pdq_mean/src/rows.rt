//! The rows of an answer in order.
ghost use Rattle.std.specs.Prelude.{◌≡◌, All, IfOk, List, OnOk, map};
ghost use Rattle.std.specs.List.Sorted.{IsPermutation, IsSorted};
ghost use Rattle.pdq_query.specs.Answer.{answer_cmp, key_cmp};
ghost use Rattle.pdq_mean.specs.KeyPrefixes.{IsPrefixedRow, first_cmp, first_key, prefixed_row_cmp};
ghost use Rattle.pdq_mean.specs.Rows.{vector_cmp};

use crate::cell_ref::{cell_at, compare_refs};
use crate::key_prefixes::{KeyPrefix, Prefixed, compare_prefixes, items, prefix_of};
use pdq_base::Memory;
use pdq_query::Key;
use pdq_value::{Cell, compare_rows};
use std::alloc::Global;
use std::cmp::Ordering;
use std::mem::replace;

/// By one order key.
fn compare_at(key: Key, a: &[Cell], b: &[Cell]) -> Ordering
    ensures order { result ≡ key_cmp key a.now b.now }
{
    let place = key.item as usize;
    if key.down {
        compare_refs(cell_at(b, place), cell_at(a, place))
    } else {
        compare_refs(cell_at(a, place), cell_at(b, place))
    }
}

/// By the order keys, and then by the whole row.
#[tactic(auto, unfolding(pdq_query::specs::Answer::keys_cmp))]
fn compare_answers(keys: &[Key], a: &[Cell], b: &[Cell]) -> Ordering
    ensures order { result ≡ answer_cmp keys.now a.now b.now }
{
    for key in keys {
        let order = compare_at(*key, a, b);
        if order.is_ne() {
            return order;
        }
    }
    compare_rows(a, b)
}

/// The key that rows are compared by first; where there is none, their first cells ascending.
fn first_key(keys: &[Key]) -> Key
    ensures value { result ≡ first_key keys.now }
{
    match keys.first() {
        Some(key) => *key,
        None => Key {
            item: 0,
            down: false,
        },
    }
}

fn prefixed_row(keys: &[Key], row: Vec<Cell>) -> Prefixed<Vec<Cell>>
    ensures item { result.item ≡ row }
    ensures prefix { IsPrefixedRow keys.now result }
{
    let prefix = prefix_of(cell_at(&row, first_key(keys).item as usize));
    Prefixed { prefix, item: row }
}

/// The rows, each with the prefix of its cell at the first key.
fn prefixed_rows(
    alloc: Global,
    keys: &[Key],
    rows: Vec<Vec<Cell>>,
) -> Result<Vec<Prefixed<Vec<Cell>>>, Memory>
    ensures items { IfOk result (λ prefixed. map (λ l. l.item) prefixed.items ≡ rows.items) }
    ensures prefixes { IfOk result (λ prefixed. All (IsPrefixedRow keys.now) prefixed.items) }
{
    let Ok(mut prefixed) = Vec::with_capacity(alloc, rows.len()) else {
        return Err(Memory);
    };
    for row in rows {
        if prefixed.push(prefixed_row(keys, row)).is_err() {
            return Err(Memory);
        }
    }
    Ok(prefixed)
}

/// By prefixes, the greater first where the first key is descending.
fn compare_first(keys: &[Key], a: &KeyPrefix, b: &KeyPrefix) -> Ordering
    ensures order { result ≡ first_cmp keys.now a.now b.now }
{
    if first_key(keys).down {
        compare_prefixes(b, a)
    } else {
        compare_prefixes(a, b)
    }
}

#[tactic(auto, unfolding(crate::specs::KeyPrefixes::prefixed_row_cmp, crate::specs::Rows::vector_cmp))]
fn compare_prefixed_rows(keys: &[Key], a: &Prefixed<Vec<Cell>>, b: &Prefixed<Vec<Cell>>) -> Ordering
    ensures order { result ≡ prefixed_row_cmp keys.now a.now b.now }
{
    let order = compare_first(keys, &a.prefix, &b.prefix);
    if order.is_ne() {
        return order;
    }
    compare_answers(keys, &a.item, &b.item)
}

fn sort_prefixed_rows(keys: &[Key], rows: &mut Vec<Prefixed<Vec<Cell>>>)
    ensures permutation { IsPermutation rows.old.items rows.new.items }
    ensures sorted { IsSorted (prefixed_row_cmp keys.now) rows.new.items }
{
    rows.sort_unstable_by(|a, b| compare_prefixed_rows(keys, a, b));
}

/// The rows by the order keys, and then by the whole row.
///
/// # Errors
/// `Memory` where it is wanting.
pub fn sort_rows(alloc: Global, keys: &[Key], rows: &mut Vec<Vec<Cell>>) -> Result<(), Memory>
    ensures permutation { OnOk result (IsPermutation rows.old.items rows.new.items) }
    ensures sorted { OnOk result (IsSorted (vector_cmp keys.now) rows.new.items) }
{
    let unsorted = replace(rows, Vec::new(alloc));
    let mut prefixed = prefixed_rows(alloc, keys, unsorted)?;
    sort_prefixed_rows(keys, &mut prefixed);
    *rows = items(alloc, prefixed)?;
    Ok(())
}
