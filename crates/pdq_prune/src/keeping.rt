//! The fragments that no filter excludes.
ghost use Rattle.std.specs.Prelude.{◌≡◌, ◌<◌, ◌≤◌, ◌++◌, [], ◌∷◌, All, IfOk, OnOk, if◌then◌else◌, length, map, not};
ghost use Rattle.std.specs.List.{list_any};
ghost use Rattle.pdq_query.specs.Fits.{Fits};
ghost use Rattle.pdq_query.specs.Queries.{query_of};
ghost use Rattle.pdq_schema.specs.Fragments.{fragment_count};
ghost use Rattle.pdq_schema.specs.Schemas.{cut_of};
ghost use Rattle.pdq_prune.specs.Elimination.{AreFragments, cut_at, filter_excludes, fragments_left, left_of, widest_of};

use crate::excluding::filter_excludes;
use pdq_base::Memory;
use pdq_query::{Filter, Query};
use pdq_schema::{Cut, Schema};
use pdq_table::Stored;
use std::alloc::Global;

// Whether a filter excludes this fragment of the table at a place in FROM.
fn is_excluded(cut: &Cut, place: u32, fragment: u32, filters: &[Filter]) -> bool
    requires { fragment_count (cut_of cut.now) ≤ 16 }
    ensures { result ≡ list_any (filter_excludes (cut_of cut.now) place fragment) filters.now }
{
    filters
        .iter()
        .any(|filter| filter_excludes(cut, place, fragment, filter))
}

// One more fragment, where no filter excludes it.
fn keep(
    left: &mut Vec<u32>,
    cut: &Cut,
    place: u32,
    fragment: u32,
    filters: &[Filter],
) -> Result<(), Memory>
    requires { fragment_count (cut_of cut.now) ≤ 16 }
    ensures { OnOk result (left.new.items ≡ left.old.items ++ (if not (list_any (filter_excludes (cut_of cut.now) place fragment) filters.now) then fragment ∷ [] else [])) }
{
    if is_excluded(cut, place, fragment, filters) {
        return Ok(());
    }
    left.push(fragment).map_err(|_| Memory)
}

/// The fragments of a table, cut so, that no filter excludes.
pub(crate) fn left_of(
    alloc: Global,
    cut: &Cut,
    place: u32,
    filters: &[Filter],
) -> Result<Vec<u32>, Memory>
    requires { fragment_count (cut_of cut.now) ≤ 16 }
    ensures { IfOk result (λ left. left.items ≡ left_of (cut_of cut.now) place filters.now) }
{
    let mut left = Vec::new(alloc);
    let count = cut.fragment_count();
    for fragment in 0..count {
        keep(&mut left, cut, place, fragment, filters)?;
    }
    Ok(left)
}

// Those of the table at a place in FROM.
fn left_at(alloc: Global, schema: &Schema, query: &Query, place: u32) -> Result<Vec<u32>, Memory>
    requires fits { Fits schema.now.shapes (query_of query.now) }
    requires place { place < length query.now.tables.items }
    ensures left { IfOk result (λ left. left.items ≡ left_of (cut_at schema.now (query_of query.now) place) place query.now.filters.items) }
    ensures few { IfOk result (λ left. length left.items ≤ 16) }
{
    let table = query.tables[place as usize];
    let cut = schema.cut(table);
    left_of(alloc, cut, place, &query.filters)
}

// Those of each table.
fn left_in(alloc: Global, schema: &Schema, query: &Query) -> Result<Vec<Vec<u32>>, Memory>
    requires { Fits schema.now.shapes (query_of query.now) }
    ensures left { IfOk result (λ left. map (λ places. places.items) left.items ≡ fragments_left schema.now (query_of query.now)) }
    ensures fragments { IfOk result (λ left. AreFragments schema.now (query_of query.now) (map (λ places. places.items) left.items)) }
    ensures few { IfOk result (λ left. All (λ places. length places.items ≤ 16) left.items) }
{
    let mut left = Vec::new(alloc);
    let count = query.tables.len() as u32;
    for place in 0..count {
        let fragments = left_at(alloc, schema, query, place)?;
        left.push(fragments).map_err(|_| Memory)?;
    }
    Ok(left)
}

/// For each table of a query, in FROM order, the fragments that can hold a row that meets the filters, rising. A filter excludes fragments of a table
/// that is cut by ranges, where it compares the column of the ranges with a literal. Fragments count from 0.
///
/// # Errors
/// `Memory` where it is wanting.
pub fn left(alloc: Global, stored: &Stored, query: &Query) -> Result<Vec<Vec<u32>>, Memory>
    requires { Fits stored.now.schema.shapes (query_of query.now) }
    ensures left { IfOk result (λ left. map (λ places. places.items) left.items ≡ fragments_left stored.now.schema (query_of query.now)) }
    ensures fragments { IfOk result (λ left. AreFragments stored.now.schema (query_of query.now) (map (λ places. places.items) left.items)) }
    ensures few { IfOk result (λ left. All (λ places. length places.items ≤ 16) left.items) }
{
    left_in(alloc, stored.schema(), query)
}

/// The greatest number of fragments left of a table, at least 1: so many scan threads can have work.
pub fn widest(left: &[Vec<u32>]) -> u32
    requires some { 1 ≤ length left.now }
    requires few { All (λ places. length places.items ≤ 16) left.now }
    ensures { result ≡ widest_of (map (λ places. places.items) left.now) }
{
    let mut widest = 1;
    for fragments in left {
        widest = widest.max(fragments.len() as u32);
    }
    widest
}
