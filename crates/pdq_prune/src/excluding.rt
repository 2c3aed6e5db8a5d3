//! Which fragments a filter excludes.
ghost use Rattle.std.specs.Prelude.{◌≡◌, ◌<◌, ◌≤◌, ◌==◌, ◌&&◌, IfSome, length, position};
ghost use Rattle.pdq_query.specs.Conditions.{holds};
ghost use Rattle.pdq_schema.specs.Fragments.{fragment_count, holds_value, range_number, value_cmp};
ghost use Rattle.pdq_schema.specs.Schemas.{cut_of};
ghost use Rattle.pdq_schema.specs.declared.cuts.Range.{Range as RangeValue};
ghost use Rattle.pdq_prune.specs.Elimination.{below_of, excludes, filter_excludes, from_of, side_compares};

use pdq_query::{At, Compare, Filter};
use pdq_schema::{Cut, Range, compare, range_number};
use pdq_value::Value;
use std::cmp::Ordering;

// Whether the comparison holds of two sides in this order.
fn holds(test: Compare, order: Ordering) -> bool
    ensures { result ≡ holds test order }
{
    match test {
        Compare::Eq => order == Ordering::Equal,
        Compare::Ne => order != Ordering::Equal,
        Compare::Lt => order == Ordering::Less,
        Compare::Le => order != Ordering::Greater,
        Compare::Gt => order == Ordering::Greater,
        Compare::Ge => order != Ordering::Less,
    }
}

// Whether a side is there and compares so with the value.
fn side_compares(side: &Option<Value>, test: Compare, value: &Value) -> bool
    ensures { result ≡ side_compares side.now test value.now }
{
    match side {
        Some(side) => holds(test, compare(side, value)),
        None => false,
    }
}

// Whether the least value of this fragment's range compares so with the value.
fn from_compares(ranges: &[Range], fragment: u32, test: Compare, value: &Value) -> bool
    ensures { result ≡ side_compares (from_of ranges.now fragment) test value.now }
{
    match ranges.get(fragment as usize) {
        Some(range) => side_compares(&range.from, test, value),
        None => false,
    }
}

// Whether the end of this fragment's range compares so with the value.
fn below_compares(ranges: &[Range], fragment: u32, test: Compare, value: &Value) -> bool
    ensures { result ≡ side_compares (below_of ranges.now fragment) test value.now }
{
    match ranges.get(fragment as usize) {
        Some(range) => side_compares(&range.below, test, value),
        None => false,
    }
}

// Whether no value for which this comparison holds stands in the fragment.
fn excludes(ranges: &[Range], test: Compare, value: &Value, fragment: u32) -> bool
    requires { length ranges.now ≤ 15 }
    ensures { result ≡ excludes ranges.now test value.now fragment }
{
    match test {
        Compare::Eq => range_number(ranges, value) != fragment,
        Compare::Ne => false,
        Compare::Lt => from_compares(ranges, fragment, Compare::Ge, value),
        Compare::Le => from_compares(ranges, fragment, Compare::Gt, value),
        Compare::Gt => below_compares(ranges, fragment, Compare::Le, value),
        Compare::Ge => below_compares(ranges, fragment, Compare::Le, value),
    }
}

// Whether this is the column of the table at the place.
fn is_column_of(at: &At, place: u32, column: u32) -> bool
    ensures { result ≡ ((at.now.table == place) && (at.now.column == column)) }
{
    at.table == place && at.column == column
}

/// Whether a filter excludes this fragment of the table at a place in FROM.
pub(crate) fn filter_excludes(cut: &Cut, place: u32, fragment: u32, filter: &Filter) -> bool
    requires { fragment_count (cut_of cut.now) ≤ 16 }
    ensures { result ≡ filter_excludes (cut_of cut.now) place fragment filter.now }
{
    match cut {
        Cut::Ranges { column, ranges } => match filter {
            Filter::Literal(at, test, value) => {
                is_column_of(at, place, *column) && excludes(ranges, *test, value, fragment)
            }
            Filter::Columns(_, _) => false,
        },
        Cut::Rounds(_) => false,
    }
}
