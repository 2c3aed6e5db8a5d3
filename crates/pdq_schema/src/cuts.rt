//! How the rows of a table are cut into fragments.
ghost use Rattle.std.specs.Prelude.{◌≡◌, ◌<◌, ◌≤◌, IfSome, length, position};
ghost use Rattle.pdq_schema.specs.Fragments.{CutsRow, NullsStandInTheRemainder, RowsStandInOneFragment, fragment_count, fragment_number, holds_value, is_there, range_number, value_cmp};
ghost use Rattle.pdq_schema.specs.Schemas.{cut_of};
ghost use Rattle.pdq_schema.specs.declared.cuts.Range.{Range as RangeValue};

use pdq_value::Value;
use std::cmp::Ordering;

/// The values from `from` on that are less than `below`. A missing side holds always; Null is in no range.
#[derive(Debug, Drop)]
pub struct Range {
    pub from: Option<Value>,
    pub below: Option<Value>,
}

/// How the rows of a table are cut: in turn over so many fragments, or by the ranges of a column, where the rows in no range are
/// the last fragment.
#[derive(Debug, Drop)]
pub enum Cut {
    Rounds(u32),
    Ranges { column: u32, ranges: Vec<Range> },
}

/// The order of values: Null first, then numbers by value, then texts by bytes.
pub fn compare(value: &Value, other: &Value) -> Ordering
    ensures value { result ≡ value_cmp value.now other.now }
{
    match value {
        Value::Null => match other {
            Value::Null => Ordering::Equal,
            _ => Ordering::Less,
        },
        Value::Number(number) => match other {
            Value::Null => Ordering::Greater,
            Value::Number(other) => number.cmp(other),
            Value::Words(_) => Ordering::Less,
        },
        Value::Words(text) => match other {
            Value::Words(other) => text.bytes().cmp(&other.bytes()),
            _ => Ordering::Greater,
        },
    }
}

fn is_there(value: &Value) -> bool
    ensures value { result ≡ is_there value.now }
{
    match value {
        Value::Null => false,
        _ => true,
    }
}

impl Range {
    /// Whether it holds the value: numbers by value, texts by bytes, and never Null.
    pub fn holds(&self, value: &Value) -> bool
        ensures value { result ≡ holds_value self.now value.now }
    {
        let is_from = match &self.from {
            Some(from) => compare(value, from) != Ordering::Less,
            None => true,
        };
        let is_below = match &self.below {
            Some(below) => compare(value, below) == Ordering::Less,
            None => true,
        };
        is_there(value) && is_from && is_below
    }
}

/// The first range that holds the value.
fn first_range(ranges: &[Range], value: &Value) -> Option<usize>
    ensures value { result ≡ position (λ (r : RangeValue). holds_value r value.now) ranges.now }
    ensures within { IfSome result (λ number. number < length ranges.now) }
{
    ranges.iter().position(|range| range.holds(value))
}

/// The number of the first range that holds the value, behind the last where none does.
pub fn range_number(ranges: &[Range], value: &Value) -> u32
    requires few { length ranges.now ≤ 15 }
    ensures value { result ≡ range_number ranges.now value.now }
    ensures within { result ≤ length ranges.now }
{
    match first_range(ranges, value) {
        Some(number) => number as u32,
        None => ranges.len() as u32,
    }
}

impl Cut {
    /// How many fragments a table has that is cut so.
    pub fn fragment_count(&self) -> u32
        requires fragments { fragment_count (cut_of self.now) ≤ 16 }
        ensures value { result ≡ fragment_count (cut_of self.now) }
    {
        match self {
            Cut::Rounds(count) => *count,
            Cut::Ranges { ranges, .. } => ranges.len() as u32 + 1,
        }
    }

    /// The fragment in which the row at this place stands: in turn, or by the first range that holds its value, and the last
    /// fragment where none does. Places and fragments count from 0.
    pub fn fragment_number(&self, place: u32, row: &[Value]) -> u32
        requires row { CutsRow (cut_of self.now) row.now }
        ensures value { result ≡ fragment_number (cut_of self.now) place row.now }
        ensures within { result < fragment_count (cut_of self.now) }
    {
        match self {
            Cut::Rounds(count) => place % *count,
            Cut::Ranges { column, ranges } => range_number(ranges, &row[*column as usize]),
        }
    }
}

/// A row whose column of the ranges is Null stands in the remainder.
pub fn nulls_stand_in_the_remainder()
    ensures law { NullsStandInTheRemainder }
{}

/// Each row of a table stands in exactly one fragment.
pub fn rows_stand_in_one_fragment()
    ensures law { RowsStandInOneFragment }
{}
