//! How a table of the schema file is cut into fragments.
ghost use Rattle.std.specs.Prelude.{◌≡◌, ◌≤◌, All, IfOk, None, Some, length, option_map};
ghost use Rattle.toml.specs.View.{table_view, view};
ghost use Rattle.pdq_value.specs.Numbers.{number_read};
ghost use Rattle.pdq_value.specs.Tables.{IsKind};
ghost use Rattle.pdq_value.specs.declared.shapes.Column.{Column};
ghost use Rattle.pdq_schema.specs.SchemaFile.{bound_of, bound_of_number, range_between, range_of, ranges_of};
ghost use Rattle.pdq_schema.specs.SchemaTree.{views_of};

use crate::cuts::Range;
use crate::keys::{Part, has_only_keys};
use crate::tree::member;
use pdq_base::Memory;
use pdq_value::{Kind, Text, Value, read_number};
use std::alloc::Global;
use toml::Table;

/// The bound that a number text says.
///
/// # Errors
/// `Memory` also for a text of 4 GB, which no schema file has.
fn number_bound(text: &[u8], scale: u32) -> Result<Option<Value>, Memory>
    requires scale { scale ≤ 6 }
    ensures value { IfOk result (λ bound. bound ≡ bound_of_number (number_read text.now scale)) }
{
    if text.len() >= u32::MAX as usize {
        return Err(Memory);
    }
    match read_number(text, scale) {
        Ok(number) => Ok(Some(Value::Number(number))),
        Err(_) => Ok(None),
    }
}

/// The bound that a string says in a column of this kind.
#[tactic(auto, unfolding(crate::specs::SchemaFile::bound_of))]
fn read_bound(alloc: Global, kind: Kind, value: &toml::Value) -> Result<Option<Value>, Memory>
    requires kind { IsKind kind }
    ensures value { IfOk result (λ bound. bound ≡ bound_of kind (view value.now)) }
{
    let Some(text) = value.as_str() else {
        return Ok(None);
    };
    match kind {
        Kind::Number { scale } => number_bound(text.as_bytes(), scale),
        Kind::Words => Ok(Some(Value::Words(Text::from_str(alloc, text)?))),
    }
}

/// The range with these two sides.
fn range_between(
    alloc: Global,
    kind: Kind,
    from: &toml::Value,
    below: &toml::Value,
) -> Result<Option<Range>, Memory>
    requires kind { IsKind kind }
    ensures value { IfOk result (λ range. range ≡ range_between kind (Some (view from.now)) (Some (view below.now))) }
{
    let Some(from) = read_bound(alloc, kind, from)? else {
        return Ok(None);
    };
    let Some(below) = read_bound(alloc, kind, below)? else {
        return Ok(None);
    };
    Ok(Some(Range {
        from: Some(from),
        below: Some(below),
    }))
}

/// The range from this on.
fn range_from(alloc: Global, kind: Kind, from: &toml::Value) -> Result<Option<Range>, Memory>
    requires kind { IsKind kind }
    ensures value { IfOk result (λ range. range ≡ range_between kind (Some (view from.now)) None) }
{
    let Some(from) = read_bound(alloc, kind, from)? else {
        return Ok(None);
    };
    Ok(Some(Range {
        from: Some(from),
        below: None,
    }))
}

/// The range below this.
fn range_below(alloc: Global, kind: Kind, below: &toml::Value) -> Result<Option<Range>, Memory>
    requires kind { IsKind kind }
    ensures value { IfOk result (λ range. range ≡ range_between kind None (Some (view below.now))) }
{
    let Some(below) = read_bound(alloc, kind, below)? else {
        return Ok(None);
    };
    Ok(Some(Range {
        from: None,
        below: Some(below),
    }))
}

/// The range that a table says.
#[tactic(auto, unfolding(crate::specs::SchemaFile::range_of))]
fn read_range(alloc: Global, kind: Kind, range: &Table) -> Result<Option<Range>, Memory>
    requires kind { IsKind kind }
    ensures value { IfOk result (λ said. said ≡ range_of kind (table_view range.now)) }
{
    if !has_only_keys(Part::Range, range) {
        return Ok(None);
    }
    let from = member(range, "from");
    let below = member(range, "below");
    match from {
        Some(from) => match below {
            Some(below) => range_between(alloc, kind, from, below),
            None => range_from(alloc, kind, from),
        },
        None => match below {
            Some(below) => range_below(alloc, kind, below),
            None => Ok(None),
        },
    }
}

/// The ranges that these say.
pub(crate) fn read_ranges(
    alloc: Global,
    kind: Kind,
    tables: &[&Table],
) -> Result<Option<Vec<Range>>, Memory>
    requires kind { IsKind kind }
    ensures value { IfOk result (λ ranges. option_map (λ v. v.items) ranges ≡ ranges_of kind (views_of tables.now)) }
{
    let mut ranges = Vec::new(alloc);
    for table in tables {
        let Some(range) = read_range(alloc, kind, table)? else {
            return Ok(None);
        };
        if ranges.push(range).is_err() {
            return Err(Memory);
        }
    }
    Ok(Some(ranges))
}
