//! Where the cells of an answer's row stand in a row of words.
ghost use Rattle.std.specs.Prelude.{◌≡◌, ◌+◌, ◌*◌, ◌<◌, ◌≤◌, All, IfOk, IfSome, length, map, position};
ghost use Rattle.pdq_value.specs.Tables.{IsShape, shape_of};
ghost use Rattle.pdq_query.specs.Fits.{Fits};
ghost use Rattle.pdq_query.specs.Folds.{is_column};
ghost use Rattle.pdq_query.specs.Queries.{query_of};
ghost use Rattle.pdq_plan.specs.PlanSteps.{column_place};
ghost use Rattle.pdq_plan.specs.Plans.{columns_of};
ghost use Rattle.pdq_eval.specs.Results.{kind_at, scale_of_kind};
ghost use Rattle.pdq_result.specs.Sources.{group_source, group_sources, plain_source, words_of_item};

use pdq_base::Memory;
use pdq_plan::Plan;
use pdq_query::{At, Item, Query};
use pdq_value::{Kind, TableShape};
use std::alloc::Global;

/// Where a cell stands in a row of words, and how it is read. Places count from 0.
#[derive(Clone, Copy)]
pub enum Source {
    /// There is none.
    Nothing,
    /// The word of a column.
    Column { place: u32, kind: Kind },
    /// The least or the greatest word of a column.
    Extreme { place: u32, kind: Kind },
    /// A number of two words, the low word first, with so many decimal places.
    Wide { place: u32, scale: u32 },
    /// A number of rows.
    Count { place: u32 },
}

/// The kind of a query's column; texts, where there is no such column.
fn kind_at(shapes: &[TableShape], query: &Query, at: At) -> Kind
    ensures value { result ≡ kind_at (map shape_of shapes.now) (query_of query.now) at }
{
    let Some(table) = query.tables.get(at.table as usize) else {
        return Kind::Words;
    };
    let Some(shape) = shapes.get(*table as usize) else {
        return Kind::Words;
    };
    match shape.columns.get(at.column as usize) {
        Some(column) => column.kind,
        None => Kind::Words,
    }
}

/// The decimal places of a kind.
fn scale_of(kind: Kind) -> u32
    ensures value { result ≡ scale_of_kind kind }
{
    match kind {
        Kind::Number { scale } => scale,
        Kind::Words => 0,
    }
}

fn plain_source(shapes: &[TableShape], plan: &Plan, item: Item) -> Source
    ensures value { result ≡ plain_source (map shape_of shapes.now) plan.now.query (columns_of plan.now) item }
{
    match item {
        Item::Plain(at) => Source::Column {
            place: plan.column_place(at),
            kind: kind_at(shapes, plan.query(), at),
        },
        Item::Sum(_) | Item::Avg(_) | Item::Min(_) | Item::Max(_) | Item::Count => Source::Nothing,
    }
}

/// The cells of the select list in a running row.
pub fn plain_sources(
    alloc: Global,
    shapes: &[TableShape],
    plan: &Plan,
    items: &[Item],
) -> Result<Vec<Source>, Memory>
    ensures value { IfOk result (λ sources. sources.items ≡ map (plain_source (map shape_of shapes.now) plan.now.query (columns_of plan.now)) items.now) }
{
    let mut sources = Vec::new(alloc);
    for item in items {
        let Ok(()) = sources.push(plain_source(shapes, plan, *item)) else {
            return Err(Memory);
        };
    }
    Ok(sources)
}

/// The first place where a column stands among the group columns.
fn first_place(groups: &[At], at: At) -> Option<usize>
    ensures place { result ≡ position (is_column at) groups.now }
    ensures within { IfSome result (λ place. place < length groups.now) }
{
    groups.iter().position(|group| at.table == group.table && at.column == group.column)
}

/// Where a column stands among the group columns; their number, where it does not.
fn group_place(groups: &[At], at: At) -> u32
    requires few { length groups.now ≤ 16 }
    ensures place { result ≡ column_place groups.now at }
{
    match first_place(groups, at) {
        Some(place) => place as u32,
        None => groups.len() as u32,
    }
}

fn group_source(shapes: &[TableShape], query: &Query, place: u32, item: Item) -> Source
    requires few { length query.now.groups.items ≤ 16 }
    requires kinds { All IsShape (map shape_of shapes.now) }
    ensures value { result ≡ group_source (map shape_of shapes.now) (query_of query.now) place item }
{
    match item {
        Item::Plain(at) => Source::Column {
            place: group_place(&query.groups, at),
            kind: kind_at(shapes, query, at),
        },
        Item::Sum(at) => Source::Wide {
            place,
            scale: scale_of(kind_at(shapes, query, at)),
        },
        Item::Avg(at) => Source::Wide {
            place,
            scale: scale_of(kind_at(shapes, query, at)) + 2,
        },
        Item::Min(at) | Item::Max(at) => Source::Extreme {
            place,
            kind: kind_at(shapes, query, at),
        },
        Item::Count => Source::Count { place },
    }
}

/// How many words an item's fold has.
fn words_of_item(item: Item) -> u32
    ensures value { result ≡ words_of_item item }
    ensures few { result ≤ 2 }
{
    match item {
        Item::Plain(_) => 0,
        Item::Sum(_) | Item::Avg(_) => 2,
        Item::Min(_) | Item::Max(_) | Item::Count => 1,
    }
}

/// The cells of the select list in a group's row.
pub fn group_sources(
    alloc: Global,
    shapes: &[TableShape],
    query: &Query,
) -> Result<Vec<Source>, Memory>
    requires kinds { All IsShape (map shape_of shapes.now) }
    requires fits { Fits (map shape_of shapes.now) (query_of query.now) }
    ensures value { IfOk result (λ sources. sources.items ≡ group_sources (map shape_of shapes.now) (query_of query.now) query.now.items.items (length query.now.groups.items)) }
{
    let mut sources = Vec::new(alloc);
    let mut place = query.groups.len() as u32;
    for item in &query.items {
        let Ok(()) = sources.push(group_source(shapes, query, place, *item)) else {
            return Err(Memory);
        };
        place += words_of_item(*item);
    }
    Ok(sources)
}
