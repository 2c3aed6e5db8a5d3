//! Plans of small queries.
ghost use Rattle.std.specs.Prelude.{◌≡◌, ◌≤◌, All, IfOk, List, length};
ghost use Rattle.std.specs.List.Sorted.{IsStrictlyIncreasing};
ghost use Rattle.pdq_value.specs.Tables.{ShapeView};
ghost use Rattle.pdq_query.specs.Fits.{Fits};
ghost use Rattle.pdq_query.specs.Queries.{query_of};

use crate::columns::{columns_used, kept_columns};
use crate::order::order_of;
use crate::plan;
use pdq_query::{At, Compare, Filter, Item, Query};
use pdq_value::Value;
use std::alloc::{AllocError, Global};
use std::test::Fail;

/// A column.
fn at(table: u32, column: u32) -> At
    ensures { result ≡ record { table = table; column = column } }
{
    At { table, column }
}

/// `SELECT s.name FROM shops s, regions r WHERE r.id < 3 AND s.region = r.id`.
fn shops(alloc: Global) -> Result<Query, AllocError>
    ensures fits { IfOk result (λ query. (shapes : List ShapeView) × Fits shapes (query_of query)) }
    ensures two { IfOk result (λ query. length query.tables.items ≡ 2) }
{
    Ok(Query {
        tables: vec![in alloc; 0, 1]?,
        filters: vec![in alloc; Filter::Literal(at(1, 0), Compare::Lt, Value::Number(3))]?,
        joins: vec![in alloc; (at(0, 1), at(1, 0))]?,
        items: vec![in alloc; Item::Plain(at(0, 0))]?,
        groups: Vec::new(alloc),
        keys: Vec::new(alloc),
    })
}

/// The first fragment of one table and the second of the other.
fn two_fragments(alloc: Global) -> Result<Vec<Vec<u32>>, AllocError>
    ensures two { IfOk result (λ left. length left.items ≡ 2) }
    ensures rising { IfOk result (λ left. All (λ places. IsStrictlyIncreasing places.items) left.items) }
{
    Ok(vec![in alloc; vec![in alloc; 0]?, vec![in alloc; 1]?]?)
}

/// Four tables in a chain, grouped by a column that nothing else names.
fn chain(alloc: Global) -> Result<Query, AllocError>
    ensures { IfOk result (λ query. length query.tables.items ≡ 4) }
{
    Ok(Query {
        tables: vec![in alloc; 0, 1, 2, 3]?,
        filters: Vec::new(alloc),
        joins: vec![in alloc;
            (at(0, 1), at(1, 0)),
            (at(1, 1), at(2, 0)),
            (at(3, 0), at(2, 1)),
        ]?,
        items: vec![in alloc; Item::Count, Item::Sum(at(0, 1))]?,
        groups: vec![in alloc; at(0, 2)]?,
        keys: Vec::new(alloc),
    })
}

#[test]
fn joins_a_filtered_table_first(rt: HostRuntime) -> Result<(), Fail> {
    let alloc = rt.alloc();
    let query = shops(alloc)?;
    let plan = plan(alloc, &query, &[5, 9])?;
    assert_eq!(rt; plan.query().tables.len(), 2);
    assert_eq!(rt; plan.sizes(), [5, 9].as_slice());
    assert_eq!(rt; plan.columns(), [at(1, 0), at(0, 0), at(0, 1)].as_slice());
    assert_eq!(rt; plan.column_place(at(0, 1)), 2);
    let steps = plan.steps();
    assert_eq!(rt; steps.len(), 2);
    assert_eq!(rt; steps[0].place(), 1);
    assert_eq!(rt; steps[0].filters().len(), 1);
    assert_eq!(rt; steps[0].kept(), [at(1, 0)].as_slice());
    assert_eq!(rt; steps[0].pairs().len(), 0);
    assert_eq!(rt; steps[1].place(), 0);
    assert_eq!(rt; steps[1].filters().len(), 0);
    assert_eq!(rt; steps[1].kept(), [at(0, 0), at(0, 1)].as_slice());
    assert_eq!(rt; steps[1].pairs(), [(1, 0)].as_slice());
    Ok(())
}

#[test]
fn reads_the_fragments_left(rt: HostRuntime) -> Result<(), Fail> {
    let alloc = rt.alloc();
    let query = shops(alloc)?;
    let plan = plan(alloc, &query, &[5, 9])?;
    assert!(rt; plan.reads(0, 1));
    let plan = plan.with_left(two_fragments(alloc)?);
    assert!(rt; plan.reads(0, 0));
    assert!(rt; !plan.reads(0, 1));
    assert!(rt; plan.reads(1, 1));
    assert!(rt; !plan.reads(2, 0));
    Ok(())
}

#[test]
fn takes_the_largest_then_the_smallest_that_is_joined(rt: HostRuntime) -> Result<(), Fail> {
    let alloc = rt.alloc();
    let query = chain(alloc)?;
    let order = order_of(alloc, &query, &[10, 30, 30, 5])?;
    assert_eq!(rt; order.as_slice(), [1, 0, 2, 3].as_slice());
    let order = order_of(alloc, &query, &[10, 20, 10, 40])?;
    assert_eq!(rt; order.as_slice(), [3, 2, 1, 0].as_slice());
    let order = order_of(alloc, &query, &[7, 20, 7, 3])?;
    assert_eq!(rt; order.as_slice(), [1, 0, 2, 3].as_slice());
    Ok(())
}

#[test]
fn keeps_each_column_once(rt: HostRuntime) -> Result<(), Fail> {
    let alloc = rt.alloc();
    let query = chain(alloc)?;
    let used = columns_used(alloc, &query)?;
    let kept = kept_columns(alloc, &used, 0)?;
    assert_eq!(rt; kept.as_slice(), [at(0, 1), at(0, 2)].as_slice());
    let kept = kept_columns(alloc, &used, 2)?;
    assert_eq!(rt; kept.as_slice(), [at(2, 0), at(2, 1)].as_slice());
    Ok(())
}
