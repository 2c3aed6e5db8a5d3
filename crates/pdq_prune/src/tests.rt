//! The fragments of one table that six conditions leave.
ghost use Rattle.std.specs.Prelude.{◌≡◌, ◌≤◌, IfOk, length};
ghost use Rattle.pdq_schema.specs.Fragments.{fragment_count};
ghost use Rattle.pdq_schema.specs.Schemas.{cut_of};

use crate::keeping::left_of;
use crate::widest;
use pdq_query::{At, Compare, Filter};
use pdq_schema::{Cut, Range};
use pdq_value::Value;
use std::alloc::{AllocError, Global};
use std::test::Fail;

/// Below 10, from 10 below 20, and the rows in neither.
fn two_ranges(alloc: Global) -> Result<Cut, AllocError>
    ensures { IfOk result (λ cut. fragment_count (cut_of cut) ≤ 16) }
{
    let low = Range {
        from: None,
        below: Some(Value::Number(10)),
    };
    let high = Range {
        from: Some(Value::Number(10)),
        below: Some(Value::Number(20)),
    };
    Ok(Cut::Ranges {
        column: 0,
        ranges: vec![in alloc; low, high]?,
    })
}

/// A comparison of the column of the ranges.
fn condition(test: Compare, value: i64) -> Filter {
    let at = At {
        table: 0,
        column: 0,
    };
    Filter::Literal(at, test, Value::Number(value))
}

#[test]
fn conditions_leave_fragments(rt: HostRuntime) -> Result<(), Fail> {
    let alloc = rt.alloc();
    let cut = two_ranges(alloc)?;
    let left = left_of(alloc, &cut, 0, &[condition(Compare::Eq, 12)])?;
    assert_eq!(rt; left.as_slice(), [1].as_slice());
    let left = left_of(alloc, &cut, 0, &[condition(Compare::Eq, 25)])?;
    assert_eq!(rt; left.as_slice(), [2].as_slice());
    let left = left_of(alloc, &cut, 0, &[condition(Compare::Ge, 10)])?;
    assert_eq!(rt; left.as_slice(), [1, 2].as_slice());
    let left = left_of(alloc, &cut, 0, &[condition(Compare::Lt, 10)])?;
    assert_eq!(rt; left.as_slice(), [0, 2].as_slice());
    let both = [condition(Compare::Gt, 12), condition(Compare::Lt, 5)];
    let left = left_of(alloc, &cut, 0, &both)?;
    assert_eq!(rt; left.as_slice(), [2].as_slice());
    let left = left_of(alloc, &cut, 0, &[condition(Compare::Ne, 12)])?;
    assert_eq!(rt; left.as_slice(), [0, 1, 2].as_slice());
    Ok(())
}

#[test]
fn widest_is_one_at_least(rt: HostRuntime) -> Result<(), Fail> {
    let alloc = rt.alloc();
    let none = vec![in alloc; Vec::new(alloc)]?;
    assert_eq!(rt; widest(&none), 1);
    let two = vec![in alloc; vec![in alloc; 2]?, vec![in alloc; 0, 2]?]?;
    assert_eq!(rt; widest(&two), 2);
    Ok(())
}
