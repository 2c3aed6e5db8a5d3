//! Worked examples: what is wrong with a select over three tables, and where.
ghost use Rattle.std.specs.Prelude.{◌≢◌, ◌≤◌, [], ◌∷◌, All, AllPairs, IfOk, length, map};
ghost use Rattle.std.specs.Bool.{OnTrue};
ghost use Rattle.pdq_value.specs.Tables.{IsShape, ShapeView, shape_of};

use crate::{At, Compare, Filter, Item, Key, Query, SqlFault, SqlWhy, read_select, resolve};
use pdq_value::{TableShape, Value, read_plain};
use std::alloc::Global;
use std::test::Fail;

// The shape of a plain table with this header.
fn shape(alloc: Global, header: &[u8]) -> Result<TableShape, Fail>
    ensures shape { IfOk result (λ s. IsShape (shape_of s)) }
{
    match read_plain(alloc, header) {
        Ok(table) => Ok(table.shape),
        Err(_) => Err(Fail::from("no plain table")),
    }
}

// What a select is resolved to.
fn resolved(
    alloc: Global,
    shapes: &[TableShape],
    text: &[u8],
) -> Result<Result<Query, SqlFault>, Fail>
    requires few { length shapes.now ≤ 16 }
    requires shapes { All IsShape (map shape_of shapes.now) }
    requires names { AllPairs (λ (s : ShapeView) (t : ShapeView). s.name ≢ t.name) (map shape_of shapes.now) }
{
    if text.len() > 8192 {
        return Err(Fail::from("a long select"));
    }
    let Ok(ast) = read_select(alloc, text) else {
        return Err(Fail::from("no select"));
    };
    if ast.items.is_empty() || ast.tables.is_empty() {
        return Err(Fail::from("an empty select"));
    }
    Ok(resolve(alloc, shapes, &ast))
}

fn differ(a: &TableShape, b: &TableShape) -> bool
    ensures value { OnTrue result (a.now.name ≢ b.now.name) }
{
    a.name.bytes() != b.name.bytes()
}

// Whether the names of three tables differ.
fn all_differ(a: &TableShape, b: &TableShape, c: &TableShape) -> bool
    ensures value { OnTrue result (AllPairs (λ (s : ShapeView) (t : ShapeView). s.name ≢ t.name) (shape_of a.now ∷ shape_of b.now ∷ shape_of c.now ∷ [])) }
{
    if !differ(a, b) {
        return false;
    }
    if !differ(a, c) {
        return false;
    }
    differ(b, c)
}

// The filters of a query: the column, and how it is compared with a number.
fn filters_said(alloc: Global, query: &Query) -> Result<Vec<(At, Option<(Compare, i64)>)>, Fail> {
    let mut said = Vec::new(alloc);
    for filter in &query.filters {
        match filter {
            Filter::Literal(own, test, Value::Number(n)) => said.push((*own, Some((*test, *n))))?,
            Filter::Columns(own, _) => said.push((*own, None))?,
            _ => return Err(Fail::from("a text")),
        }
    }
    Ok(said)
}

#[test]
fn selects_are_resolved_or_refused(rt: HostRuntime) -> Result<(), Fail> {
    let t = shape(
        rt.alloc(),
        b"table t a:text n:number:2 k:number:0 only:text\n",
    )?;
    let u = shape(rt.alloc(), b"table u a:text n:number:2 m:number:0\n")?;
    let v = shape(rt.alloc(), b"table v b:text p:number:2\n")?;
    if !all_differ(&t, &u, &v) {
        return Err(Fail::from("one name"));
    }
    let shapes = [t, u, v];
    for (text, want) in [
        ("select a from w", (SqlWhy::UnknownTable, 14)),
        ("select w.a from t", (SqlWhy::UnknownTable, 7)),
        ("select u.a from t", (SqlWhy::UnknownTable, 7)),
        ("select a from t, u, t", (SqlWhy::Ambiguous, 20)),
        ("select a from t, u, v, t, t", (SqlWhy::Ambiguous, 23)),
        ("select zz from t", (SqlWhy::UnknownColumn, 7)),
        ("select t.b from t", (SqlWhy::UnknownColumn, 7)),
        ("select only, a from t, u", (SqlWhy::Ambiguous, 13)),
        ("select sum(a) from t", (SqlWhy::KindsDiffer, 7)),
        (
            "select a from t where a = 'x' and n = 'x'",
            (SqlWhy::KindsDiffer, 34),
        ),
        ("select a from t where n < 1.005", (SqlWhy::KindsDiffer, 22)),
        ("select a from t where a = 1", (SqlWhy::KindsDiffer, 22)),
        (
            "select t.a from t, u where k = p and t.n = m",
            (SqlWhy::UnknownColumn, 27),
        ),
        (
            "select t.a from t, u where t.n = m",
            (SqlWhy::KindsDiffer, 27),
        ),
        ("select a from t group by n, b", (SqlWhy::UnknownColumn, 28)),
        ("select a from t order by 2", (SqlWhy::UnknownColumn, 25)),
        ("select a from t order by 1, n", (SqlWhy::UnknownColumn, 28)),
        (
            "select a, count(*) from t, u order by 0",
            (SqlWhy::Ambiguous, 7),
        ),
        (
            "select t.a, count(*) from t, u",
            (SqlWhy::CountOverJoin, 12),
        ),
        (
            "select n, sum(k), a from t group by n",
            (SqlWhy::NotGrouped, 18),
        ),
        (
            "select t.a from t, u, v where t.a = b",
            (SqlWhy::NotJoined, 19),
        ),
        (
            "select a,a,a,a,a,a,a,a,a,a,a,a,a,a,a,a,a from t",
            (SqlWhy::TooMany, 39),
        ),
    ] {
        match resolved(rt.alloc(), &shapes, text.as_bytes())? {
            Ok(_) => return Err(Fail::from("taken")),
            Err(fault) => assert_eq!(rt; (fault.why, fault.place), want, "of {text}"),
        }
    }
    let text =
        b"select t.a, sum(p) from v, t, u where t.a = u.a and u.a = b and t.n >= 1.5 and t.a = only group by t.a order by 2 desc, t.a";
    let Ok(query) = resolved(rt.alloc(), &shapes, text)? else {
        return Err(Fail::from("refused"));
    };
    let at = |table: u32, column: u32| At { table, column };
    let down = |item: u32| Key { item, down: true };
    let up = |item: u32| Key { item, down: false };
    let items = [Item::Plain(at(1, 0)), Item::Sum(at(0, 1))];
    let joins = [(at(1, 0), at(2, 0)), (at(2, 0), at(0, 0))];
    let filters = [(at(1, 1), Some((Compare::Ge, 150))), (at(1, 0), None)];
    assert_eq!(rt; query.tables.as_slice(), [2, 0, 1].as_slice());
    assert_eq!(rt; query.items.as_slice(), items.as_slice());
    assert_eq!(rt; query.joins.as_slice(), joins.as_slice());
    assert_eq!(rt;
        filters_said(rt.alloc(), &query)?.as_slice(),
        filters.as_slice()
    );
    assert_eq!(rt; query.groups.as_slice(), [at(1, 0)].as_slice());
    assert_eq!(rt; query.keys.as_slice(), [down(1), up(0)].as_slice());
    Ok(())
}
