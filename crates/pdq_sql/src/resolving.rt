//! The resolving of names: from a select to a query over the tables of some shapes.
ghost use Rattle.std.specs.Prelude.{◌≡◌, ◌≢◌, ◌+◌, ◌<◌, ◌≤◌, ◌==◌, Bool, List, Ok, Err, None, Some, All, AllPairs, IfErr, IfOk, IfSome, OnSome, is_some, length, map, position, slice_get, take, slice_index, ◌⊎◌};
ghost use Rattle.std.specs.List.{filter_map, list_any};
ghost use Rattle.std.specs.Option.{ok_or, option_copied};
ghost use Rattle.std.specs.Str.{bytes_eq};
ghost use Rattle.pdq_value.specs.declared.shapes.Column.{Column};
ghost use Rattle.pdq_value.specs.declared.shapes.TableShape.{TableShape};
ghost use Rattle.pdq_value.specs.Numbers.{number_read};
ghost use Rattle.pdq_value.specs.Tables.{IsKind, IsShape, ShapeView, shape_of};
ghost use Rattle.pdq_query.specs.declared.query.At.{At};
ghost use Rattle.pdq_query.specs.Fits.{Fits};
ghost use Rattle.pdq_query.specs.Folds.{is_column, is_fold};
ghost use Rattle.pdq_query.specs.Queries.{query_of};
ghost use Rattle.pdq_sql.specs.Asts.{ast_of};
ghost use Rattle.pdq_sql.specs.Resolution.{any_column, clusters_of, column_in, column_named, column_of, columns_named, condition_of, conditions_of, dotted, equal_columns, fault, filter_of, first_count, first_fault, first_ungrouped, first_untied, form_of, groups_of, is_count, is_number, is_plain_of, is_ungrouped, item_of, items_of, join_of, key_of, keys_of, literal_of, named, number_column, number_value, order_of, resolution_of, same_kind, table_number, table_of, tables_of, test_of, the_only};
ghost use Rattle.pdq_sql.specs.Resolving.{Gives, IsUtf8Condition, IsUtf8Filter, IsUtf8Value, no_memory};
ghost use Rattle.pdq_sql.specs.declared.resolving.Unresolved.TheVariants.{Fault, Memory};

use crate::ast::{
    Ast, AstColumn, AstCond, AstForm, AstGroup, AstItem, AstKey, AstLiteral, AstOrder, AstTable,
    AstTest,
};
use crate::faults::{SqlFault, SqlWhy};
use crate::resolving_checks::{first_fault, is_column};
use pdq_query::{At, Filter, Item, Key, Query};
use pdq_value::{Column, Kind, Name, TableShape, Value, read_number};
use std::alloc::{AllocError, AllocFailed, Global};

// The most tables of a query, and the most items, conditions, group columns and order keys.
const MOST_TABLES: usize = 4;

const MOST_PARTS: usize = 16;

// A number's text of so many bytes or more is not read.
const MOST_DIGITS: usize = 4_294_967_295;

/// A condition: on one table, or a join of two.
#[derive(Debug, Drop)]
pub(crate) enum Condition {
    Within(Filter),
    Between(At, At),
}

/// Why there is no query.
#[derive(Clone, Copy, Debug)]
pub(crate) enum Unresolved {
    Memory,
    Fault(SqlFault),
}

impl From<SqlFault> for Unresolved {
    ghost from_gives = { λ f e. e ≡ Fault f };

    fn from(fault: SqlFault) -> Unresolved {
        Unresolved::Fault(fault)
    }
}

impl From<pdq_base::Memory> for Unresolved {
    ghost from_gives = { λ _ e. e ≡ Memory };

    fn from(_memory: pdq_base::Memory) -> Unresolved {
        Unresolved::Memory
    }
}

impl<T: Drop> From<AllocFailed<T>> for Unresolved {
    ghost from_gives = { λ _ e. e ≡ Memory };

    fn from(_failed: AllocFailed<T>) -> Unresolved {
        Unresolved::Memory
    }
}

// A fault at a place.
fn fault(why: SqlWhy, place: u32) -> SqlFault
    ensures value { result ≡ fault why place }
{
    SqlFault { why, place }
}

// Whether two names are the same.
fn is_same(a: &Name, b: &Name) -> bool
    ensures value { result ≡ bytes_eq a.now b.now }
{
    a.bytes() == b.bytes()
}

// The place of the first shape of this name.
fn shape_named(shapes: &[TableShape], name: &Name) -> Option<usize>
    ensures value { result ≡ position (λ (s : TableShape). bytes_eq s.name name.now) shapes.now }
    ensures bound { IfSome result (λ i. i < length shapes.now) }
{
    shapes.iter().position(|shape| is_same(&shape.name, name))
}

// The number of the first table of this name.
#[tactic(auto, using(crate::proofs::ResolutionLists::places))]
fn table_number(shapes: &[TableShape], name: &Name) -> Option<u32>
    requires few { length shapes.now ≤ 16 }
    ensures value { result ≡ table_number (map shape_of shapes.now) name.now }
{
    let number = shape_named(shapes, name)?;
    Some(number as u32)
}

// The place in FROM of the table of this number.
fn place_in(tables: &[u32], number: u32) -> Option<usize>
    ensures value { result ≡ position (λ n. n == number) tables.now }
    ensures bound { IfSome result (λ i. i < length tables.now) }
{
    tables.iter().position(|n| *n == number)
}

// The number of a table of FROM, beside those before it.
#[tactic(auto, unfolding(crate::specs::Resolution::table_of))]
fn table(shapes: &[TableShape], before: &[u32], table: &AstTable) -> Result<u32, SqlFault>
    requires few { length shapes.now ≤ 16 }
    ensures value { result ≡ table_of (map shape_of shapes.now) before.now table.now }
{
    let Some(number) = table_number(shapes, &table.name) else {
        return Err(fault(SqlWhy::UnknownTable, table.place));
    };
    if before.contains(&number) {
        return Err(fault(SqlWhy::Ambiguous, table.place));
    }
    Ok(number)
}

fn tables(alloc: Global, shapes: &[TableShape], from: &[AstTable]) -> Result<Vec<u32>, Unresolved>
    requires few { length shapes.now ≤ 16 }
    ensures value { Gives (λ v. v.items) result (tables_of (map shape_of shapes.now) from.now) }
{
    let mut tables = Vec::new(alloc);
    for part in from {
        if tables.len() == MOST_TABLES {
            return Err(Unresolved::Fault(fault(SqlWhy::TooMany, part.place)));
        }
        let number = table(shapes, &tables, part)?;
        tables.push(number)?;
    }
    Ok(tables)
}

// The place of the first column of this name, and what the column holds.
fn column_named(columns: &[Column], name: &Name) -> Option<(u32, Kind)>
    requires few { length columns.now ≤ 16 }
    ensures value { result ≡ column_named name.now 0 columns.now }
{
    for (place, column) in columns.iter().enumerate() {
        if is_same(&column.name, name) {
            return Some((place as u32, column.kind));
        }
    }
    None
}

// The shape of the table of this number.
fn shape_at(shapes: &[TableShape], number: u32) -> Option<&TableShape>
    ensures value { option_copied result ≡ slice_get shapes.now number }
{
    shapes.get(number as usize)
}

// The same in the table of this number.
fn column_in(shapes: &[TableShape], number: u32, name: &Name) -> Option<(u32, Kind)>
    requires shapes { All IsShape (map shape_of shapes.now) }
    ensures value { result ≡ column_in (map shape_of shapes.now) number name.now }
{
    match shape_at(shapes, number) {
        Some(shape) => column_named(&shape.columns, name),
        None => None,
    }
}

// The column `table.name` of the tables of FROM, and what it holds.
#[tactic(auto, unfolding(crate::specs::Resolution::dotted))]
fn dotted(
    shapes: &[TableShape],
    tables: &[u32],
    place: u32,
    table: &Name,
    name: &Name,
) -> Result<(At, Kind), SqlFault>
    requires few { length shapes.now ≤ 16 }
    requires from { length tables.now ≤ 4 }
    requires shapes { All IsShape (map shape_of shapes.now) }
    ensures value { result ≡ dotted (map shape_of shapes.now) tables.now place table.now name.now }
{
    let Some(number) = table_number(shapes, table) else {
        return Err(fault(SqlWhy::UnknownTable, place));
    };
    let Some(from) = place_in(tables, number) else {
        return Err(fault(SqlWhy::UnknownTable, place));
    };
    let Some((column, kind)) = column_in(shapes, number, name) else {
        return Err(fault(SqlWhy::UnknownColumn, place));
    };
    let at = At {
        table: from as u32,
        column,
    };
    Ok((at, kind))
}

// The only column of this name in the tables of FROM, and what it holds.
fn bare(
    shapes: &[TableShape],
    tables: &[u32],
    place: u32,
    name: &Name,
) -> Result<(At, Kind), SqlFault>
    requires from { length tables.now ≤ 4 }
    requires shapes { All IsShape (map shape_of shapes.now) }
    ensures value { result ≡ the_only place (columns_named (map shape_of shapes.now) name.now 0 tables.now) }
{
    let mut found = None;
    for (from, number) in tables.iter().enumerate() {
        let Some((column, kind)) = column_in(shapes, *number, name) else {
            continue;
        };
        if found.is_some() {
            return Err(fault(SqlWhy::Ambiguous, place));
        }
        let at = At {
            table: from as u32,
            column,
        };
        found = Some((at, kind));
    }
    found.ok_or(fault(SqlWhy::UnknownColumn, place))
}

// The column that is meant, and what it holds.
#[tactic(auto, unfolding(crate::specs::Resolution::column_of))]
fn column(
    shapes: &[TableShape],
    tables: &[u32],
    place: u32,
    column: &AstColumn,
) -> Result<(At, Kind), SqlFault>
    requires few { length shapes.now ≤ 16 }
    requires from { length tables.now ≤ 4 }
    requires shapes { All IsShape (map shape_of shapes.now) }
    ensures value { result ≡ column_of (map shape_of shapes.now) tables.now place column.now }
{
    match &column.table {
        Some(table) => dotted(shapes, tables, place, table, &column.column),
        None => bare(shapes, tables, place, &column.column),
    }
}

#[tactic(auto, unfolding(crate::specs::Resolution::any_column))]
fn any_column(
    shapes: &[TableShape],
    tables: &[u32],
    place: u32,
    name: &AstColumn,
) -> Result<At, SqlFault>
    requires few { length shapes.now ≤ 16 }
    requires from { length tables.now ≤ 4 }
    requires shapes { All IsShape (map shape_of shapes.now) }
    ensures value { result ≡ any_column (map shape_of shapes.now) tables.now place name.now }
{
    let (at, _) = column(shapes, tables, place, name)?;
    Ok(at)
}

// A column of numbers.
#[tactic(auto, unfolding(crate::specs::Resolution::number_column))]
fn number_column(
    shapes: &[TableShape],
    tables: &[u32],
    place: u32,
    name: &AstColumn,
) -> Result<At, SqlFault>
    requires few { length shapes.now ≤ 16 }
    requires from { length tables.now ≤ 4 }
    requires shapes { All IsShape (map shape_of shapes.now) }
    ensures value { result ≡ number_column (map shape_of shapes.now) tables.now place name.now }
{
    let (at, kind) = column(shapes, tables, place, name)?;
    match kind {
        Kind::Number { .. } => Ok(at),
        Kind::Words => Err(fault(SqlWhy::KindsDiffer, place)),
    }
}

#[tactic(auto, unfolding(crate::specs::Resolution::item_of))]
fn item(shapes: &[TableShape], tables: &[u32], item: &AstItem) -> Result<Item, SqlFault>
    requires few { length shapes.now ≤ 16 }
    requires from { length tables.now ≤ 4 }
    requires shapes { All IsShape (map shape_of shapes.now) }
    ensures value { result ≡ item_of (map shape_of shapes.now) tables.now item.now }
{
    let place = item.place;
    match &item.form {
        AstForm::Plain(name) => Ok(Item::Plain(any_column(shapes, tables, place, name)?)),
        AstForm::Sum(name) => Ok(Item::Sum(number_column(shapes, tables, place, name)?)),
        AstForm::Avg(name) => Ok(Item::Avg(number_column(shapes, tables, place, name)?)),
        AstForm::Min(name) => Ok(Item::Min(any_column(shapes, tables, place, name)?)),
        AstForm::Max(name) => Ok(Item::Max(any_column(shapes, tables, place, name)?)),
        AstForm::Count => Ok(Item::Count),
    }
}

fn items(
    alloc: Global,
    shapes: &[TableShape],
    tables: &[u32],
    list: &[AstItem],
) -> Result<Vec<Item>, Unresolved>
    requires few { length shapes.now ≤ 16 }
    requires from { length tables.now ≤ 4 }
    requires shapes { All IsShape (map shape_of shapes.now) }
    ensures value { Gives (λ v. v.items) result (items_of (map shape_of shapes.now) tables.now list.now) }
{
    let mut items = Vec::new(alloc);
    for part in list {
        if items.len() == MOST_PARTS {
            return Err(Unresolved::Fault(fault(SqlWhy::TooMany, part.place)));
        }
        let item = item(shapes, tables, part)?;
        items.push(item)?;
    }
    Ok(items)
}

// The number of a text of digits, at a scale. A text of 2^32 bytes or so is not read.
fn number(place: u32, scale: u32, text: &[u8]) -> Result<Value, Unresolved>
    requires scale { scale ≤ 6 }
    ensures value { Gives (λ v. v) result (number_value place (number_read text.now scale)) }
    ensures utf8 { IfOk result IsUtf8Value }
{
    if text.len() >= MOST_DIGITS {
        return Err(Unresolved::Memory);
    }
    match read_number(text, scale) {
        Ok(number) => Ok(Value::Number(number)),
        Err(_) => Err(Unresolved::Fault(fault(SqlWhy::KindsDiffer, place))),
    }
}

// A literal beside a column of this kind.
#[tactic(auto, unfolding(crate::specs::Resolution::literal_of))]
fn literal(alloc: Global, place: u32, kind: Kind, literal: &AstLiteral) -> Result<Value, Unresolved>
    requires kind { IsKind kind }
    ensures value { Gives (λ v. v) result (literal_of place kind literal.now) }
    ensures utf8 { IfOk result IsUtf8Value }
{
    let differs = Unresolved::Fault(fault(SqlWhy::KindsDiffer, place));
    match literal {
        AstLiteral::Number(text) => match kind {
            Kind::Number { scale } => number(place, scale, text.bytes()),
            Kind::Words => Err(differs),
        },
        AstLiteral::Words(text) => match kind {
            Kind::Number { scale: _ } => Err(differs),
            Kind::Words => Ok(Value::Words(text.copy(alloc)?)),
        },
    }
}

// Whether two columns hold texts, or numbers of one scale.
fn same_kind(a: Kind, b: Kind) -> bool
    ensures value { result ≡ same_kind a b }
{
    match (a, b) {
        (Kind::Number { scale: s }, Kind::Number { scale: t }) => s == t,
        (Kind::Words, Kind::Words) => true,
        _ => false,
    }
}

// The condition that two columns are equal.
fn equal_columns(a: At, b: At) -> Condition
    ensures value { result ≡ equal_columns a b }
{
    if a.table == b.table {
        Condition::Within(Filter::Columns(a, b))
    } else {
        Condition::Between(a, b)
    }
}

#[tactic(auto, unfolding(crate::specs::Resolution::condition_of))]
fn one_condition(
    alloc: Global,
    shapes: &[TableShape],
    tables: &[u32],
    part: &AstCond,
) -> Result<Condition, Unresolved>
    requires few { length shapes.now ≤ 16 }
    requires from { length tables.now ≤ 4 }
    requires shapes { All IsShape (map shape_of shapes.now) }
    ensures value { Gives (λ c. c) result (condition_of (map shape_of shapes.now) tables.now part.now) }
    ensures utf8 { IfOk result IsUtf8Condition }
{
    let place = part.place;
    match &part.test {
        AstTest::Literal(name, compare, said) => {
            let (at, kind) = column(shapes, tables, place, name)?;
            let value = literal(alloc, place, kind, said)?;
            Ok(Condition::Within(Filter::Literal(at, *compare, value)))
        }
        AstTest::Columns(left, right) => {
            let (a, kind) = column(shapes, tables, place, left)?;
            let (b, other) = column(shapes, tables, place, right)?;
            if !same_kind(kind, other) {
                return Err(Unresolved::Fault(fault(SqlWhy::KindsDiffer, place)));
            }
            Ok(equal_columns(a, b))
        }
    }
}

fn conditions(
    alloc: Global,
    shapes: &[TableShape],
    tables: &[u32],
    list: &[AstCond],
) -> Result<Vec<Condition>, Unresolved>
    requires few { length shapes.now ≤ 16 }
    requires from { length tables.now ≤ 4 }
    requires shapes { All IsShape (map shape_of shapes.now) }
    ensures value { Gives (λ v. v.items) result (conditions_of (map shape_of shapes.now) tables.now list.now) }
    ensures utf8 { IfOk result (λ v. All IsUtf8Condition v.items) }
{
    let mut conditions = Vec::new(alloc);
    for part in list {
        if conditions.len() == MOST_PARTS {
            return Err(Unresolved::Fault(fault(SqlWhy::TooMany, part.place)));
        }
        let condition = one_condition(alloc, shapes, tables, part)?;
        conditions.push(condition)?;
    }
    Ok(conditions)
}

// The conditions on one table, and the joins.
fn parted(
    alloc: Global,
    conditions: Vec<Condition>,
) -> Result<(Vec<Filter>, Vec<(At, At)>), Unresolved>
    ensures filters { IfOk result (λ r. r.0.items ≡ filter_map filter_of conditions.items) }
    ensures joins { IfOk result (λ r. r.1.items ≡ filter_map join_of conditions.items) }
    ensures memory { IfErr result (λ e. e ≡ Memory) }
{
    let mut filters = Vec::new(alloc);
    let mut joins = Vec::new(alloc);
    for condition in conditions {
        match condition {
            Condition::Within(filter) => filters.push(filter)?,
            Condition::Between(a, b) => joins.push((a, b))?,
        }
    }
    Ok((filters, joins))
}

fn groups(
    alloc: Global,
    shapes: &[TableShape],
    tables: &[u32],
    list: &[AstGroup],
) -> Result<Vec<At>, Unresolved>
    requires few { length shapes.now ≤ 16 }
    requires from { length tables.now ≤ 4 }
    requires shapes { All IsShape (map shape_of shapes.now) }
    ensures value { Gives (λ v. v.items) result (groups_of (map shape_of shapes.now) tables.now list.now) }
{
    let mut groups = Vec::new(alloc);
    for part in list {
        if groups.len() == MOST_PARTS {
            return Err(Unresolved::Fault(fault(SqlWhy::TooMany, part.place)));
        }
        let at = any_column(shapes, tables, part.place, &part.column)?;
        groups.push(at)?;
    }
    Ok(groups)
}

// Whether it is the plain item of this column.
fn is_plain_of(at: At, item: &Item) -> bool
    ensures value { result ≡ is_plain_of at item.now }
{
    match item {
        Item::Plain(own) => is_column(at, *own),
        _ => false,
    }
}

// The place of the first plain item of a column.
fn plain_item(items: &[Item], at: At) -> Option<usize>
    ensures value { result ≡ position (is_plain_of at) items.now }
    ensures bound { IfSome result (λ i. i < length items.now) }
{
    items.iter().position(|item| is_plain_of(at, item))
}

#[tactic(auto, unfolding(crate::specs::Resolution::key_of))]
fn key(
    shapes: &[TableShape],
    tables: &[u32],
    items: &[Item],
    part: &AstKey,
) -> Result<Key, SqlFault>
    requires few { length shapes.now ≤ 16 }
    requires from { length tables.now ≤ 4 }
    requires shapes { All IsShape (map shape_of shapes.now) }
    requires items { length items.now ≤ 16 }
    ensures value { result ≡ key_of (map shape_of shapes.now) tables.now items.now part.now }
{
    let place = part.place;
    let item = match &part.order {
        AstOrder::Number(number) => {
            if *number == 0 || *number as usize > items.len() {
                return Err(fault(SqlWhy::UnknownColumn, place));
            }
            *number - 1
        }
        AstOrder::Column(name) => {
            let (at, _) = column(shapes, tables, place, name)?;
            let Some(item) = plain_item(items, at) else {
                return Err(fault(SqlWhy::UnknownColumn, place));
            };
            item as u32
        }
    };
    Ok(Key {
        item,
        down: part.down,
    })
}

fn keys(
    alloc: Global,
    shapes: &[TableShape],
    tables: &[u32],
    items: &[Item],
    list: &[AstKey],
) -> Result<Vec<Key>, Unresolved>
    requires few { length shapes.now ≤ 16 }
    requires from { length tables.now ≤ 4 }
    requires shapes { All IsShape (map shape_of shapes.now) }
    requires items { length items.now ≤ 16 }
    ensures value { Gives (λ v. v.items) result (keys_of (map shape_of shapes.now) tables.now items.now list.now) }
{
    let mut keys = Vec::new(alloc);
    for part in list {
        if keys.len() == MOST_PARTS {
            return Err(Unresolved::Fault(fault(SqlWhy::TooMany, part.place)));
        }
        let key = key(shapes, tables, items, part)?;
        keys.push(key)?;
    }
    Ok(keys)
}

// The query of a select whose names are resolved: tables, items, conditions, group columns and order keys, in this order.
#[tactic(auto, unfolding(crate::specs::Resolution::named))]
fn named(alloc: Global, shapes: &[TableShape], ast: &Ast) -> Result<Query, Unresolved>
    requires few { length shapes.now ≤ 16 }
    requires shapes { All IsShape (map shape_of shapes.now) }
    ensures value { Gives query_of result (named (map shape_of shapes.now) (ast_of ast.now)) }
    ensures utf8 { IfOk result (λ q. All IsUtf8Filter q.filters.items) }
{
    let tables = tables(alloc, shapes, &ast.tables)?;
    let items = items(alloc, shapes, &tables, &ast.items)?;
    let conditions = conditions(alloc, shapes, &tables, &ast.conds)?;
    let groups = groups(alloc, shapes, &tables, &ast.groups)?;
    let keys = keys(alloc, shapes, &tables, &items, &ast.keys)?;
    let (filters, joins) = parted(alloc, conditions)?;
    Ok(Query {
        tables,
        filters,
        joins,
        items,
        groups,
        keys,
    })
}

/// The query over the tables of these shapes that a select asks for.
///
/// There are at most 16 shapes, whose names differ, and at least one item and one table in the select. A text literal fits
/// a column of texts, a number literal a column of numbers where `read_number` takes it at the column's scale.
///
/// # Errors
/// The first fault in this order, with the place of its part; each list goes from left to right.
/// 1. Tables: `TooMany` at the fifth, `UnknownTable`, `Ambiguous` where a name stands a second time.
/// 2. Items: `TooMany` at the seventeenth; what is wrong with the column; `KindsDiffer` where SUM or AVG is over text.
/// 3. Conditions: `TooMany` at the seventeenth; what is wrong with a column; `KindsDiffer`.
/// 4. Group columns: `TooMany` at the seventeenth; what is wrong with the column.
/// 5. Order keys: `TooMany` at the seventeenth; `UnknownColumn` where a number is not 1 to the number of items; what is wrong
///    with the column, and `UnknownColumn` where it is no plain item. The first such item is meant.
/// 6. `CountOverJoin` at the first COUNT where there are two or more tables.
/// 7. `NotGrouped` at the first plain item that is not a group column, where there is a fold or a GROUP BY.
/// 8. `NotJoined` at the first table that joins tie to the first neither directly nor through others.
///
/// A column `t.c` is `UnknownTable` where `t` is not in FROM, and `UnknownColumn` where `t` has no column `c`; a bare `c` is
/// `UnknownColumn` where no table of FROM has it, and `Ambiguous` where two or more have it.
///
/// `Memory`, with place 0, where memory is wanting; so is answered a number literal of 4,294,967,295 bytes or more.
#[tactic(auto, unfolding(crate::specs::Resolution::resolution_of))]
pub fn resolve(alloc: Global, shapes: &[TableShape], ast: &Ast) -> Result<Query, SqlFault>
    requires few { length shapes.now ≤ 16 }
    requires shapes { All IsShape (map shape_of shapes.now) }
    requires names { AllPairs (λ (s : ShapeView) (t : ShapeView). s.name ≢ t.name) (map shape_of shapes.now) }
    requires some { 1 ≤ length ast.now.items.items }
    requires tables { 1 ≤ length ast.now.tables.items }
    ensures found { IfOk result (λ q. resolution_of (map shape_of shapes.now) (ast_of ast.now) ≡ Ok (query_of q)) }
    ensures wrong { IfErr result (λ e. (e ≡ no_memory) ⊎ (resolution_of (map shape_of shapes.now) (ast_of ast.now) ≡ Err e)) }
    ensures fits { IfOk result (λ q. Fits (map shape_of shapes.now) (query_of q)) }
{
    match named(alloc, shapes, ast) {
        Ok(query) => match first_fault(&query, ast) {
            Some(fault) => Err(fault),
            None => Ok(query),
        },
        Err(Unresolved::Fault(fault)) => Err(fault),
        Err(Unresolved::Memory) => Err(SqlFault {
            why: SqlWhy::Memory,
            place: 0,
        }),
    }
}
