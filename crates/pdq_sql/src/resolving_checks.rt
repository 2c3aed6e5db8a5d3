//! What is wrong with a query whose names are resolved.
ghost use Rattle.std.specs.Prelude.{◌≡◌, ◌<◌, ◌≤◌, All, IfSome, length, map, position, slice_index, if◌then◌else◌};
ghost use Rattle.std.specs.List.{list_any};
ghost use Rattle.pdq_query.specs.declared.query.At.{At};
ghost use Rattle.pdq_query.specs.Folds.{is_column, is_fold};
ghost use Rattle.pdq_query.specs.Queries.{query_of};
ghost use Rattle.pdq_sql.specs.Asts.{ast_of};
ghost use Rattle.pdq_sql.specs.Resolution.{clusters_of, first_count, first_fault, first_ungrouped, first_untied, gathered, is_count, is_ungrouped};
ghost use Rattle.pdq_sql.specs.Resolving.{ClustersAreTies, IsJoinOfFour};

use crate::ast::Ast;
use crate::faults::{SqlFault, SqlWhy};
use pdq_query::{At, Item, Query, is_fold};

fn is_count(item: &Item) -> bool
    ensures value { result ≡ is_count item.now }
{
    match item {
        Item::Count => true,
        _ => false,
    }
}

/// Whether two columns are the same.
pub(crate) fn is_column(a: At, b: At) -> bool
    ensures value { result ≡ is_column a b }
{
    a.table == b.table && a.column == b.column
}

fn contains(groups: &[At], at: At) -> bool
    ensures value { result ≡ list_any (is_column at) groups.now }
{
    groups.iter().any(|group| is_column(at, *group))
}

// Whether it is a plain item that is not a group column.
fn is_ungrouped(groups: &[At], item: &Item) -> bool
    ensures value { result ≡ is_ungrouped groups.now item.now }
{
    match item {
        Item::Plain(at) => !contains(groups, *at),
        _ => false,
    }
}

fn has_fold(items: &[Item]) -> bool
    ensures value { result ≡ list_any is_fold items.now }
{
    items.iter().any(|item| is_fold(*item))
}

fn count_place(items: &[Item]) -> Option<usize>
    ensures value { result ≡ position is_count items.now }
    ensures bound { IfSome result (λ i. i < length items.now) }
{
    items.iter().position(|item| is_count(item))
}

fn ungrouped_place(groups: &[At], items: &[Item]) -> Option<usize>
    ensures value { result ≡ position (is_ungrouped groups.now) items.now }
    ensures bound { IfSome result (λ i. i < length items.now) }
{
    items.iter().position(|item| is_ungrouped(groups, item))
}

// The first COUNT where there are two or more tables.
#[tactic(auto, unfolding(crate::specs::Resolution::first_count))]
fn first_count(query: &Query) -> Option<usize>
    ensures value { result ≡ first_count (query_of query.now) }
    ensures bound { IfSome result (λ i. i < length query.now.items.items) }
{
    if 1 < query.tables.len() {
        count_place(&query.items)
    } else {
        None
    }
}

// The first plain item that is not a group column, where there is a fold or a GROUP BY.
#[tactic(auto, unfolding(crate::specs::Resolution::first_ungrouped))]
fn first_ungrouped(query: &Query) -> Option<usize>
    ensures value { result ≡ first_ungrouped (query_of query.now) }
    ensures bound { IfSome result (λ i. i < length query.now.items.items) }
{
    if 0 < query.groups.len() || has_fold(&query.items) {
        ungrouped_place(&query.groups, &query.items)
    } else {
        None
    }
}

// The number of a table's cluster after one cluster is given the number of another.
fn gathered(lost: u32, kept: u32, cluster: u32) -> u32
    ensures value { result ≡ gathered lost kept cluster }
{
    if cluster == lost { kept } else { cluster }
}

fn gather(clusters: &mut [u32], lost: u32, kept: u32)
    ensures value { clusters.new ≡ map (gathered lost kept) clusters.old }
{
    for cluster in clusters.iter_mut() {
        *cluster = gathered(lost, kept, *cluster);
    }
}

// The number of each table's cluster, where joins unite those of their tables.
fn clusters_of(joins: &[(At, At)]) -> [u32; 4]
    requires four { All IsJoinOfFour joins.now }
    ensures value { result ≡ clusters_of joins.now }
{
    let mut clusters = [0, 1, 2, 3];
    for (left, right) in joins {
        let kept = clusters[left.table as usize];
        let lost = clusters[right.table as usize];
        gather(&mut clusters, lost, kept);
    }
    clusters
}

// The first table that joins tie to the first neither directly nor through others.
#[tactic(auto, unfolding(crate::specs::Resolution::first_untied))]
fn first_untied(query: &Query) -> Option<usize>
    requires tables { length query.now.tables.items ≤ 4 }
    requires four { All IsJoinOfFour query.now.joins.items }
    ensures value { result ≡ first_untied (query_of query.now) }
    ensures bound { IfSome result (λ i. i < length query.now.tables.items) }
{
    let clusters = clusters_of(&query.joins);
    let first = clusters[0];
    clusters[..query.tables.len()]
        .iter()
        .position(|cluster| *cluster != first)
}

/// The first fault of a query that these parts of a select were resolved to.
///
/// In this order: a COUNT over two or more tables, an item that is not grouped, a table that is not joined.
pub(crate) fn first_fault(query: &Query, ast: &Ast) -> Option<SqlFault>
    requires items { length query.now.items.items ≡ length ast.now.items.items }
    requires tables { length query.now.tables.items ≡ length ast.now.tables.items }
    requires few { length query.now.tables.items ≤ 4 }
    requires four { All IsJoinOfFour query.now.joins.items }
    ensures value { result ≡ first_fault (ast_of ast.now) (query_of query.now) }
{
    if let Some(i) = first_count(query) {
        return Some(SqlFault {
            why: SqlWhy::CountOverJoin,
            place: ast.items[i].place,
        });
    }
    if let Some(i) = first_ungrouped(query) {
        return Some(SqlFault {
            why: SqlWhy::NotGrouped,
            place: ast.items[i].place,
        });
    }
    if let Some(i) = first_untied(query) {
        return Some(SqlFault {
            why: SqlWhy::NotJoined,
            place: ast.tables[i].place,
        });
    }
    None
}

/// The clusters by which tables are refused as not joined are the ties of a query that fits: directly, or through others.
pub fn clusters_are_ties()
    ensures law { ClustersAreTies }
{}
