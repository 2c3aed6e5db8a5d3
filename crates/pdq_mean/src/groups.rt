//! Groups: the choices of each key, and what the items of a query say of them.
ghost use Rattle.std.specs.Prelude.{◌≡◌, All, ℕ, ◌<◌, ◌≤◌, [], ◌∷◌, IfOk, List, OnOk, length, map, true};
ghost use Rattle.pdq_value.specs.Tables.{IsDatabase, tables_of};
ghost use Rattle.pdq_query.specs.declared.query.Item.{Item};
ghost use Rattle.pdq_query.specs.Queries.{query_of};
ghost use Rattle.pdq_query.specs.Fits.{IsPlainInGroups};
ghost use Rattle.pdq_query.specs.Folds.{group_rows, is_grouped, item_of_group, keys_of};
ghost use Rattle.pdq_query.specs.Answer.{row_limit};
ghost use Rattle.pdq_mean.specs.Loops.{chosen, lists_of};
ghost use Rattle.pdq_mean.specs.Groups.{AreNumbersOf, choices_of, first_key};
ghost use Rattle.pdq_mean.specs.Grouping.{AreGroupsOf, GroupTakesIn, HasChoices, HasRoom, IsGroupOf, row_of_group};

use crate::key_numbers::{KeyNumbers, number_keys};
use crate::tallies::{Tally, row_of_no_choice, row_of_tallies, start_tallies, take_in_choice};
use pdq_base::Memory;
use pdq_query::Query;
use pdq_value::{Cell, Db};
use std::alloc::Global;

/// Choices of one key: how many there are, and their tallies once there is one.
#[derive(Drop)]
struct Group<'a> {
    tallies: Vec<Tally<'a>>,
    count: usize,
}

impl<'a> Group<'a> {
    /// The group of no choice.
    fn empty(alloc: Global) -> Group<'a>
        ensures empty { (items : List Item) → IsGroupOf items [] result }
    {
        Group {
            tallies: Vec::new(alloc),
            count: 0,
        }
    }

    /// The group of one choice.
    fn start(
        alloc: Global,
        db: &'a Db,
        query: &Query,
        choice: &[usize],
    ) -> Result<Group<'a>, Memory>
        requires tables { IsDatabase (tables_of db.now) }
        ensures first { IfOk result (λ group. IsGroupOf query.now.items.items (chosen (tables_of db.now) (query_of query.now) choice.now ∷ []) group) }
    {
        let tallies = start_tallies(alloc, db, query, choice)?;
        Ok(Group { tallies, count: 1 })
    }

    /// One choice more.
    fn take_in(
        &mut self,
        alloc: Global,
        db: &'a Db,
        query: &Query,
        choice: &[usize],
    ) -> Result<(), Memory>
        requires tables { IsDatabase (tables_of db.now) }
        requires room { HasRoom self.old }
        ensures more { OnOk result (GroupTakesIn query.now.items.items (chosen (tables_of db.now) (query_of query.now) choice.now) self.old self.new) }
    {
        if self.count == 0 {
            *self = Group::start(alloc, db, query, choice)?;
            return Ok(());
        }
        take_in_choice(db, query, choice, &mut self.tallies);
        self.count += 1;
        Ok(())
    }
}

fn empty_groups<'a>(alloc: Global, count: usize) -> Result<Vec<Group<'a>>, Memory>
    ensures number { IfOk result (λ groups. length groups.items ≡ count) }
    ensures empty { IfOk result (λ groups. (items : List Item) → All (IsGroupOf items []) groups.items) }
{
    let Ok(mut groups) = Vec::with_capacity(alloc, count) else {
        return Err(Memory);
    };
    for _ in 0..count {
        if groups.push(Group::empty(alloc)).is_err() {
            return Err(Memory);
        }
    }
    Ok(groups)
}

/// The groups of the choices, by the numbers of their keys.
fn groups_of<'a>(
    alloc: Global,
    db: &'a Db,
    query: &Query,
    choices: &[Vec<usize>],
    keys: &KeyNumbers,
) -> Result<Vec<Group<'a>>, Memory>
    requires tables { IsDatabase (tables_of db.now) }
    requires rows { length choices.now ≤ row_limit }
    requires grouped { is_grouped (query_of query.now) ≡ true }
    requires numbers { AreNumbersOf (query_of query.now) (choices_of (tables_of db.now) (query_of query.now) choices.now) keys.now.numbers.items keys.now.count }
    ensures groups { let cs = choices_of (tables_of db.now) (query_of query.now) choices.now in IfOk result (λ groups. AreGroupsOf (query_of query.now) (keys_of (query_of query.now) cs) cs groups.items) }
{
    let mut groups = empty_groups(alloc, keys.count)?;
    for (choice, number) in choices.iter().zip(&keys.numbers) {
        groups[*number].take_in(alloc, db, query, choice)?;
    }
    Ok(groups)
}

/// One row for each group.
fn rows_of_groups(alloc: Global, groups: &[Group<'_>]) -> Result<Vec<Vec<Cell>>, Memory>
    requires choices { All HasChoices groups.now }
    ensures value { IfOk result (λ rows. lists_of rows.items ≡ map row_of_group groups.now) }
{
    let mut rows = Vec::new(alloc);
    for group in groups {
        let row = row_of_tallies(alloc, &group.tallies, group.count)?;
        if rows.push(row).is_err() {
            return Err(Memory);
        }
    }
    Ok(rows)
}

/// One row for each key.
fn rows_of_keys(
    alloc: Global,
    db: &Db,
    query: &Query,
    choices: &[Vec<usize>],
) -> Result<Vec<Vec<Cell>>, Memory>
    requires tables { IsDatabase (tables_of db.now) }
    requires rows { length choices.now ≤ row_limit }
    requires plain { All (IsPlainInGroups query.now.groups.items) query.now.items.items }
    requires grouped { is_grouped (query_of query.now) ≡ true }
    ensures value { IfOk result (λ rows. lists_of rows.items ≡ group_rows (query_of query.now) (choices_of (tables_of db.now) (query_of query.now) choices.now)) }
{
    let keys = number_keys(alloc, db, query, choices)?;
    let groups = groups_of(alloc, db, query, choices, &keys)?;
    rows_of_groups(alloc, &groups)
}

/// The row of choices of one key, in one pass over them.
fn row_of_run(
    alloc: Global,
    db: &Db,
    query: &Query,
    run: &[Vec<usize>],
) -> Result<Vec<Cell>, Memory>
    requires tables { IsDatabase (tables_of db.now) }
    requires rows { length run.now ≤ row_limit }
    requires plain { All (IsPlainInGroups query.now.groups.items) query.now.items.items }
    ensures value { IfOk result (λ row. row.items ≡ map (item_of_group (query_of query.now) (first_key (query_of query.now) (choices_of (tables_of db.now) (query_of query.now) run.now)) (choices_of (tables_of db.now) (query_of query.now) run.now)) query.now.items.items) }
{
    let Some((first, rest)) = run.split_first() else {
        return row_of_no_choice(alloc, query);
    };
    let mut tallies = start_tallies(alloc, db, query, first)?;
    for choice in rest {
        take_in_choice(db, query, choice, &mut tallies);
    }
    row_of_tallies(alloc, &tallies, run.len())
}

/// The one row of a query with folds and no GROUP BY.
fn row_of_all(
    alloc: Global,
    db: &Db,
    query: &Query,
    choices: &[Vec<usize>],
) -> Result<Vec<Vec<Cell>>, Memory>
    requires tables { IsDatabase (tables_of db.now) }
    requires rows { length choices.now ≤ row_limit }
    requires plain { All (IsPlainInGroups query.now.groups.items) query.now.items.items }
    requires alone { query.now.groups.items ≡ [] }
    ensures value { IfOk result (λ rows. lists_of rows.items ≡ group_rows (query_of query.now) (choices_of (tables_of db.now) (query_of query.now) choices.now)) }
{
    let row = row_of_run(alloc, db, query, choices)?;
    let mut rows = Vec::new(alloc);
    if rows.push(row).is_err() {
        return Err(Memory);
    }
    Ok(rows)
}

/// One row for each key of the choices.
///
/// # Errors
/// `Memory` where it is wanting.
pub fn group_rows(
    alloc: Global,
    db: &Db,
    query: &Query,
    choices: &[Vec<usize>],
) -> Result<Vec<Vec<Cell>>, Memory>
    requires tables { IsDatabase (tables_of db.now) }
    requires rows { length choices.now ≤ row_limit }
    requires plain { All (IsPlainInGroups query.now.groups.items) query.now.items.items }
    ensures value { IfOk result (λ rows. lists_of rows.items ≡ group_rows (query_of query.now) (choices_of (tables_of db.now) (query_of query.now) choices.now)) }
{
    if query.groups.is_empty() {
        row_of_all(alloc, db, query, choices)
    } else {
        rows_of_keys(alloc, db, query, choices)
    }
}
