//! Tallies: what the items of a query say of the choices that were taken in.
ghost use Rattle.std.specs.Prelude.{◌≡◌, All, if◌then◌else◌, ℕ, ◌+◌, ◌*◌, ◌^◌, ◌≤◌, [], ◌∷◌, IfOk, map, max, nat_abs, ◌+ℤ◌};
ghost use Rattle.std.specs.Ordering.{is_lt};
ghost use Rattle.pdq_value.specs.Cells.{cell_cmp, number_of, scale_of};
ghost use Rattle.pdq_value.specs.Tables.{IsDatabase, tables_of};
ghost use Rattle.pdq_query.specs.Queries.{QueryView, query_of};
ghost use Rattle.pdq_query.specs.Conditions.{cell_in, is_something};
ghost use Rattle.pdq_query.specs.Folds.{item_of_group};
ghost use Rattle.pdq_query.specs.Answer.{row_limit};
ghost use Rattle.pdq_mean.specs.CellRefs.{cell_of_ref};
ghost use Rattle.pdq_mean.specs.Loops.{chosen};
ghost use Rattle.pdq_mean.specs.Tallies.{AreTalliesOf, IsTallyOf, IsTotalWithin, IsWithin, AllTakeIn, TakesIn, average_of_total, cell_of_tally, item_of_tally, lesser_cell, sum_cell};

use crate::cell_ref::{CellRef, compare_refs, owned};
use crate::conditions::{cell_in, is_something};
use pdq_base::Memory;
use pdq_query::{At, Item, Query};
use pdq_value::{Cell, Db, average};
use std::alloc::Global;

/// The sum of the values of a column that are there, the greatest of their scales, and how many they are.
#[derive(Clone, Copy)]
pub struct Total {
    unscaled: i128,
    scale: u32,
    rows: u32,
}

impl Total {
    /// The sum; nothing over no value.
    fn sum(self) -> Cell
        ensures value { result ≡ sum_cell self }
    {
        if self.rows == 0 {
            return Cell::Nothing;
        }
        Cell::Number {
            unscaled: self.unscaled,
            scale: self.scale,
        }
    }

    /// The average; nothing over no value.
    fn average(self) -> Cell
        requires within { IsTotalWithin row_limit self }
        ensures value { result ≡ average_of_total self }
    {
        if self.rows == 0 {
            return Cell::Nothing;
        }
        Cell::Number {
            unscaled: average(self.unscaled, u64::from(self.rows)),
            scale: self.scale + 2,
        }
    }
}

/// What an item says of the choices that were taken in.
#[derive(Clone, Copy)]
pub enum Tally<'a> {
    /// The cell of the first choice, for a plain item.
    First(At, CellRef<'a>),
    Sum(At, Total),
    Average(At, Total),
    Least(At, CellRef<'a>),
    Greatest(At, CellRef<'a>),
    /// It needs no more than the number of the choices.
    Count,
}

/// The number in a column, as the total of one value; where the value is missing, the total of none.
fn number_in(db: &Db, query: &Query, choice: &[usize], at: At) -> Total
    requires { IsDatabase (tables_of db.now) }
    ensures number { result.unscaled ≡ number_of (cell_in (chosen (tables_of db.now) (query_of query.now) choice.now) at) }
    ensures scale { result.scale ≡ scale_of (cell_in (chosen (tables_of db.now) (query_of query.now) choice.now) at) }
    ensures rows { result.rows ≡ (if is_something (cell_in (chosen (tables_of db.now) (query_of query.now) choice.now) at) then 1 else 0) }
    ensures within { IsTotalWithin 1 result }
{
    match cell_in(db, query, choice, at) {
        CellRef::Number { unscaled, scale } => Total {
            unscaled,
            scale,
            rows: 1,
        },
        CellRef::Nothing => Total {
            unscaled: 0,
            scale: 0,
            rows: 0,
        },
        CellRef::Words(_) => Total {
            unscaled: 0,
            scale: 0,
            rows: 1,
        },
    }
}

fn sum(a: Total, b: Total) -> Total
    requires a { IsTotalWithin row_limit a }
    requires b { IsTotalWithin 1 b }
    ensures unscaled { result.unscaled ≡ a.unscaled +ℤ b.unscaled }
    ensures scale { result.scale ≡ max a.scale b.scale }
    ensures rows { result.rows ≡ a.rows + b.rows }
{
    Total {
        unscaled: a.unscaled + b.unscaled,
        scale: a.scale.max(b.scale),
        rows: a.rows + b.rows,
    }
}

/// The lesser of two cells that are there; where one is missing, the other.
fn lesser<'a>(a: CellRef<'a>, b: CellRef<'a>) -> CellRef<'a>
    ensures value { cell_of_ref result ≡ lesser_cell (cell_of_ref a.entry) (cell_of_ref b.entry) }
{
    if !is_something(b) || (is_something(a) && compare_refs(a, b).is_lt()) {
        a
    } else {
        b
    }
}

/// The last of two cells in order, which is the one that is there where the other is missing.
fn greater<'a>(a: CellRef<'a>, b: CellRef<'a>) -> CellRef<'a>
    ensures value { cell_of_ref result ≡ (if is_lt (cell_cmp (cell_of_ref a.entry) (cell_of_ref b.entry)) then cell_of_ref b.entry else cell_of_ref a.entry) }
{
    if compare_refs(a, b).is_lt() { b } else { a }
}

impl<'a> Tally<'a> {
    /// The tally of one choice.
    fn start(db: &'a Db, query: &Query, choice: &[usize], item: Item) -> Tally<'a>
        requires { IsDatabase (tables_of db.now) }
        ensures item { item_of_tally result ≡ item }
        ensures first { IsTallyOf (chosen (tables_of db.now) (query_of query.now) choice.now ∷ []) result }
    {
        match item {
            Item::Plain(at) => Tally::First(at, cell_in(db, query, choice, at)),
            Item::Sum(at) => Tally::Sum(at, number_in(db, query, choice, at)),
            Item::Avg(at) => Tally::Average(at, number_in(db, query, choice, at)),
            Item::Min(at) => Tally::Least(at, cell_in(db, query, choice, at)),
            Item::Max(at) => Tally::Greatest(at, cell_in(db, query, choice, at)),
            Item::Count => Tally::Count,
        }
    }

    /// The tally of these choices and one more.
    fn take_in(self, db: &'a Db, query: &Query, choice: &[usize]) -> Tally<'a>
        requires tables { IsDatabase (tables_of db.now) }
        requires room { IsWithin row_limit self }
        ensures { TakesIn (chosen (tables_of db.now) (query_of query.now) choice.now) self.entry result }
    {
        match self {
            Tally::First(at, first) => Tally::First(at, first),
            Tally::Sum(at, total) => Tally::Sum(at, sum(total, number_in(db, query, choice, at))),
            Tally::Average(at, total) => {
                Tally::Average(at, sum(total, number_in(db, query, choice, at)))
            }
            Tally::Least(at, least) => {
                Tally::Least(at, lesser(cell_in(db, query, choice, at), least))
            }
            Tally::Greatest(at, greatest) => {
                Tally::Greatest(at, greater(cell_in(db, query, choice, at), greatest))
            }
            Tally::Count => Tally::Count,
        }
    }

    /// What it says of so many rows.
    fn cell(self, alloc: Global, rows: usize) -> Result<Cell, Memory>
        requires some_row { 1 ≤ rows }
        requires limit { rows ≤ row_limit }
        requires within { IsWithin rows self }
        ensures value { IfOk result (λ cell. cell ≡ cell_of_tally rows self.entry) }
    {
        match self {
            Tally::First(_, cell) | Tally::Least(_, cell) | Tally::Greatest(_, cell) => {
                owned(alloc, cell)
            }
            Tally::Sum(_, total) => Ok(total.sum()),
            Tally::Average(_, total) => Ok(total.average()),
            Tally::Count => Ok(Cell::Number {
                unscaled: rows as i128,
                scale: 0,
            }),
        }
    }
}

/// A tally of one choice for each item.
pub fn start_tallies<'a>(
    alloc: Global,
    db: &'a Db,
    query: &Query,
    choice: &[usize],
) -> Result<Vec<Tally<'a>>, Memory>
    requires { IsDatabase (tables_of db.now) }
    ensures value { IfOk result (λ tallies. AreTalliesOf query.now.items.items (chosen (tables_of db.now) (query_of query.now) choice.now ∷ []) tallies.items) }
{
    let mut tallies = Vec::new(alloc);
    for item in query.items.iter() {
        if tallies
            .push(Tally::start(db, query, choice, *item))
            .is_err()
        {
            return Err(Memory);
        }
    }
    Ok(tallies)
}

/// One choice more for each tally.
pub fn take_in_choice<'a>(db: &'a Db, query: &Query, choice: &[usize], tallies: &mut [Tally<'a>])
    requires tables { IsDatabase (tables_of db.now) }
    requires room { All (IsWithin row_limit) tallies.old }
    ensures { AllTakeIn (chosen (tables_of db.now) (query_of query.now) choice.now) tallies.old tallies.new }
{
    for tally in tallies.iter_mut() {
        *tally = tally.take_in(db, query, choice);
    }
}

/// What the tallies say of so many rows.
pub fn row_of_tallies(
    alloc: Global,
    tallies: &[Tally<'_>],
    rows: usize,
) -> Result<Vec<Cell>, Memory>
    requires some_row { 1 ≤ rows }
    requires limit { rows ≤ row_limit }
    requires within { All (IsWithin rows) tallies.now }
    ensures value { IfOk result (λ row. row.items ≡ map (cell_of_tally rows) tallies.now) }
{
    let mut row = Vec::new(alloc);
    for tally in tallies {
        let cell = tally.cell(alloc, rows)?;
        if row.push(cell).is_err() {
            return Err(Memory);
        }
    }
    Ok(row)
}

/// What an item says of no choice.
#[tactic(auto, unfolding(pdq_query::specs::Folds::item_of_group))]
fn cell_of_no_choice(item: Item) -> Cell
    ensures value { (q : QueryView) → result ≡ item_of_group q [] [] item }
{
    match item {
        Item::Plain(_) | Item::Sum(_) | Item::Avg(_) | Item::Min(_) | Item::Max(_) => Cell::Nothing,
        Item::Count => Cell::Number {
            unscaled: 0,
            scale: 0,
        },
    }
}

/// The row of no choice.
pub fn row_of_no_choice(alloc: Global, query: &Query) -> Result<Vec<Cell>, Memory>
    ensures value { IfOk result (λ row. row.items ≡ map (item_of_group (query_of query.now) [] []) query.now.items.items) }
{
    let mut row = Vec::new(alloc);
    for item in query.items.iter() {
        if row.push(cell_of_no_choice(*item)).is_err() {
            return Err(Memory);
        }
    }
    Ok(row)
}
