//! Cells of tables and of answers, without a copy of their texts.
ghost use Rattle.std.specs.Prelude.{◌≡◌, IfOk};
ghost use Rattle.pdq_value.specs.Cells.{cell_at, cell_cmp, cell_of};
ghost use Rattle.pdq_mean.specs.CellRefs.{cell_of_ref};

use pdq_base::Memory;
use pdq_value::{Cell, Kind, Text, Value};
use std::alloc::Global;
use std::cmp::Ordering;

/// A cell, with a text that stays where it is.
#[derive(Clone, Copy)]
pub enum CellRef<'a> {
    Nothing,
    Number { unscaled: i128, scale: u32 },
    Words(&'a Text),
}

/// The cell of a value in a column of this kind: nothing where it is `Null`.
pub fn cell_ref(kind: Kind, value: &Value) -> CellRef<'_>
    ensures value { cell_of_ref result ≡ cell_of kind value.now }
{
    match value {
        Value::Null => CellRef::Nothing,
        Value::Number(unscaled) => match kind {
            Kind::Number { scale } => CellRef::Number {
                unscaled: i128::from(*unscaled),
                scale,
            },
            Kind::Words => CellRef::Number {
                unscaled: i128::from(*unscaled),
                scale: 0,
            },
        },
        Value::Words(text) => CellRef::Words(text),
    }
}

/// An answer's cell, without a copy.
pub fn borrowed(cell: &Cell) -> CellRef<'_>
    ensures value { cell_of_ref result ≡ cell.now }
{
    match cell {
        Cell::Nothing => CellRef::Nothing,
        Cell::Number { unscaled, scale } => CellRef::Number {
            unscaled: *unscaled,
            scale: *scale,
        },
        Cell::Words(text) => CellRef::Words(text),
    }
}

/// The cell at a place of a row; nothing past its end.
pub fn cell_at(row: &[Cell], place: usize) -> CellRef<'_>
    ensures value { cell_of_ref result ≡ cell_at place row.now }
{
    match row.get(place) {
        Some(cell) => borrowed(cell),
        None => CellRef::Nothing,
    }
}

/// Nothing first, then numbers by value and scale, then texts by bytes.
#[tactic(auto, unfolding(pdq_value::specs::Cells::cell_cmp))]
pub fn compare_refs(a: CellRef<'_>, b: CellRef<'_>) -> Ordering
    ensures order { result ≡ cell_cmp (cell_of_ref a.entry) (cell_of_ref b.entry) }
{
    match (a, b) {
        (CellRef::Nothing, CellRef::Nothing) => Ordering::Equal,
        (CellRef::Nothing, CellRef::Number { .. } | CellRef::Words(_)) => Ordering::Less,
        (CellRef::Number { .. } | CellRef::Words(_), CellRef::Nothing) => Ordering::Greater,
        (
            CellRef::Number {
                unscaled: x,
                scale: s,
            },
            CellRef::Number {
                unscaled: y,
                scale: t,
            },
        ) => x.cmp(&y).then(s.cmp(&t)),
        (CellRef::Number { .. }, CellRef::Words(_)) => Ordering::Less,
        (CellRef::Words(_), CellRef::Number { .. }) => Ordering::Greater,
        (CellRef::Words(x), CellRef::Words(y)) => x.bytes().cmp(&y.bytes()),
    }
}

/// The same cell, with a text of its own.
///
/// # Errors
/// `Memory` where it is wanting.
pub fn owned(alloc: Global, cell: CellRef<'_>) -> Result<Cell, Memory>
    ensures value { IfOk result (λ c. c ≡ cell_of_ref cell.entry) }
{
    match cell {
        CellRef::Nothing => Ok(Cell::Nothing),
        CellRef::Number { unscaled, scale } => Ok(Cell::Number { unscaled, scale }),
        CellRef::Words(text) => Ok(Cell::Words(text.copy(alloc)?)),
    }
}
