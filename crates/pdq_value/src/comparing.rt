//! The order of cells and rows.
ghost use Rattle.pdq_value.specs.Cells.{cell_cmp, row_cmp};
ghost use Rattle.std.specs.Prelude.{◌≡◌};

use crate::cells::Cell;
use std::cmp::Ordering;

/// The order of cells: nothing first, then numbers by value (and by scale, where the scales differ), then texts by bytes.
#[tactic(auto, unfolding(crate::specs::Cells::cell_cmp))]
pub fn compare_cells(a: &Cell, b: &Cell) -> Ordering
    ensures value { result ≡ cell_cmp a.now b.now }
{
    match a {
        Cell::Nothing => match b {
            Cell::Nothing => Ordering::Equal,
            _ => Ordering::Less,
        },
        Cell::Number { unscaled, scale } => match b {
            Cell::Nothing => Ordering::Greater,
            Cell::Number {
                unscaled: other,
                scale: other_scale,
            } => { unscaled.cmp(other).then(scale.cmp(other_scale)) }
            Cell::Words(_) => Ordering::Less,
        },
        Cell::Words(text) => match b {
            Cell::Words(other) => text.bytes().cmp(&other.bytes()),
            _ => Ordering::Greater,
        },
    }
}

/// The order of rows: by the first cell that differs, and a row before each that goes on after it.
pub fn compare_rows(a: &[Cell], b: &[Cell]) -> Ordering
    ensures value { result ≡ row_cmp a.now b.now }
{
    for i in 0..a.len().min(b.len()) {
        let order = compare_cells(&a[i], &b[i]);
        if order != Ordering::Equal {
            return order;
        }
    }
    a.len().cmp(&b.len())
}
