//! Cells: what an answer's row holds.
use crate::texts::Text;
use pdq_base::Memory;
use std::alloc::Global;

/// A cell of an answer: nothing, a number in units of its last of `scale` decimal places, or a text.
#[derive(Debug, Drop)]
pub enum Cell {
    Nothing,
    Number { unscaled: i128, scale: u32 },
    Words(Text),
}

impl Cell {
    ghost use Rattle.std.specs.Prelude.{◌≡◌, IfOk};

    /// The same cell once more.
    ///
    /// # Errors
    /// `Memory` where it is wanting.
    pub fn copy(&self, alloc: Global) -> Result<Cell, Memory>
        ensures value { IfOk result (λ cell. cell ≡ self.now) }
    {
        match self {
            Cell::Nothing => Ok(Cell::Nothing),
            Cell::Number { unscaled, scale } => Ok(Cell::Number {
                unscaled: *unscaled,
                scale: *scale,
            }),
            Cell::Words(text) => Ok(Cell::Words(text.copy(alloc)?)),
        }
    }
}
