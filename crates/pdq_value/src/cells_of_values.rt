//! The cells of values.
ghost use Rattle.pdq_value.specs.Cells.{cell_of};
ghost use Rattle.std.specs.Prelude.{◌≡◌, IfOk};

use crate::cells::Cell;
use crate::shapes::{Kind, Value};
use pdq_base::Memory;
use std::alloc::Global;

/// The cell of a value in a column of this kind: nothing where it is `Null`.
///
/// # Errors
/// `Memory` where it is wanting.
pub fn cell_of(alloc: Global, kind: Kind, value: &Value) -> Result<Cell, Memory>
    ensures value { IfOk result (λ cell. cell ≡ cell_of kind value.now) }
{
    match value {
        Value::Null => Ok(Cell::Nothing),
        Value::Number(number) => {
            let unscaled = i128::from(*number);
            match kind {
                Kind::Number { scale } => Ok(Cell::Number { unscaled, scale }),
                Kind::Words => Ok(Cell::Number { unscaled, scale: 0 }),
            }
        }
        Value::Words(text) => Ok(Cell::Words(text.copy(alloc)?)),
    }
}
