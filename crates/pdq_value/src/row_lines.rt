//! How a row line is cut into raw cells, and what a raw cell says.
ghost use Rattle.pdq_value.specs.RowLines.{escaped_byte, nothing_text, plain_text, raw_cells};
ghost use Rattle.std.specs.Str.{bytes_eq};
ghost use Rattle.std.specs.Prelude.{◌≡◌, ◌+◌, ◌<◌, ◌≤◌, [], ◌∷◌, IfOk, drop, length, option_map, take};

use pdq_base::{Memory, is_text};
use std::alloc::Global;

/// Where the first raw cell of a line ends: at the first bar that no backslash takes with it, or at the line's end.
pub fn first_cell_end(line: &[u8]) -> usize
    ensures within { result ≤ length line.now }
    ensures last { result ≡ length line.now → raw_cells line.now ≡ line.now ∷ [] }
    ensures more { result < length line.now
        → raw_cells line.now ≡ take result line.now ∷ raw_cells (drop (result + 1) line.now) }
{
    let mut taken = false;
    for (i, byte) in line.iter().enumerate() {
        if taken {
            taken = false;
        } else if *byte == b'|' {
            return i;
        } else {
            taken = *byte == b'\\';
        }
    }
    line.len()
}

/// Whether a raw cell is `\N` and no more, which stands for nothing.
pub fn is_nothing(cell: &[u8]) -> bool
    ensures value { result ≡ bytes_eq cell.now nothing_text }
{
    is_text(cell, b"\\N")
}

/// What a byte after a backslash stands for.
fn byte_after_backslash(byte: u8) -> Option<u8>
    ensures value { result ≡ escaped_byte byte }
{
    match byte {
        b'\\' => Some(b'\\'),
        b'|' => Some(b'|'),
        b'n' => Some(b'\n'),
        b'r' => Some(b'\r'),
        _ => None,
    }
}

/// The text that a raw cell says: `\\`, `\|`, `\n` and `\r` stand for a backslash, a bar, byte 10 and byte 13.
/// None where a backslash stands before another byte, or before none.
///
/// # Errors
/// `Memory` where it is wanting.
pub fn text_of_cell(alloc: Global, cell: &[u8]) -> Result<Option<Vec<u8>>, Memory>
    ensures value { IfOk result (λ text. option_map (λ v. v.items) text ≡ plain_text cell.now) }
{
    let mut text = Vec::new(alloc);
    let mut taken = false;
    for byte in cell {
        if taken {
            let Some(meant) = byte_after_backslash(*byte) else {
                return Ok(None);
            };
            if text.push(meant).is_err() {
                return Err(Memory);
            }
            taken = false;
        } else if *byte == b'\\' {
            taken = true;
        } else if text.push(*byte).is_err() {
            return Err(Memory);
        }
    }
    if taken {
        return Ok(None);
    }
    Ok(Some(text))
}
