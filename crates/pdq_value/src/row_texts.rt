//! Rows as they are printed.
ghost use Rattle.pdq_value.specs.Appending.{AppendsPart};
ghost use Rattle.pdq_value.specs.Cells.{scale_of};
ghost use Rattle.pdq_value.specs.RowLines.{bar};
ghost use Rattle.pdq_value.specs.RowText.{RowsAreReadBack, RowsSayTheirCells, cell_text, escaped, escaped_text, row_text};
ghost use Rattle.pdq_value.specs.declared.cells.Cell.{Cell as CellValue};
ghost use Rattle.std.specs.Prelude.{◌≡◌, ◌≤◌, ◌∷◌, ◌++◌, All, OnErr, OnOk};

use crate::appending::append;
use crate::cells::Cell;
use crate::number_texts::print_number;
use pdq_base::Memory;

/// Appends a row: its cells with a bar between each two. Nothing is printed `\N`; in a text a backslash is printed `\\`,
/// a bar `\|`, byte 10 `\n` and byte 13 `\r`.
///
/// # Errors
/// `Memory` where it is wanting; then a beginning of the text is appended.
pub fn print_row(cells: &[Cell], to: &mut Vec<u8>) -> Result<(), Memory>
    requires { All (λ (cell : CellValue). scale_of cell ≤ 8) cells.now }
    ensures text { OnOk result (to.new.items ≡ to.old.items ++ row_text cells.now) }
    ensures part { OnErr result (AppendsPart to.old.items to.new.items (row_text cells.now)) }
{
    let [first, rest @ ..] = cells else {
        return Ok(());
    };
    print_cell(first, to)?;
    for cell in rest {
        print_next_cell(cell, to)?;
    }
    Ok(())
}

fn print_next_cell(cell: &Cell, to: &mut Vec<u8>) -> Result<(), Memory>
    requires { scale_of cell.now ≤ 8 }
    ensures text { OnOk result (to.new.items ≡ to.old.items ++ bar ∷ cell_text cell.now) }
    ensures part { OnErr result (AppendsPart to.old.items to.new.items (bar ∷ cell_text cell.now)) }
{
    append(to, b"|")?;
    print_cell(cell, to)
}

#[tactic(auto, unfolding(crate::specs::RowText::cell_text))]
fn print_cell(cell: &Cell, to: &mut Vec<u8>) -> Result<(), Memory>
    requires { scale_of cell.now ≤ 8 }
    ensures text { OnOk result (to.new.items ≡ to.old.items ++ cell_text cell.now) }
    ensures part { OnErr result (AppendsPart to.old.items to.new.items (cell_text cell.now)) }
{
    match cell {
        Cell::Nothing => append(to, b"\\N"),
        Cell::Number { unscaled, scale } => print_number(*unscaled, *scale, to),
        Cell::Words(text) => print_escaped(text.bytes(), to),
    }
}

fn print_escaped(text: &[u8], to: &mut Vec<u8>) -> Result<(), Memory>
    ensures text { OnOk result (to.new.items ≡ to.old.items ++ escaped_text text.now) }
    ensures part { OnErr result (AppendsPart to.old.items to.new.items (escaped_text text.now)) }
{
    for byte in text {
        print_byte(*byte, to)?;
    }
    Ok(())
}

fn print_byte(byte: u8, to: &mut Vec<u8>) -> Result<(), Memory>
    ensures text { OnOk result (to.new.items ≡ to.old.items ++ escaped byte) }
    ensures part { OnErr result (AppendsPart to.old.items to.new.items (escaped byte)) }
{
    match byte {
        b'\\' => append(to, b"\\\\"),
        b'|' => append(to, b"\\|"),
        b'\n' => append(to, b"\\n"),
        b'\r' => append(to, b"\\r"),
        _ => append(to, &[byte]),
    }
}

/// What is printed of a row of a table is read back as the row, `Null` in it too, since no text is printed as `\N`. What is printed of
/// any row of an answer says its cells, where the kinds of its columns are known.
pub fn row_texts_read_back()
    ensures law { RowsAreReadBack }
    ensures cells { RowsSayTheirCells }
{}
