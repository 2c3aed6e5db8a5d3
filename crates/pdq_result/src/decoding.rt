//! Rows of words as rows of cells.
ghost use Rattle.std.specs.Prelude.{◌≡◌, ◌+◌, ◌++◌, ◌<◌, IfOk, OnOk, ℕ, length, map};
ghost use Rattle.pdq_base.specs.Words.{is_null, word_at};
ghost use Rattle.pdq_group.specs.Words.{wide_number};
ghost use Rattle.pdq_mean.specs.Loops.{lists_of};
ghost use Rattle.pdq_eval.specs.Results.{wide_cell};
ghost use Rattle.pdq_result.specs.Answers.{rows_kept};
ghost use Rattle.pdq_result.specs.Sources.{cell_from, cells_from, is_there};

use crate::sources::Source;
use pdq_base::Memory;
use pdq_dict::{Dict, NULL_WORD};
use pdq_owner::{Counted, Kept};
use pdq_value::Cell;
use std::alloc::Global;

/// The word at a place of a row; 0 past its end.
fn word_at(row: &[i64], place: usize) -> i64
    ensures value { result ≡ word_at place row.now }
{
    match row.get(place) {
        Some(word) => *word,
        None => 0,
    }
}

/// The number that two words are.
fn wide_number(low: i64, high: i64) -> i128
    ensures value { result ≡ wide_number low high }
{
    high as i128 * 18446744073709551616 + low.cast_unsigned() as i128
}

/// A number of two words as a cell: with Null above it is nothing.
fn wide_cell(scale: u32, low: i64, high: i64) -> Cell
    ensures value { result ≡ wide_cell scale low high }
{
    if high == NULL_WORD {
        Cell::Nothing
    } else {
        Cell::Number {
            unscaled: wide_number(low, high),
            scale,
        }
    }
}

/// Whether a row has the words that are read; of a column that it lacks 0 is read.
fn is_there(row: &[i64], source: Source) -> bool
    ensures value { result ≡ is_there row.now source }
{
    match source {
        Source::Nothing | Source::Column { .. } => true,
        Source::Extreme { place, .. } | Source::Count { place } => (place as usize) < row.len(),
        Source::Wide { place, .. } => place as usize + 1 < row.len(),
    }
}

fn cell_from(alloc: Global, dict: &Dict, row: &[i64], source: Source) -> Result<Cell, Memory>
    ensures value { IfOk result (λ cell. cell ≡ cell_from dict.now row.now source) }
{
    match source {
        Source::Nothing => Ok(Cell::Nothing),
        Source::Column { place, kind } | Source::Extreme { place, kind } => {
            dict.cell_of_word(alloc, kind, word_at(row, place as usize))
        }
        Source::Wide { place, scale } => {
            let place = place as usize;
            Ok(wide_cell(scale, word_at(row, place), word_at(row, place + 1)))
        }
        Source::Count { place } => Ok(Cell::Number {
            unscaled: i128::from(word_at(row, place as usize)),
            scale: 0,
        }),
    }
}

/// The cells of a row, up to the first whose words are not there.
fn cells_from(
    alloc: Global,
    dict: &Dict,
    sources: &[Source],
    row: &[i64],
) -> Result<Vec<Cell>, Memory>
    ensures value { IfOk result (λ cells. cells.items ≡ cells_from dict.now sources.now row.now) }
{
    let Ok(mut cells) = Vec::with_capacity(alloc, sources.len()) else {
        return Err(Memory);
    };
    for source in sources {
        if !is_there(row, *source) {
            return Ok(cells);
        }
        let cell = cell_from(alloc, dict, row, *source)?;
        let Ok(()) = cells.push(cell) else {
            return Err(Memory);
        };
    }
    Ok(cells)
}

/// Puts the cells of the rows that one owner keeps behind others.
fn push_rows(
    alloc: Global,
    dict: &Dict,
    sources: &[Source],
    kept: &Kept,
    rows: &mut Vec<Vec<Cell>>,
) -> Result<(), Memory>
    ensures value { OnOk result (lists_of rows.new.items ≡ lists_of rows.old.items ++ map (cells_from dict.now sources.now) kept.now.rows) }
{
    for i in 0..kept.count() {
        let cells = cells_from(alloc, dict, sources, kept.row(i))?;
        let Ok(()) = rows.push(cells) else {
            return Err(Memory);
        };
    }
    Ok(())
}

/// The cells of the rows that some owners keep.
pub fn rows_from(
    alloc: Global,
    dict: &Dict,
    sources: &[Source],
    kept: &[Kept],
) -> Result<Vec<Vec<Cell>>, Memory>
    ensures value { IfOk result (λ rows. lists_of rows.items ≡ map (cells_from dict.now sources.now) (rows_kept kept.now)) }
{
    let mut rows = Vec::new(alloc);
    for one in kept {
        push_rows(alloc, dict, sources, one, &mut rows)?;
    }
    Ok(rows)
}
