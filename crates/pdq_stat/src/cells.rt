//! Numbers in lines and in cells.
ghost use Rattle.std.specs.Prelude.{◌≡◌, ◌++◌, OnOk, OnErr, decimal, flat_map};
ghost use mathlib.Core.List.{IsPrefix};
ghost use Rattle.pdq_stat.specs.StatusText.{cell, memory_line, named, number_line, number_row};

use itoa::Buffer;
use std::alloc::AllocError;

/// As many blanks as a cell has places.
const BLANKS: &[u8; 12] = b"            ";

fn add_number(to: &mut Vec<u8>, number: u64) -> Result<(), AllocError>
    ensures text { OnOk result (to.new.items ≡ to.old.items ++ decimal number) }
    ensures kept { OnErr result (IsPrefix to.old.items to.new.items) }
{
    let mut buffer = Buffer::new();
    to.extend_from_slice(buffer.format(number).as_bytes())
}

/// Adds a name and a number.
#[tactic(auto, unfolding(crate::specs::StatusText::named))]
pub(crate) fn add_named(to: &mut Vec<u8>, name: &str, number: u64) -> Result<(), AllocError>
    ensures text { OnOk result (to.new.items ≡ to.old.items ++ named name.now number) }
    ensures kept { OnErr result (IsPrefix to.old.items to.new.items) }
{
    to.extend_from_slice(name.as_bytes())?;
    add_number(to, number)
}

/// Adds a line of a name and a number.
#[tactic(auto, unfolding(crate::specs::StatusText::number_line))]
pub(crate) fn add_number_line(to: &mut Vec<u8>, name: &str, number: u64) -> Result<(), AllocError>
    ensures text { OnOk result (to.new.items ≡ to.old.items ++ number_line name.now number) }
    ensures kept { OnErr result (IsPrefix to.old.items to.new.items) }
{
    add_named(to, name, number)?;
    to.extend_from_slice(b"\n")
}

/// Adds a line of a name and so much memory.
#[tactic(auto, unfolding(crate::specs::StatusText::memory_line))]
pub(crate) fn add_memory_line(to: &mut Vec<u8>, name: &str, kb: u64) -> Result<(), AllocError>
    ensures text { OnOk result (to.new.items ≡ to.old.items ++ memory_line name.now kb) }
    ensures kept { OnErr result (IsPrefix to.old.items to.new.items) }
{
    add_named(to, name, kb)?;
    to.extend_from_slice(b" KB\n")
}

/// Adds a number right in 12 places.
#[tactic(auto, unfolding(crate::specs::StatusText::cell))]
fn add_cell(to: &mut Vec<u8>, number: u64) -> Result<(), AllocError>
    ensures text { OnOk result (to.new.items ≡ to.old.items ++ cell (decimal number)) }
    ensures kept { OnErr result (IsPrefix to.old.items to.new.items) }
{
    let mut buffer = Buffer::new();
    let digits = buffer.format(number).as_bytes();
    let blanks: &[u8] = BLANKS;
    to.extend_from_slice(&blanks[digits.len().min(blanks.len())..])?;
    to.extend_from_slice(digits)?;
    Ok(())
}

fn add_cells(to: &mut Vec<u8>, numbers: &[u64]) -> Result<(), AllocError>
    ensures text { OnOk result (to.new.items ≡
        to.old.items ++ flat_map (λ n. cell (decimal n)) numbers.now) }
    ensures kept { OnErr result (IsPrefix to.old.items to.new.items) }
{
    for number in numbers {
        add_cell(to, *number)?;
    }
    Ok(())
}

/// Adds a line of numbers in cells, behind a label in its 12 places or behind nothing.
#[tactic(auto, unfolding(crate::specs::StatusText::number_row))]
pub(crate) fn add_row(to: &mut Vec<u8>, before: &str, numbers: &[u64]) -> Result<(), AllocError>
    ensures text { OnOk result (to.new.items ≡ to.old.items ++ number_row before.now numbers.now) }
    ensures kept { OnErr result (IsPrefix to.old.items to.new.items) }
{
    to.extend_from_slice(before.as_bytes())?;
    add_cells(to, numbers)?;
    to.extend_from_slice(b"\n")
}
