//! The header of a table: the names of its columns.
ghost use Rattle.std.specs.Prelude.{◌≡◌, ◌⊎◌, IfErr, IfOk, None, Some, map};
ghost use Rattle.std.specs.Char.{to_ascii_lowercase};
ghost use Rattle.std.specs.Str.{bytes_eq};
ghost use Rattle.csv.specs.Records.{fields_of};
ghost use Rattle.pdq_table.specs.Loading.{header_fault, misnamed_at};
ghost use Rattle.pdq_table.specs.Records.{AreShort};

use crate::fields::{fault, field_at, fields_fault};
use csv::ByteRecord;
use pdq_base::Memory;
use pdq_value::{Column, LoadFault, LoadWhy};
use std::alloc::Global;

/// Whether a field is this name, in lower case.
fn is_named(alloc: Global, field: &[u8], name: &[u8]) -> Result<bool, Memory>
    ensures value { IfOk result (λ named. named ≡ bytes_eq (map to_ascii_lowercase field.now) name.now) }
{
    let Ok(lower) = field.to_ascii_lowercase(alloc) else {
        return Err(Memory);
    };
    Ok(lower.as_slice() == name)
}

/// The first column whose field is not its name.
fn first_misnamed(
    alloc: Global,
    columns: &[Column],
    row: &ByteRecord,
) -> Result<Option<u32>, Memory>
    requires short { AreShort (fields_of row.now) }
    ensures value { IfOk result (λ column. column ≡ misnamed_at 1 columns.now (fields_of row.now)) }
{
    for (place, column) in columns.iter().enumerate() {
        let Some(field) = field_at(row, place) else {
            return Ok(None);
        };
        if !is_named(alloc, field, column.name.bytes())? {
            return Ok(Some(place as u32 + 1));
        }
    }
    Ok(None)
}

/// Refuses a record that is no header of these columns.
///
/// # Errors
/// `NotUtf8`, `WrongFields` and then `WrongHeader` in row 0; `Memory` where it is wanting.
#[tactic(auto, unfolding(crate::specs::Loading::header_fault))]
pub(crate) fn check_header(
    alloc: Global,
    columns: &[Column],
    table: u32,
    row: &ByteRecord,
) -> Result<(), LoadFault>
    requires short { AreShort (fields_of row.now) }
    ensures good { IfOk result (λ u. header_fault columns.now table (fields_of row.now) ≡ None) }
    ensures refused { IfErr result (λ e. (e ≡ LoadFault.Memory) ⊎ (header_fault columns.now table (fields_of row.now) ≡ Some e)) }
{
    if let Some(wrong) = fields_fault(columns, table, 0, row) {
        return Err(wrong);
    }
    let Ok(misnamed) = first_misnamed(alloc, columns, row) else {
        return Err(LoadFault::Memory);
    };
    match misnamed {
        Some(column) => Err(fault(LoadWhy::WrongHeader, table, 0, column)),
        None => Ok(()),
    }
}
