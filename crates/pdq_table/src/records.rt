//! The records of a file, one after another.
ghost use Rattle.std.specs.Prelude.{◌≡◌, ◌≤◌, IfOk, length};
ghost use Rattle.csv.specs.Records.{fields_of};
ghost use Rattle.pdq_table.specs.Loading.{most_bytes, records_of};
ghost use Rattle.pdq_table.specs.Records.{IsReading, Takes, records_left};

use csv::{ByteRecord, Reader, ReaderBuilder};
use pdq_base::Memory;
use std::alloc::Global;

/// A reader of the records of these bytes.
pub(crate) fn records_in(alloc: Global, bytes: &[u8]) -> Reader<&[u8]>
    requires short { length bytes.now ≤ most_bytes }
    ensures reading { IsReading result }
    ensures left { records_left result ≡ records_of bytes.now }
{
    ReaderBuilder::new()
        .has_headers(false)
        .flexible(true)
        .from_reader(alloc, bytes)
}

/// Takes the next record, and says whether there was one.
///
/// # Errors
/// `Memory` where it is wanting.
pub(crate) fn next_record(reader: &mut Reader<&[u8]>, row: &mut ByteRecord) -> Result<bool, Memory>
    requires reading { IsReading reader.old }
    ensures taken { IfOk result (λ found. Takes found reader.old (fields_of row.new) reader.new) }
{
    let Ok(found) = reader.read_byte_record(row) else {
        return Err(Memory);
    };
    Ok(found)
}
