//! The files of the tables of a schema.
ghost use Rattle.std.specs.Prelude.{◌≡◌, ◌≢◌, ◌<◌, ◌≤◌, ℕ, List, IfErr, IfOk, IfSome, IsErrOf, OnOk, length};
ghost use Rattle.pdq_edge.specs.Causes.{Rose};
ghost use Rattle.pdq_table.specs.Loading.{contents_of};
ghost use Rattle.pdq_load.specs.Files.{AddsFile, AllTold, IsFirstLong};

use pdq_edge::{FileFault, Files};
use pdq_schema::Schema;
use std::alloc::Global;

/// The most bytes of the file of a table.
const MOST_BYTES: u64 = 134_217_728;

/// Why the files of the tables are not at hand.
#[derive(Clone, Copy)]
pub(crate) enum FilesFault {
    /// A file failed, or is not there.
    Failed,
    /// The file of the table with this number, from 1, has more bytes than it may.
    TooLong(u32),
    /// Memory was wanting.
    Memory,
}

/// How many tables a schema has.
fn table_count(schema: &Schema) -> u32
    ensures tables { result ≡ length schema.now.shapes }
    ensures files { result ≡ length schema.now.files }
{
    schema.shapes().len() as u32
}

/// Reads the file of one more table.
fn add_table_file<F: Files>(
    alloc: Global,
    name: &str,
    files: &mut F,
    tables: &mut Vec<Vec<u8>>,
) -> Result<(), FileFault>
    ensures added { OnOk result (AddsFile (F.contents files.old) name.now (contents_of tables.old.items) (contents_of tables.new.items)) }
    ensures too_long { IsErrOf result FileFault.TooLong → IfSome (F.contents files.old name.now) (λ bytes. 134217728 < length bytes) }
    ensures same { (other : List ℕ) → F.contents files.new other ≡ F.contents files.old other }
    ensures passed { OnOk result (F.faults files.new ≡ F.faults files.old) }
    ensures too_long_faults { IsErrOf result FileFault.TooLong → F.faults files.new ≡ F.faults files.old }
    ensures memory { IsErrOf result FileFault.Memory → F.faults files.new ≡ F.faults files.old }
    ensures failed { IsErrOf result FileFault.Failed → Rose (F.faults files.old) (F.faults files.new) }
{
    let bytes = files.read_whole(alloc, name, MOST_BYTES)?;
    match tables.push(bytes) {
        Ok(()) => Ok(()),
        Err(_) => Err(FileFault::Memory),
    }
}

/// Reads the files of the tables, in the order of the schema, and no further than the first that is too long.
pub(crate) fn read_table_files<F: Files>(
    alloc: Global,
    schema: &Schema,
    files: &mut F,
) -> Result<Vec<Vec<u8>>, FilesFault>
    ensures told { IfOk result (λ tables. AllTold (F.contents files.old) schema.now.files (contents_of tables.items)) }
    ensures count { IfOk result (λ tables. length tables.items ≡ length schema.now.shapes) }
    ensures too_long { IfErr result (IsFirstLong (F.contents files.old) schema.now.files) }
    ensures passed { OnOk result (F.faults files.new ≡ F.faults files.old) }
    ensures failed { IsErrOf result FilesFault.Failed → Rose (F.faults files.old) (F.faults files.new) }
    ensures others { IfErr result (λ e. e ≢ FilesFault.Failed → F.faults files.new ≡ F.faults files.old) }
{
    let mut tables = Vec::new(alloc);
    'files: for table in 0..table_count(schema) {
        match add_table_file(alloc, schema.file(table), files, &mut tables) {
            Ok(()) => {}
            Err(FileFault::Failed) => return Err(FilesFault::Failed),
            Err(FileFault::TooLong) => return Err(FilesFault::TooLong(table + 1)),
            Err(FileFault::Memory) => return Err(FilesFault::Memory),
        }
    }
    Ok(tables)
}
