//! From the name of a schema file to its tables.
ghost use Rattle.std.specs.Prelude.{◌≡◌, ◌≢◌, IfErr, IfOk, IsErrOf, Ok, Err, OnOk, length};
ghost use Rattle.pdq_edge.specs.Causes.{Rose};
ghost use Rattle.pdq_schema.specs.SchemaFile.{schema_of};
ghost use Rattle.pdq_table.specs.Loading.{contents_of, tables_loaded};
ghost use Rattle.pdq_reply.specs.Answers.{refused_schema, refused_table};
ghost use Rattle.pdq_load.specs.Loaded.{FilesGive, IfRefused, TablesGive, loaded_tables};

use crate::reading_files::{FilesFault, read_table_files};
use pdq_edge::{FileFault, Files};
use pdq_reply::{add_refused_schema, add_refused_table};
use pdq_schema::{Schema, SchemaFault, SchemaWhy, read_schema};
use pdq_table::{Stored, load};
use pdq_value::{LoadFault, LoadWhy};
use std::alloc::Global;

/// The most bytes of a schema file.
const MOST_SCHEMA_BYTES: u64 = 1_048_576;

/// Why the tables of a schema file are not at hand.
#[derive(Drop)]
pub enum Unloaded {
    /// A file failed, or is not there: the count of the files rose.
    Failed,
    /// Memory was wanting.
    Memory,
    /// The schema file or a table is refused, by this line.
    Refused(Vec<u8>),
}

fn table_refusal(alloc: Global, fault: LoadFault) -> Unloaded
    ensures line { IfRefused result (λ line. line ≡ refused_table fault) }
    ensures cause { result ≢ Unloaded.Failed }
{
    let mut line = Vec::new(alloc);
    match add_refused_table(alloc, &mut line, fault) {
        Ok(()) => Unloaded::Refused(line),
        Err(_) => Unloaded::Memory,
    }
}

fn schema_refusal(alloc: Global, fault: SchemaFault) -> Unloaded
    ensures line { IfRefused result (λ line. line ≡ refused_schema fault) }
    ensures cause { result ≢ Unloaded.Failed }
{
    let mut line = Vec::new(alloc);
    match add_refused_schema(alloc, &mut line, fault) {
        Ok(()) => Unloaded::Refused(line),
        Err(_) => Unloaded::Memory,
    }
}

/// The fault of a table whose file is too long.
fn long_table(table: u32) -> LoadFault
    ensures value { result ≡ LoadFault.Wrong LoadWhy.TooLong table 0 0 }
{
    LoadFault::Wrong {
        why: LoadWhy::TooLong,
        table,
        row_no: 0,
        column: 0,
    }
}

/// The fault of a schema file that is too long.
fn long_schema() -> SchemaFault
    ensures value { result ≡ SchemaFault.Wrong SchemaWhy.TooMany 0 0 }
{
    SchemaFault::Wrong {
        why: SchemaWhy::TooMany,
        table: 0,
        column: 0,
    }
}

/// The tables of a schema, whose files have these bytes.
fn load_read(alloc: Global, schema: &Schema, tables: Vec<Vec<u8>>) -> Result<Stored, Unloaded>
    requires files { length tables.items ≡ length schema.now.shapes }
    ensures loaded { IfOk result (λ stored. Ok stored ≡ loaded_tables schema.now (tables_loaded schema.now.shapes (contents_of tables.items))) }
    ensures refused { IfErr result (λ e. IfRefused e (λ line. Err line ≡ loaded_tables schema.now (tables_loaded schema.now.shapes (contents_of tables.items)))) }
    ensures cause { IfErr result (λ e. e ≢ Unloaded.Failed) }
{
    match load(alloc, schema, tables) {
        Ok(stored) => Ok(stored),
        Err(LoadFault::Memory) => Err(Unloaded::Memory),
        Err(fault) => Err(table_refusal(alloc, fault)),
    }
}

/// The tables of a schema.
fn load_files<F: Files>(alloc: Global, schema: &Schema, files: &mut F) -> Result<Stored, Unloaded>
    ensures loaded { IfOk result (λ stored. TablesGive (F.contents files.old) (Ok schema.now) (Ok stored)) }
    ensures refused { IfErr result (λ e. IfRefused e (λ line. TablesGive (F.contents files.old) (Ok schema.now) (Err line))) }
    ensures passed { OnOk result (F.faults files.new ≡ F.faults files.old) }
    ensures failed { IsErrOf result Unloaded.Failed → Rose (F.faults files.old) (F.faults files.new) }
    ensures others { IfErr result (λ e. e ≢ Unloaded.Failed → F.faults files.new ≡ F.faults files.old) }
{
    match read_table_files(alloc, schema, files) {
        Ok(tables) => load_read(alloc, schema, tables),
        Err(FilesFault::Failed) => Err(Unloaded::Failed),
        Err(FilesFault::TooLong(table)) => Err(table_refusal(alloc, long_table(table))),
        Err(FilesFault::Memory) => Err(Unloaded::Memory),
    }
}

/// The tables of the schema that the bytes say.
fn load_schema<F: Files>(alloc: Global, bytes: Vec<u8>, files: &mut F) -> Result<Stored, Unloaded>
    ensures loaded { IfOk result (λ stored. TablesGive (F.contents files.old) (schema_of bytes.items) (Ok stored)) }
    ensures refused { IfErr result (λ e. IfRefused e (λ line. TablesGive (F.contents files.old) (schema_of bytes.items) (Err line))) }
    ensures passed { OnOk result (F.faults files.new ≡ F.faults files.old) }
    ensures failed { IsErrOf result Unloaded.Failed → Rose (F.faults files.old) (F.faults files.new) }
    ensures others { IfErr result (λ e. e ≢ Unloaded.Failed → F.faults files.new ≡ F.faults files.old) }
{
    let schema = read_schema(alloc, &bytes);
    drop(bytes);
    match schema {
        Ok(schema) => load_files(alloc, &schema, files),
        Err(SchemaFault::Memory) => Err(Unloaded::Memory),
        Err(fault) => Err(schema_refusal(alloc, fault)),
    }
}

/// The tables of the schema file of this name: it is read and understood, then the file of each table is read in the order of the
/// schema, up to the first that is too long, then the tables are loaded in that order.
///
/// # Errors
/// `Failed` where the count of the files rose; `Refused` with the line of the first fault, of the schema file before that of a
/// table; `Memory` where it is wanting.
pub fn load_tables<F: Files>(alloc: Global, schema: &str, files: &mut F) -> Result<Stored, Unloaded>
    ensures loaded { IfOk result (λ stored. FilesGive (F.contents files.old) schema.now (Ok stored)) }
    ensures refused { IfErr result (λ e. IfRefused e (λ line. FilesGive (F.contents files.old) schema.now (Err line))) }
    ensures passed { OnOk result (F.faults files.new ≡ F.faults files.old) }
    ensures failed { IsErrOf result Unloaded.Failed → Rose (F.faults files.old) (F.faults files.new) }
    ensures others { IfErr result (λ e. e ≢ Unloaded.Failed → F.faults files.new ≡ F.faults files.old) }
{
    match files.read_whole(alloc, schema, MOST_SCHEMA_BYTES) {
        Ok(bytes) => load_schema(alloc, bytes, files),
        Err(FileFault::Failed) => Err(Unloaded::Failed),
        Err(FileFault::TooLong) => Err(schema_refusal(alloc, long_schema())),
        Err(FileFault::Memory) => Err(Unloaded::Memory),
    }
}
