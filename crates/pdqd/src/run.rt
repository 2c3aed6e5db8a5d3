//! One command, from the source to the sink.
ghost use Rattle.std.specs.Prelude.{if◌then◌else◌, ◌≡◌, ◌≢◌, ◌≤◌, ◌↔◌, ◌⊎◌, ℕ, List, Option, Some, None, IfSome, IsTrue, Ok, length, map, string_bytes, true, vec_len};
ghost use Rattle.std.specs.Option.{option_copied};
ghost use Rattle.pdq_edge.specs.Bytes.{Grows, GrewSome};
ghost use Rattle.pdq_edge.specs.Causes.{Rose};
ghost use Rattle.pdq_session.specs.Progress.{SourceView, source_view};
ghost use Rattle.pdq_session.specs.ScriptStates.{IsFresh, IsTrusted, asked_of, no_tables};
ghost use Rattle.pdq_load.specs.Files.{Contents};
ghost use Rattle.pdq_load.specs.Loaded.{FilesGive};
ghost use Rattle.pdqd.specs.Words.{form_of, IsInRange};
ghost use Rattle.pdq_exec.specs.Runs.{AreStoresAfter};
ghost use Rattle.pdqd.specs.Stores.{StoresView, stores_view};
ghost use Rattle.pdqd.specs.Run.{HasEnded, IsStatus, IsWhole, IsCutOff, KeepsItsRules, LeavesUnread, NoneFell, RanInPart, RanWhole, RunsScript, RunsToEnd, TellsFaults, WhereTold};

use crate::asking::{question, question_from_files};
use crate::input::{InputFault, read_input};
use crate::replying::{Reply, reply_to};
use crate::words::{Form, read_words};
use pdq_base::Memory;
use pdq_edge::{Files, Sink, Source, Spill, write_all};
use pdq_frame::Pool;
use pdq_gate::{Config, Manager};
use pdq_load::{Unloaded, load_tables};
use pdq_make::make_text;
use pdq_session::{ScriptEnd, script_in};
use pdq_table::Stored;
use std::alloc::Global;
use std::thread::Threads;

/// The command ran to its end.
const DONE: u8 = 0;

/// The words have no form, or a number is out of range.
const USAGE: u8 = 64;

/// A line has a named fault, which was written last.
const DATA: u8 = 65;

/// Reading failed.
const NO_INPUT: u8 = 66;

/// Memory was wanting.
const NO_MEMORY: u8 = 71;

/// The command ran to its end, and a store failed at a query.
const STORE_FAILED: u8 = 70;

/// Writing failed.
const NO_OUTPUT: u8 = 74;

/// A manager without an entry, over a pool of its own; None for want of memory.
fn manager_of(alloc: Global, config: Config) -> Option<Manager>
    ensures opening { IfSome result (λ m. m.opening ≡ config) }
    ensures fresh { IfSome result IsFresh }
{
    let Ok(pool) = Pool::new(alloc, config.frames_per_quantum(), config.max_queries()) else {
        return None;
    };
    match Manager::new(alloc, config, pool) {
        Ok(manager) => Some(manager),
        Err(_) => None,
    }
}

/// Flushes the sink at the end of a run that has this status.
fn flushed<Si: Sink>(sink: &mut Si, status: u8) -> u8
    ensures status { (result ≡ status) ⊎ (result ≡ 74) }
    ensures written { Si.written sink.new ≡ Si.written sink.old }
    ensures flushed { result ≢ 74 → Si.flushed sink.new ≡ Si.written sink.new }
    ensures write { result ≢ status → Rose (Si.faults sink.old) (Si.faults sink.new) }
    ensures write_none { result ≢ 74 → Si.faults sink.new ≡ Si.faults sink.old }
{
    let Ok(()) = sink.flush() else {
        return NO_OUTPUT;
    };
    status
}

/// Runs a script over stored tables, or without any, and over a manager of its own.
fn run_script<R: Threads + Sync, So: Source, Si: Sink, Sp: Spill + Send>(
    rt: &R,
    alloc: Global,
    stored: Option<&Stored>,
    config: Config,
    opening: u32,
    source: &mut So,
    sink: &mut Si,
    stores: &mut Vec<Sp>,
) -> ScriptEnd
    requires opening { opening ≤ 100 }
    requires stores { vec_len stores.old ≡ 48 }
    ensures ends { IsTrusted (option_copied stored.entry) Sp.blocks stores.old.items → RunsScript result (asked_of (option_copied stored.entry)) config opening
        (source_view So.left So.taken So.ended source.old) (source_view So.left So.taken So.ended source.new) (Si.written sink.old) (Si.written sink.new)
        (map Sp.faults stores.old.items) (map Sp.faults stores.new.items) }
    ensures read { result ≡ ScriptEnd.ReadFault → Rose (So.faults source.old) (So.faults source.new) }
    ensures read_none { result ≢ ScriptEnd.ReadFault → So.faults source.new ≡ So.faults source.old }
    ensures write { result ≡ ScriptEnd.WriteFault → Rose (Si.faults sink.old) (Si.faults sink.new) }
    ensures write_none { result ≢ ScriptEnd.WriteFault → Si.faults sink.new ≡ Si.faults sink.old }
    ensures stores { AreStoresAfter Sp.blocks Sp.faults Sp.puts stores.old.items stores.new.items }
{
    let Some(mut manager) = manager_of(alloc, config) else {
        return ScriptEnd::Memory;
    };
    let end = script_in(
        rt,
        alloc,
        stored,
        &mut manager,
        opening,
        source,
        sink,
        stores,
    );
    drop(manager.end());
    end
}

/// Runs a script without tables, flushes the sink, and answers the status. Such a script runs no query, so that no store fails at its lines.
fn script_status<R: Threads + Sync, So: Source, Si: Sink, Sp: Spill + Send>(
    rt: &R,
    alloc: Global,
    config: Config,
    opening: u32,
    source: &mut So,
    sink: &mut Si,
    stores: &mut Vec<Sp>,
) -> u8
    requires opening { opening ≤ 100 }
    requires stores { vec_len stores.old ≡ 48 }
    ensures known { (IsWhole result) ⊎ (IsCutOff result) }
    ensures whole { (contents : Contents) → IsWhole result → RanWhole (Form.Script config opening) contents
        (source_view So.left So.taken So.ended source.old) (source_view So.left So.taken So.ended source.new) (Si.written sink.old) (Si.written sink.new)
        (stores_view Sp.blocks Sp.faults Sp.puts stores.old.items) (stores_view Sp.blocks Sp.faults Sp.puts stores.new.items) result }
    ensures part { (contents : Contents) → IsCutOff result → RanInPart (Form.Script config opening) contents
        (source_view So.left So.taken So.ended source.old) (source_view So.left So.taken So.ended source.new) (Si.written sink.old) (Si.written sink.new)
        (stores_view Sp.blocks Sp.faults Sp.puts stores.old.items) (stores_view Sp.blocks Sp.faults Sp.puts stores.new.items) }
    ensures ended { RunsToEnd result → IsTrue (So.ended source.new) }
    ensures flushed { IsWhole result → Si.flushed sink.new ≡ Si.written sink.new }
    ensures read { result ≡ 66 → Rose (So.faults source.old) (So.faults source.new) }
    ensures read_none { result ≢ 66 → So.faults source.new ≡ So.faults source.old }
    ensures write { result ≡ 74 → Rose (Si.faults sink.old) (Si.faults sink.new) }
    ensures write_none { result ≢ 74 → Si.faults sink.new ≡ Si.faults sink.old }
    ensures stores { AreStoresAfter Sp.blocks Sp.faults Sp.puts stores.old.items stores.new.items }
{
    match run_script(rt, alloc, None, config, opening, source, sink, stores) {
        ScriptEnd::End { store_failed: _ } => flushed(sink, DONE),
        ScriptEnd::BadScript => flushed(sink, DATA),
        ScriptEnd::ReadFault => NO_INPUT,
        ScriptEnd::WriteFault => NO_OUTPUT,
        ScriptEnd::Memory => NO_MEMORY,
    }
}

/// Writes a reply, flushes the sink, and answers the status.
fn write_reply<Si: Sink>(sink: &mut Si, reply: &Reply) -> u8
    ensures known { (result ≡ reply.now.status) ⊎ (result ≡ 74) }
    ensures whole { result ≢ 74 → Grows (Si.written sink.old) (Si.written sink.new) reply.now.text.items }
    ensures part { GrewSome (Si.written sink.old) (Si.written sink.new) reply.now.text.items }
    ensures flushed { result ≢ 74 → Si.flushed sink.new ≡ Si.written sink.new }
    ensures write { reply.now.status ≢ 74 → result ≡ 74 → Rose (Si.faults sink.old) (Si.faults sink.new) }
    ensures write_none { result ≢ 74 → Si.faults sink.new ≡ Si.faults sink.old }
{
    match write_all(sink, &reply.text) {
        Ok(()) => flushed(sink, reply.status),
        Err(_) => NO_OUTPUT,
    }
}

/// The status of a script over tables that came to its end.
fn end_status(store_failed: bool) -> u8
    ensures status { result ≡ (if store_failed then 70 else 0) }
{
    if store_failed { STORE_FAILED } else { DONE }
}

/// Runs a script over the tables that were loaded, flushes the sink, and answers the status.
fn loaded_script_status<R: Threads + Sync, So: Source, Si: Sink, Sp: Spill + Send>(
    rt: &R,
    alloc: Global,
    stored: &Stored,
    config: Config,
    opening: u32,
    source: &mut So,
    sink: &mut Si,
    stores: &mut Vec<Sp>,
) -> u8
    requires opening { opening ≤ 100 }
    requires stores { vec_len stores.old ≡ 48 }
    ensures known { (IsWhole result) ⊎ (IsCutOff result) }
    ensures whole { (contents : Contents) (schema : List ℕ) → FilesGive contents schema (Ok stored.now) → (stores_view Sp.blocks Sp.faults Sp.puts stores.old.items).told ≡ true →
        IsWhole result → RanWhole (Form.ScriptTables config opening schema) contents
        (source_view So.left So.taken So.ended source.old) (source_view So.left So.taken So.ended source.new) (Si.written sink.old) (Si.written sink.new)
        (stores_view Sp.blocks Sp.faults Sp.puts stores.old.items) (stores_view Sp.blocks Sp.faults Sp.puts stores.new.items) result }
    ensures part { (contents : Contents) (schema : List ℕ) → FilesGive contents schema (Ok stored.now) → (stores_view Sp.blocks Sp.faults Sp.puts stores.old.items).told ≡ true →
        IsCutOff result → RanInPart (Form.ScriptTables config opening schema) contents
        (source_view So.left So.taken So.ended source.old) (source_view So.left So.taken So.ended source.new) (Si.written sink.old) (Si.written sink.new)
        (stores_view Sp.blocks Sp.faults Sp.puts stores.old.items) (stores_view Sp.blocks Sp.faults Sp.puts stores.new.items) }
    ensures ended { RunsToEnd result → (stores_view Sp.blocks Sp.faults Sp.puts stores.old.items).told ≡ true → IsTrue (So.ended source.new) }
    ensures flushed { IsWhole result → Si.flushed sink.new ≡ Si.written sink.new }
    ensures read { result ≡ 66 → Rose (So.faults source.old) (So.faults source.new) }
    ensures read_none { result ≢ 66 → So.faults source.new ≡ So.faults source.old }
    ensures write { result ≡ 74 → Rose (Si.faults sink.old) (Si.faults sink.new) }
    ensures write_none { result ≢ 74 → Si.faults sink.new ≡ Si.faults sink.old }
    ensures stores { AreStoresAfter Sp.blocks Sp.faults Sp.puts stores.old.items stores.new.items }
{
    match run_script(
        rt,
        alloc,
        Some(stored),
        config,
        opening,
        source,
        sink,
        stores,
    ) {
        ScriptEnd::End { store_failed } => flushed(sink, end_status(store_failed)),
        ScriptEnd::BadScript => flushed(sink, DATA),
        ScriptEnd::ReadFault => NO_INPUT,
        ScriptEnd::WriteFault => NO_OUTPUT,
        ScriptEnd::Memory => NO_MEMORY,
    }
}

/// Loads the tables of a schema file and runs a script over them, flushes the sink, and answers the status.
fn script_tables_status<R: Threads + Sync, F: Files, So: Source, Si: Sink, Sp: Spill + Send>(
    rt: &R,
    alloc: Global,
    config: Config,
    opening: u32,
    schema: &str,
    files: &mut F,
    source: &mut So,
    sink: &mut Si,
    stores: &mut Vec<Sp>,
) -> u8
    requires opening { opening ≤ 100 }
    requires stores { vec_len stores.old ≡ 48 }
    ensures known { (IsWhole result) ⊎ (IsCutOff result) }
    ensures whole { IsWhole result → (stores_view Sp.blocks Sp.faults Sp.puts stores.old.items).told ≡ true → RanWhole (Form.ScriptTables config opening schema.now) (F.contents files.old)
        (source_view So.left So.taken So.ended source.old) (source_view So.left So.taken So.ended source.new) (Si.written sink.old) (Si.written sink.new)
        (stores_view Sp.blocks Sp.faults Sp.puts stores.old.items) (stores_view Sp.blocks Sp.faults Sp.puts stores.new.items) result }
    ensures part { IsCutOff result → (stores_view Sp.blocks Sp.faults Sp.puts stores.old.items).told ≡ true → RanInPart (Form.ScriptTables config opening schema.now) (F.contents files.old)
        (source_view So.left So.taken So.ended source.old) (source_view So.left So.taken So.ended source.new) (Si.written sink.old) (Si.written sink.new)
        (stores_view Sp.blocks Sp.faults Sp.puts stores.old.items) (stores_view Sp.blocks Sp.faults Sp.puts stores.new.items) }
    ensures ended { RunsToEnd result → (stores_view Sp.blocks Sp.faults Sp.puts stores.old.items).told ≡ true → IsTrue (So.ended source.new) }
    ensures flushed { IsWhole result → Si.flushed sink.new ≡ Si.written sink.new }
    ensures read { result ≡ 66 → Rose (So.faults source.old) (So.faults source.new) ⊎ Rose (F.faults files.old) (F.faults files.new) }
    ensures source_none { result ≢ 66 → So.faults source.new ≡ So.faults source.old }
    ensures files_none { result ≢ 66 → F.faults files.new ≡ F.faults files.old }
    ensures write { result ≡ 74 → Rose (Si.faults sink.old) (Si.faults sink.new) }
    ensures write_none { result ≢ 74 → Si.faults sink.new ≡ Si.faults sink.old }
    ensures stores { AreStoresAfter Sp.blocks Sp.faults Sp.puts stores.old.items stores.new.items }
{
    match load_tables(alloc, schema, files) {
        Ok(stored) => {
            loaded_script_status(rt, alloc, &stored, config, opening, source, sink, stores)
        }
        Err(Unloaded::Refused(text)) => write_reply(sink, &Reply { text, status: DATA }),
        Err(Unloaded::Failed) => NO_INPUT,
        Err(Unloaded::Memory) => NO_MEMORY,
    }
}

/// Answers a question on the plain table of the source, flushes the sink, and answers the status.
fn ask_status<R: Threads + Sync, So: Source, Si: Sink, Sp: Spill + Send>(
    rt: &R,
    alloc: Global,
    select: &[u8],
    source: &mut So,
    sink: &mut Si,
    stores: &mut Vec<Sp>,
) -> u8
    requires size { length select.now ≤ 8192 }
    requires stores { vec_len stores.old ≡ 48 }
    ensures known { (IsWhole result) ⊎ (IsCutOff result) }
    ensures whole { (contents : Contents) → IsWhole result → RanWhole (Form.Ask select.now) contents
        (source_view So.left So.taken So.ended source.old) (source_view So.left So.taken So.ended source.new) (Si.written sink.old) (Si.written sink.new)
        (stores_view Sp.blocks Sp.faults Sp.puts stores.old.items) (stores_view Sp.blocks Sp.faults Sp.puts stores.new.items) result }
    ensures part { (contents : Contents) → IsCutOff result → RanInPart (Form.Ask select.now) contents
        (source_view So.left So.taken So.ended source.old) (source_view So.left So.taken So.ended source.new) (Si.written sink.old) (Si.written sink.new)
        (stores_view Sp.blocks Sp.faults Sp.puts stores.old.items) (stores_view Sp.blocks Sp.faults Sp.puts stores.new.items) }
    ensures ended { RunsToEnd result → IsTrue (So.ended source.new) }
    ensures flushed { IsWhole result → Si.flushed sink.new ≡ Si.written sink.new }
    ensures read { result ≡ 66 → Rose (So.faults source.old) (So.faults source.new) }
    ensures read_none { result ≢ 66 → So.faults source.new ≡ So.faults source.old }
    ensures write { result ≡ 74 → Rose (Si.faults sink.old) (Si.faults sink.new) }
    ensures write_none { result ≢ 74 → Si.faults sink.new ≡ Si.faults sink.old }
    ensures stores { AreStoresAfter Sp.blocks Sp.faults Sp.puts stores.old.items stores.new.items }
{
    let bytes = match read_input(alloc, source) {
        Ok(bytes) => bytes,
        Err(InputFault::Failed) => return NO_INPUT,
        Err(InputFault::Memory) => return NO_MEMORY,
    };
    let asked = match question(alloc, select, bytes) {
        Ok(asked) => asked,
        Err(Memory) => return NO_MEMORY,
    };
    match reply_to(rt, alloc, asked, stores) {
        Ok(reply) => write_reply(sink, &reply),
        Err(Memory) => NO_MEMORY,
    }
}

/// Answers a question on the tables of a schema file, flushes the sink, and answers the status.
fn ask_tables_status<R: Threads + Sync, F: Files, Si: Sink, Sp: Spill + Send>(
    rt: &R,
    alloc: Global,
    select: &[u8],
    schema: &str,
    files: &mut F,
    sink: &mut Si,
    stores: &mut Vec<Sp>,
) -> u8
    requires size { length select.now ≤ 8192 }
    requires stores { vec_len stores.old ≡ 48 }
    ensures known { (IsWhole result) ⊎ (IsCutOff result) }
    ensures whole { (source : SourceView) → IsWhole result →
        RanWhole (Form.AskTables select.now schema.now) (F.contents files.old) source source (Si.written sink.old) (Si.written sink.new)
        (stores_view Sp.blocks Sp.faults Sp.puts stores.old.items) (stores_view Sp.blocks Sp.faults Sp.puts stores.new.items) result }
    ensures part { (source : SourceView) → IsCutOff result →
        RanInPart (Form.AskTables select.now schema.now) (F.contents files.old) source source (Si.written sink.old) (Si.written sink.new)
        (stores_view Sp.blocks Sp.faults Sp.puts stores.old.items) (stores_view Sp.blocks Sp.faults Sp.puts stores.new.items) }
    ensures flushed { IsWhole result → Si.flushed sink.new ≡ Si.written sink.new }
    ensures read { result ≡ 66 → Rose (F.faults files.old) (F.faults files.new) }
    ensures read_none { result ≢ 66 → F.faults files.new ≡ F.faults files.old }
    ensures write { result ≡ 74 → Rose (Si.faults sink.old) (Si.faults sink.new) }
    ensures write_none { result ≢ 74 → Si.faults sink.new ≡ Si.faults sink.old }
    ensures stores { AreStoresAfter Sp.blocks Sp.faults Sp.puts stores.old.items stores.new.items }
{
    let asked = match question_from_files(alloc, select, schema, files) {
        Ok(asked) => asked,
        Err(InputFault::Failed) => return NO_INPUT,
        Err(InputFault::Memory) => return NO_MEMORY,
    };
    match reply_to(rt, alloc, asked, stores) {
        Ok(reply) => write_reply(sink, &reply),
        Err(Memory) => NO_MEMORY,
    }
}

/// Makes so many sales, answers three queries over them, flushes the sink, and answers the status.
fn make_status<Si: Sink>(alloc: Global, count: u32, sink: &mut Si) -> u8
    requires few { count ≤ 1000000 }
    ensures known { (IsWhole result) ⊎ (IsCutOff result) }
    ensures whole { (contents : Contents) (source : SourceView) (stores0 stores : StoresView) → IsWhole result →
        RanWhole (Form.Make count) contents source source (Si.written sink.old) (Si.written sink.new) stores0 stores result }
    ensures part { (contents : Contents) (source : SourceView) (stores0 stores : StoresView) → IsCutOff result →
        RanInPart (Form.Make count) contents source source (Si.written sink.old) (Si.written sink.new) stores0 stores }
    ensures flushed { IsWhole result → Si.flushed sink.new ≡ Si.written sink.new }
    ensures read { result ≢ 66 }
    ensures write { result ≡ 74 → Rose (Si.faults sink.old) (Si.faults sink.new) }
    ensures write_none { result ≢ 74 → Si.faults sink.new ≡ Si.faults sink.old }
{
    match make_text(alloc, count) {
        Ok(text) => write_reply(sink, &Reply { text, status: DONE }),
        Err(Memory) => NO_MEMORY,
    }
}

/// Runs a command of this form.
fn run_form<R: Threads + Sync, F: Files, So: Source, Si: Sink, Sp: Spill + Send>(
    rt: &R,
    alloc: Global,
    form: Form,
    files: &mut F,
    source: &mut So,
    sink: &mut Si,
    stores: &mut Vec<Sp>,
) -> u8
    requires range { IsInRange form }
    requires stores { vec_len stores.old ≡ 48 }
    ensures known { (IsWhole result) ⊎ (IsCutOff result) }
    ensures whole { IsWhole result → WhereTold form (stores_view Sp.blocks Sp.faults Sp.puts stores.old.items) (RanWhole form (F.contents files.old)
        (source_view So.left So.taken So.ended source.old) (source_view So.left So.taken So.ended source.new) (Si.written sink.old) (Si.written sink.new)
        (stores_view Sp.blocks Sp.faults Sp.puts stores.old.items) (stores_view Sp.blocks Sp.faults Sp.puts stores.new.items) result) }
    ensures part { IsCutOff result → WhereTold form (stores_view Sp.blocks Sp.faults Sp.puts stores.old.items) (RanInPart form (F.contents files.old)
        (source_view So.left So.taken So.ended source.old) (source_view So.left So.taken So.ended source.new) (Si.written sink.old) (Si.written sink.new)
        (stores_view Sp.blocks Sp.faults Sp.puts stores.old.items) (stores_view Sp.blocks Sp.faults Sp.puts stores.new.items)) }
    ensures ended { RunsToEnd result → HasEnded form (stores_view Sp.blocks Sp.faults Sp.puts stores.old.items) (So.ended source.new) }
    ensures untouched { LeavesUnread form (source_view So.left So.taken So.ended source.old) (source_view So.left So.taken So.ended source.new) }
    ensures flushed { IsWhole result → Si.flushed sink.new ≡ Si.written sink.new }
    ensures faults { TellsFaults result (record { source = So.faults source.old; files = F.faults files.old; sink = Si.faults sink.old })
        (record { source = So.faults source.new; files = F.faults files.new; sink = Si.faults sink.new }) }
    ensures stores { AreStoresAfter Sp.blocks Sp.faults Sp.puts stores.old.items stores.new.items }
{
    match form {
        Form::Script { config, opening } => {
            script_status(rt, alloc, config, opening, source, sink, stores)
        }
        Form::ScriptTables {
            config,
            opening,
            schema,
        } => {
            let schema = schema.as_str();
            script_tables_status(
                rt, alloc, config, opening, schema, files, source, sink, stores,
            )
        }
        Form::Ask(select) => ask_status(rt, alloc, select.bytes(), source, sink, stores),
        Form::AskTables { select, schema } => {
            let schema = schema.as_str();
            ask_tables_status(rt, alloc, select.bytes(), schema, files, sink, stores)
        }
        Form::Make(count) => make_status(alloc, count, sink),
    }
}

/// Runs the command that the words ask for, from the source to the sink, and answers the status of the program.
///
/// The words are those after the program's name, and the stores are 48, which come back as many. Today there are five forms.
/// `script T Q S m p` runs the lines of the source: DS_TOTAL_MEMORY in KB, DS_MAX_QUERIES, DS_MAX_SCANS, MAX_PDQPRIORITY and the
/// opening priority, each a number of 1 to 7 digits without a leading zero, or 0; DS_NONPDQ_QUERY_MEM is 128 KB at first.
/// `script T Q S m p SCHEMA` runs them over the tables of the schema file of that name, which are loaded first as `ask` loads them.
/// `ask SELECT` answers the select over the plain table of the source. `ask SELECT SCHEMA` answers it over the tables of the
/// schema file of that name: the schema file is read and understood, then the file of each table is read in the order of the
/// schema, up to the first that is too long, then the tables are loaded, and then the select is read. `make N` makes N sales, 1 to
/// 1,000,000, and their shops, and writes the first and the last row of three answers over them; neither files nor the source are
/// read. The statuses are our own, after those of sysexits.
pub fn run<R: Threads + Sync, F: Files, So: Source, Si: Sink, Sp: Spill + Send>(
    rt: &R,
    alloc: Global,
    words: &[String],
    files: &mut F,
    source: &mut So,
    sink: &mut Si,
    stores: &mut Vec<Sp>,
) -> u8
    requires stores { vec_len stores.old ≡ 48 }

    ensures known { IsStatus result }

    // 64 exactly where the words have no form, or a number is out of range; then nothing was read or written.
    ensures form { (result ≡ 64) ↔ (form_of (map string_bytes words.now) ≡ None) }
    ensures unread { result ≡ 64 → So.taken source.new ≡ So.taken source.old }
    ensures files_unread { result ≡ 64 → files.new ≡ files.old }
    ensures unwritten { result ≡ 64 → Si.written sink.new ≡ Si.written sink.old }

    // With 0, 65 and 70 what was written and the status are those of the words, of the files and of the bytes that the source gave,
    // all of them with 0 and 70. The rows of a question are its answer where the stores tell their blocks, and with 70 a store failed.
    // Of a script over tables this is said where the stores tell their blocks; it ends with 70 exactly where a store failed at a line.
    // A form that does not read the source leaves it as it was.
    ensures whole { IsWhole result → IfSome (form_of (map string_bytes words.now)) (λ form. WhereTold form (stores_view Sp.blocks Sp.faults Sp.puts stores.old.items) (RanWhole form (F.contents files.old)
        (source_view So.left So.taken So.ended source.old) (source_view So.left So.taken So.ended source.new) (Si.written sink.old) (Si.written sink.new)
        (stores_view Sp.blocks Sp.faults Sp.puts stores.old.items) (stores_view Sp.blocks Sp.faults Sp.puts stores.new.items) result)) }
    ensures ended { RunsToEnd result → IfSome (form_of (map string_bytes words.now)) (λ form. HasEnded form (stores_view Sp.blocks Sp.faults Sp.puts stores.old.items) (So.ended source.new)) }
    ensures untouched { IfSome (form_of (map string_bytes words.now)) (λ form.
        LeavesUnread form (source_view So.left So.taken So.ended source.old) (source_view So.left So.taken So.ended source.new)) }

    // What was written before a fault, or before memory was wanting, begins what would have been written without it.
    ensures part { IsCutOff result → IfSome (form_of (map string_bytes words.now)) (λ form. WhereTold form (stores_view Sp.blocks Sp.faults Sp.puts stores.old.items) (RanInPart form (F.contents files.old)
        (source_view So.left So.taken So.ended source.old) (source_view So.left So.taken So.ended source.new) (Si.written sink.old) (Si.written sink.new)
        (stores_view Sp.blocks Sp.faults Sp.puts stores.old.items) (stores_view Sp.blocks Sp.faults Sp.puts stores.new.items))) }

    // Whatever the lines, the manager keeps its rules after each of them, and the printed lines keep its limits.
    ensures lawful { IfSome (form_of (map string_bytes words.now)) KeepsItsRules }

    // With 0, 65 and 70 all that was written was handed on.
    ensures flushed { IsWhole result → Si.flushed sink.new ≡ Si.written sink.new }

    // 66 exactly where the count of the source or of the files rose, and 74 exactly where that of the sink did; the first fault that
    // comes is told, so no other count rose.
    ensures faults { TellsFaults result (record { source = So.faults source.old; files = F.faults files.old; sink = Si.faults sink.old })
        (record { source = So.faults source.new; files = F.faults files.new; sink = Si.faults sink.new }) }

    // The stores come back, each in its place.
    ensures stores_back { vec_len stores.new ≡ 48 }
    ensures stores_faults { NoneFell (map Sp.faults stores.old.items) (map Sp.faults stores.new.items) }
    ensures stores_puts { NoneFell (map Sp.puts stores.old.items) (map Sp.puts stores.new.items) }
{
    let form = match read_words(alloc, words) {
        Ok(form) => form,
        Err(_) => return NO_MEMORY,
    };
    let Some(form) = form else {
        return USAGE;
    };
    run_form(rt, alloc, form, files, source, sink, stores)
}
