//! Scripts: lines that are run on the manager one after another.
ghost use Rattle.std.specs.Prelude.{◌≡◌, ◌≢◌, ◌<◌, ◌≤◌, ◌++◌, [], IfOk, None, true, IsTrue, OnErr, OnOk, length, map};
ghost use Rattle.std.specs.Option.{option_copied};
ghost use Rattle.pdq_edge.specs.Bytes.{Grows, GrewSome};
ghost use Rattle.pdq_edge.specs.Causes.{HasCause, Rose};
ghost use Rattle.pdq_sql.specs.LineReading.{has_no_end};
ghost use Rattle.pdq_exec.specs.Runs.{AreStoresAfter};
ghost use Rattle.pdq_session.specs.Progress.{progress, source_view, stores_told, Answers, Concludes, EndsOn, IsGoing, Refuses, RefusesUnread, Turns};
ghost use Rattle.pdq_reply.specs.Reading.{decided};
ghost use Rattle.pdq_reply.specs.Replies.{end_text, session_text};
ghost use Rattle.pdq_session.specs.ScriptStates.{asked_of, opening_kept, AreScannable, own_session, script_state, starting_state, IsFresh, IsReady, IsTrusted};
ghost use Rattle.pdq_session.specs.ScriptTranscript.{script_transcript};

use crate::script_lines::{Unread, read_script_line};
use crate::script_running::run_line;
use crate::script_sessions::{ScriptSessions, know_tables};
use pdq_edge::{Failed, Sink, Source, Spill, write_all};
use pdq_gate::Manager;
use pdq_reply::{LineFault, LineOutcome, LineReader, add_end, add_fault, add_session};
use pdq_table::Stored;
use std::alloc::{AllocError, Global};
use std::thread::Threads;

/// How a script ends.
#[derive(Clone, Copy, Debug, PartialEq, Eq)]
pub enum ScriptEnd {
    /// The script ran to the end of its input. `store_failed` says that a query was answered with the failure of a
    /// store.
    End { store_failed: bool },
    /// A line was refused so that the script ended; its ERROR line was written last.
    BadScript,
    /// The source failed; its count of faults rose.
    ReadFault,
    /// The sink failed; its count of faults rose.
    WriteFault,
    /// Want of memory.
    Memory,
}

/// How a part of a script ends.
#[derive(Clone, Copy)]
enum Turn {
    /// The script goes on.
    On,
    /// The input has ended, and all its lines were answered.
    End,
    /// A line was refused, and all was written.
    Bad,
    ReadFault,
    WriteFault,
    Memory,
}

/// Writes the replies that are ready.
fn write_ready<Si: Sink>(replies: &mut Vec<u8>, sink: &mut Si) -> Result<(), Failed>
    ensures written { OnOk result (Grows (Si.written sink.old) (Si.written sink.new) replies.old.items) }
    ensures none { OnOk result (replies.new.items ≡ []) }
    ensures part { OnErr result (GrewSome (Si.written sink.old) (Si.written sink.new) replies.old.items) }
    ensures cause { HasCause (Si.faults sink.old) (Si.faults sink.new) result }
{
    write_all(sink, replies)?;
    replies.clear();
    Ok(())
}

/// Writes the line of a fault behind the replies that are ready.
fn refuse<Si: Sink>(alloc: Global, replies: &mut Vec<u8>, fault: LineFault, sink: &mut Si) -> Turn
    ensures refuses { Refuses result fault (Si.written sink.old) (Si.written sink.new) replies.old.items }
    ensures no_read { result ≢ Turn.ReadFault }
    ensures write { result ≡ Turn.WriteFault → Rose (Si.faults sink.old) (Si.faults sink.new) }
    ensures write_none { result ≢ Turn.WriteFault → Si.faults sink.new ≡ Si.faults sink.old }
{
    let Ok(()) = add_fault(alloc, replies, fault) else {
        return Turn::Memory;
    };
    let Ok(()) = write_ready(replies, sink) else {
        return Turn::WriteFault;
    };
    Turn::Bad
}

/// Answers a line that is not run.
fn refuse_unread<Si: Sink>(
    alloc: Global,
    replies: &mut Vec<u8>,
    unread: Unread,
    sink: &mut Si,
) -> Turn
    ensures refuses { RefusesUnread result unread (Si.written sink.old) (Si.written sink.new) replies.old.items }
    ensures on { result ≢ Turn.On }
    ensures no_read { result ≢ Turn.ReadFault }
    ensures write { result ≡ Turn.WriteFault → Rose (Si.faults sink.old) (Si.faults sink.new) }
    ensures write_none { result ≢ Turn.WriteFault → Si.faults sink.new ≡ Si.faults sink.old }
{
    match unread {
        Unread::Fault(fault) => refuse(alloc, replies, fault, sink),
        Unread::Memory => Turn::Memory,
    }
}

/// Answers the line that the reader has given.
fn answer_line<R: Threads + Sync, Si: Sink, Sp: Spill + Send>(
    rt: &R,
    alloc: Global,
    manager: &mut Manager,
    sessions: &mut ScriptSessions,
    reader: &LineReader,
    replies: &mut Vec<u8>,
    sink: &mut Si,
    stores: &mut Vec<Sp>,
) -> Turn
    requires stores { length stores.old.items ≡ 48 }
    requires size { length reader.now.line ≤ 8192 }
    requires line { IsTrue (has_no_end reader.now.line) }
    requires ready { IsReady (script_state manager.old sessions.old) }
    ensures answers { IsTrusted sessions.old.stored Sp.blocks stores.old.items → Answers result reader.now.line reader.now.last (Si.written sink.old) (Si.written sink.new)
        (progress (script_state manager.old sessions.old) reader.now replies.old.items (stores_told Sp.faults stores.old.items sessions.old.store_failed)) (progress (script_state manager.new sessions.new) reader.now replies.new.items (stores_told Sp.faults stores.new.items sessions.new.store_failed)) }
    ensures no_read { result ≢ Turn.ReadFault }
    ensures ready { result ≡ Turn.On → IsReady (script_state manager.new sessions.new) }
    ensures tables { sessions.new.stored ≡ sessions.old.stored }
    ensures stores { AreStoresAfter Sp.blocks Sp.faults Sp.puts stores.old.items stores.new.items }
    ensures opening { manager.new.opening ≡ manager.old.opening }
    ensures write { result ≡ Turn.WriteFault → Rose (Si.faults sink.old) (Si.faults sink.new) }
    ensures write_none { result ≢ Turn.WriteFault → Si.faults sink.new ≡ Si.faults sink.old }
{
    let line = match read_script_line(alloc, sessions, reader.line()) {
        Ok(line) => line,
        Err(unread) => return refuse_unread(alloc, replies, unread, sink),
    };
    let Ok(failed) = run_line(rt, alloc, manager, sessions, replies, line, stores) else {
        return Turn::Memory;
    };
    sessions.note(failed);
    if reader.is_last() {
        Turn::End
    } else {
        Turn::On
    }
}

/// Takes the next line and answers it.
fn next_turn<R: Threads + Sync, So: Source, Si: Sink, Sp: Spill + Send>(
    rt: &R,
    alloc: Global,
    manager: &mut Manager,
    sessions: &mut ScriptSessions,
    reader: &mut LineReader,
    replies: &mut Vec<u8>,
    source: &mut So,
    sink: &mut Si,
    stores: &mut Vec<Sp>,
) -> Turn
    requires stores { length stores.old.items ≡ 48 }
    requires going { IsGoing (progress (script_state manager.old sessions.old) reader.old replies.old.items (stores_told Sp.faults stores.old.items sessions.old.store_failed)) }
    ensures turns { IsTrusted sessions.old.stored Sp.blocks stores.old.items → Turns result (source_view So.left So.taken So.ended source.old) (source_view So.left So.taken So.ended source.new)
        (Si.written sink.old) (Si.written sink.new) (progress (script_state manager.old sessions.old) reader.old replies.old.items (stores_told Sp.faults stores.old.items sessions.old.store_failed)) (progress (script_state manager.new sessions.new) reader.new replies.new.items (stores_told Sp.faults stores.new.items sessions.new.store_failed)) }
    ensures going { result ≡ Turn.On → IsGoing (progress (script_state manager.new sessions.new) reader.new replies.new.items (stores_told Sp.faults stores.new.items sessions.new.store_failed)) }
    ensures more { result ≡ Turn.On → reader.old.given < reader.new.given }
    ensures tables { sessions.new.stored ≡ sessions.old.stored }
    ensures stores { AreStoresAfter Sp.blocks Sp.faults Sp.puts stores.old.items stores.new.items }
    ensures opening { manager.new.opening ≡ manager.old.opening }
    ensures sure { result ≡ Turn.ReadFault → decided reader.old.given reader.old.buffered ≡ None }
    ensures kept { result ≡ Turn.ReadFault → replies.new.items ≡ replies.old.items }
    ensures read { result ≡ Turn.ReadFault → Rose (So.faults source.old) (So.faults source.new) }
    ensures read_none { result ≢ Turn.ReadFault → So.faults source.new ≡ So.faults source.old }
    ensures write { result ≡ Turn.WriteFault → Rose (Si.faults sink.old) (Si.faults sink.new) }
    ensures write_none { result ≢ Turn.WriteFault → Si.faults sink.new ≡ Si.faults sink.old }
{
    match reader.next_line(source) {
        LineOutcome::Line => answer_line(
            rt, alloc, manager, sessions, reader, replies, sink, stores,
        ),
        LineOutcome::End => Turn::End,
        LineOutcome::LineTooLong => refuse(alloc, replies, LineFault::LineTooLong, sink),
        LineOutcome::InputTooLong => refuse(alloc, replies, LineFault::InputTooLong, sink),
        LineOutcome::Failed => Turn::ReadFault,
    }
}

/// Takes the next line and answers it. What is ready is written before the source is read.
fn take_line<R: Threads + Sync, So: Source, Si: Sink, Sp: Spill + Send>(
    rt: &R,
    alloc: Global,
    manager: &mut Manager,
    sessions: &mut ScriptSessions,
    reader: &mut LineReader,
    replies: &mut Vec<u8>,
    source: &mut So,
    sink: &mut Si,
    stores: &mut Vec<Sp>,
) -> Turn
    requires stores { length stores.old.items ≡ 48 }
    requires going { IsGoing (progress (script_state manager.old sessions.old) reader.old replies.old.items (stores_told Sp.faults stores.old.items sessions.old.store_failed)) }
    ensures turns { IsTrusted sessions.old.stored Sp.blocks stores.old.items → Turns result (source_view So.left So.taken So.ended source.old) (source_view So.left So.taken So.ended source.new)
        (Si.written sink.old) (Si.written sink.new) (progress (script_state manager.old sessions.old) reader.old replies.old.items (stores_told Sp.faults stores.old.items sessions.old.store_failed)) (progress (script_state manager.new sessions.new) reader.new replies.new.items (stores_told Sp.faults stores.new.items sessions.new.store_failed)) }
    ensures going { result ≡ Turn.On → IsGoing (progress (script_state manager.new sessions.new) reader.new replies.new.items (stores_told Sp.faults stores.new.items sessions.new.store_failed)) }
    ensures more { result ≡ Turn.On → reader.old.given < reader.new.given }
    ensures tables { sessions.new.stored ≡ sessions.old.stored }
    ensures stores { AreStoresAfter Sp.blocks Sp.faults Sp.puts stores.old.items stores.new.items }
    ensures opening { manager.new.opening ≡ manager.old.opening }
    ensures ready { result ≡ Turn.ReadFault → replies.new.items ≡ [] }
    ensures read { result ≡ Turn.ReadFault → Rose (So.faults source.old) (So.faults source.new) }
    ensures read_none { result ≢ Turn.ReadFault → So.faults source.new ≡ So.faults source.old }
    ensures write { result ≡ Turn.WriteFault → Rose (Si.faults sink.old) (Si.faults sink.new) }
    ensures write_none { result ≢ Turn.WriteFault → Si.faults sink.new ≡ Si.faults sink.old }
{
    if reader.has_line() {
        return next_turn(
            rt, alloc, manager, sessions, reader, replies, source, sink, stores,
        );
    }
    let Ok(()) = write_ready(replies, sink) else {
        return Turn::WriteFault;
    };
    next_turn(
        rt, alloc, manager, sessions, reader, replies, source, sink, stores,
    )
}

/// Runs the lines of the source, up to its end or to one that is refused.
fn run_lines<R: Threads + Sync, So: Source, Si: Sink, Sp: Spill + Send>(
    rt: &R,
    alloc: Global,
    manager: &mut Manager,
    sessions: &mut ScriptSessions,
    reader: &mut LineReader,
    replies: &mut Vec<u8>,
    source: &mut So,
    sink: &mut Si,
    stores: &mut Vec<Sp>,
) -> Turn
    requires stores { length stores.old.items ≡ 48 }
    requires going { IsGoing (progress (script_state manager.old sessions.old) reader.old replies.old.items (stores_told Sp.faults stores.old.items sessions.old.store_failed)) }
    ensures turns { IsTrusted sessions.old.stored Sp.blocks stores.old.items → Turns result (source_view So.left So.taken So.ended source.old) (source_view So.left So.taken So.ended source.new)
        (Si.written sink.old) (Si.written sink.new) (progress (script_state manager.old sessions.old) reader.old replies.old.items (stores_told Sp.faults stores.old.items sessions.old.store_failed)) (progress (script_state manager.new sessions.new) reader.new replies.new.items (stores_told Sp.faults stores.new.items sessions.new.store_failed)) }
    ensures stops { result ≢ Turn.On }
    ensures tables { sessions.new.stored ≡ sessions.old.stored }
    ensures stores { AreStoresAfter Sp.blocks Sp.faults Sp.puts stores.old.items stores.new.items }
    ensures opening { manager.new.opening ≡ manager.old.opening }
    ensures ready { result ≡ Turn.ReadFault → replies.new.items ≡ [] }
    ensures read { result ≡ Turn.ReadFault → Rose (So.faults source.old) (So.faults source.new) }
    ensures read_none { result ≢ Turn.ReadFault → So.faults source.new ≡ So.faults source.old }
    ensures write { result ≡ Turn.WriteFault → Rose (Si.faults sink.old) (Si.faults sink.new) }
    ensures write_none { result ≢ Turn.WriteFault → Si.faults sink.new ≡ Si.faults sink.old }
{
    'lines: loop {
        let turn = take_line(
            rt, alloc, manager, sessions, reader, replies, source, sink, stores,
        );
        let Turn::On = turn else {
            return turn;
        };
    }
}

/// Writes the last line of a script behind the replies that are ready.
fn conclude<Si: Sink>(
    alloc: Global,
    manager: &Manager,
    sessions: &ScriptSessions,
    replies: &mut Vec<u8>,
    sink: &mut Si,
) -> ScriptEnd
    ensures concludes { Concludes result sessions.now.store_failed (Si.written sink.old) (Si.written sink.new) (replies.old.items ++ end_text manager.now.state) }
    ensures write { result ≡ ScriptEnd.WriteFault → Rose (Si.faults sink.old) (Si.faults sink.new) }
    ensures write_none { result ≢ ScriptEnd.WriteFault → Si.faults sink.new ≡ Si.faults sink.old }
{
    let step = manager.step();
    let reserved = manager.reserved_quanta();
    let scans = manager.scans_in_use();
    let waiting = manager.waiting();
    let Ok(()) = add_end(alloc, replies, step, reserved, scans, waiting) else {
        return ScriptEnd::Memory;
    };
    let Ok(()) = write_ready(replies, sink) else {
        return ScriptEnd::WriteFault;
    };
    ScriptEnd::End {
        store_failed: sessions.store_failed(),
    }
}

/// Opens the script's own session.
fn start(
    alloc: Global,
    manager: &mut Manager,
    sessions: &ScriptSessions,
    replies: &mut Vec<u8>,
    opening: u32,
) -> Result<(), AllocError>
    requires fresh { IsFresh manager.old }
    requires sessions { sessions.now ≡ opening_kept sessions.now.stored opening }
    requires wide { AreScannable (asked_of sessions.now.stored) }
    requires opening { opening ≤ 100 }
    ensures state { script_state manager.new sessions.now ≡ starting_state (asked_of sessions.now.stored) manager.old.opening opening }
    ensures ready { IsReady (script_state manager.new sessions.now) }
    ensures replies { OnOk result (replies.new.items ≡ replies.old.items ++ session_text own_session true manager.new.state.entries) }
    ensures opening { manager.new.opening ≡ manager.old.opening }
{
    match manager.open_session(true) {
        Ok(opened) => add_session(alloc, replies, opened.session, true, opened.step),
        Err(_) => unreachable!(),
    }
}

/// Runs the source as a script on a manager that has no entry, over stored tables or none, and writes its transcript to the sink. The
/// priority of a session is `opening` percent at first. Queries overflow into the 48 stores. Replies are written before the source is read
/// again. The sink is not flushed.
///
/// The journal of the manager gets the entries of the transcript's lines, each with its event and its reply: all of them
/// where the script ran to its end or to a refused line, those of the lines that were answered where the source failed,
/// and else the first of them; for want of memory the end of the query that then ran, as failed, may come behind them.
pub fn script_in<R: Threads + Sync, So: Source, Si: Sink, Sp: Spill + Send>(
    rt: &R,
    alloc: Global,
    stored: Option<&Stored>,
    manager: &mut Manager,
    opening: u32,
    source: &mut So,
    sink: &mut Si,
    stores: &mut Vec<Sp>,
) -> ScriptEnd
    requires fresh { IsFresh manager.old }
    requires opening { opening ≤ 100 }
    requires stores { length stores.old.items ≡ 48 }

    // The whole transcript was written and all its entries were made, or what was written before a fault begins it, and the
    // entries that were made begin its entries. Before the source is read, all that its lines so far are answered was written.
    // Over tables this is said where the stores tell their blocks.
    ensures ends { IsTrusted (option_copied stored.entry) Sp.blocks stores.old.items → EndsOn result (source_view So.left So.taken So.ended source.old) (source_view So.left So.taken So.ended source.new)
        (Si.written sink.old) (Si.written sink.new) (map Sp.faults stores.old.items) (map Sp.faults stores.new.items) (script_transcript (asked_of (option_copied stored.entry)) manager.old.opening opening) manager.new (option_copied stored.entry) }
    ensures opening { manager.new.opening ≡ manager.old.opening }

    // A fault is answered exactly where the count of source or sink rose.
    ensures read { result ≡ ScriptEnd.ReadFault → Rose (So.faults source.old) (So.faults source.new) }
    ensures read_none { result ≢ ScriptEnd.ReadFault → So.faults source.new ≡ So.faults source.old }
    ensures write { result ≡ ScriptEnd.WriteFault → Rose (Si.faults sink.old) (Si.faults sink.new) }
    ensures write_none { result ≢ ScriptEnd.WriteFault → Si.faults sink.new ≡ Si.faults sink.old }

    // The stores stand in their places; no count of theirs fell.
    ensures stores { AreStoresAfter Sp.blocks Sp.faults Sp.puts stores.old.items stores.new.items }
{
    let Ok(mut reader) = LineReader::new(alloc) else {
        return ScriptEnd::Memory;
    };
    know_tables(stored);
    let Ok(mut sessions) = ScriptSessions::new(alloc, opening, stored) else {
        return ScriptEnd::Memory;
    };
    let mut replies = Vec::new(alloc);
    let Ok(()) = start(alloc, manager, &sessions, &mut replies, opening) else {
        return ScriptEnd::Memory;
    };
    match run_lines(
        rt,
        alloc,
        manager,
        &mut sessions,
        &mut reader,
        &mut replies,
        source,
        sink,
        stores,
    ) {
        Turn::On => unreachable!(),
        Turn::End => conclude(alloc, manager, &sessions, &mut replies, sink),
        Turn::Bad => ScriptEnd::BadScript,
        Turn::ReadFault => ScriptEnd::ReadFault,
        Turn::WriteFault => ScriptEnd::WriteFault,
        Turn::Memory => ScriptEnd::Memory,
    }
}
