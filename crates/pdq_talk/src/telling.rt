//! What is written to the client, line by line, and how writing breaks.
ghost use Rattle.std.specs.Prelude.{◌≡◌, ◌++◌, ℕ, List, Option, IfOk, IfSome, IsOk, OnOk};
ghost use Rattle.pdq_talk.specs.Writing.{Wrote, last_text};
ghost use Rattle.pdq_talk.specs.Lines.{evaluated_text, reply_text};
ghost use Rattle.pdq_talk.specs.Texts.{granted_text, not_now_text, refused_text};
ghost use Rattle.pdq_reply.specs.Answers.{refused_select};
ghost use Rattle.pdq_reply.specs.Replies as text;

use crate::replied::{Evaluated, Ran, Replied};
use pdq_base::Memory;
use pdq_edge::{Sink, write_all};
use pdq_model::Why;
use pdq_reply::{
    Refusal, add_cancelled, add_changed, add_closed, add_done, add_failed, add_flagged,
    add_pending, add_placed, add_priority, add_refusal, add_refused_select, add_session,
    add_stopped, add_withdrawn,
};
use pdq_sql::SqlFault;
use std::alloc::{AllocError, Global};

/// Why a session ends before its input does.
#[derive(Clone, Copy, Debug, PartialEq, Eq)]
pub enum Break {
    /// The source failed.
    Read,
    /// The sink failed.
    Write,
    /// There was no memory.
    Memory,
}

fn send<Si: Sink>(sink: &mut Si, bytes: &[u8]) -> Result<(), Break>
    ensures wrote { Wrote (Si.written sink.old) (Si.written sink.new) (Si.faults sink.old) (Si.faults sink.new) result bytes.now }
{
    if write_all(sink, bytes).is_err() {
        return Err(Break::Write);
    }
    match sink.flush() {
        Ok(()) => Ok(()),
        Err(_) => Err(Break::Write),
    }
}

/// Writes a line and flushes it, where nothing broke before.
pub fn put<Si: Sink>(sink: &mut Si, told: Result<(), Break>, bytes: &[u8]) -> Result<(), Break>
    ensures wrote { (before : Option (List ℕ)) (faults : ℕ) (so_far : List ℕ) → Wrote before (Si.written sink.old) faults (Si.faults sink.old) told so_far
        → Wrote before (Si.written sink.new) faults (Si.faults sink.new) result (so_far ++ bytes.now) }
    ensures kept { IsOk result → IsOk told }
{
    match told {
        Ok(()) => send(sink, bytes),
        Err(cause) => Err(cause),
    }
}

/// The same of a line that there may have been no memory for.
pub fn tell<Si: Sink>(
    sink: &mut Si,
    told: Result<(), Break>,
    bytes: Result<Vec<u8>, Memory>,
) -> Result<(), Break>
    ensures wrote { (before : Option (List ℕ)) (faults : ℕ) (so_far more : List ℕ) → IfOk bytes (λ v. v.items ≡ more) → Wrote before (Si.written sink.old) faults (Si.faults sink.old) told so_far
        → Wrote before (Si.written sink.new) faults (Si.faults sink.new) result (so_far ++ more) }
    ensures kept { IsOk result → IsOk told }
{
    match bytes {
        Ok(bytes) => put(sink, told, &bytes),
        Err(_) => match told {
            Ok(()) => Err(Break::Memory),
            Err(cause) => Err(cause),
        },
    }
}

/// Adds the line of a query that was collected and is active.
fn add_granted(
    alloc: Global,
    out: &mut Vec<u8>,
    id: u32,
    step: u64,
    quanta: u32,
    scans: u32,
) -> Result<(), AllocError>
    ensures text { OnOk result (out.new.items ≡ out.old.items ++ granted_text id step quanta scans) }
{
    let text = format!(in alloc; "GRANTED {id} STEP {step} QUANTA {quanta} SCANS {scans}\n")?;
    out.extend_from_slice(text.as_bytes())
}

/// The line of a query that was collected and is active.
///
/// # Errors
/// `Memory` where it is wanting.
pub fn granted_bytes(
    alloc: Global,
    id: u32,
    step: u64,
    quanta: u32,
    scans: u32,
) -> Result<Vec<u8>, Memory>
    ensures text { IfOk result (λ v. v.items ≡ granted_text id step quanta scans) }
{
    let mut text = Vec::new(alloc);
    match add_granted(alloc, &mut text, id, step, quanta, scans) {
        Ok(()) => Ok(text),
        Err(_) => Err(Memory),
    }
}

/// The line of a query that was placed.
///
/// # Errors
/// `Memory` where it is wanting.
pub fn placed_bytes(
    alloc: Global,
    id: u32,
    step: u64,
    priority: u32,
    gate: u32,
) -> Result<Vec<u8>, Memory>
    ensures text { IfOk result (λ v. v.items ≡ text.placed_text id step priority gate) }
{
    let mut text = Vec::new(alloc);
    match add_placed(alloc, &mut text, id, step, priority, gate) {
        Ok(()) => Ok(text),
        Err(_) => Err(Memory),
    }
}

/// The line of a query that was cancelled while it waited.
///
/// # Errors
/// `Memory` where it is wanting.
pub fn cancelled_bytes(alloc: Global, id: u32, step: u64, by: u64) -> Result<Vec<u8>, Memory>
    ensures text { IfOk result (λ v. v.items ≡ text.cancelled_text id step by) }
{
    let mut text = Vec::new(alloc);
    match add_cancelled(alloc, &mut text, id, step, by) {
        Ok(()) => Ok(text),
        Err(_) => Err(Memory),
    }
}

/// The line of a session that was closed.
///
/// # Errors
/// `Memory` where it is wanting.
pub fn closed_bytes(alloc: Global, session: u32, step: u64) -> Result<Vec<u8>, Memory>
    ensures text { IfOk result (λ v. v.items ≡ text.closed_text session step) }
{
    let mut text = Vec::new(alloc);
    match add_closed(alloc, &mut text, session, step) {
        Ok(()) => Ok(text),
        Err(_) => Err(Memory),
    }
}

fn add_last(alloc: Global, out: &mut Vec<u8>, id: u32, ran: &Ran) -> Result<(), AllocError>
    ensures text { OnOk result (out.new.items ≡ out.old.items ++ last_text id ran.now) }
{
    match ran {
        Ran::Ended(Evaluated::Rows(_), step) => add_done(alloc, out, id, *step),
        Ran::Ended(_, step) => add_failed(alloc, out, id, *step),
        Ran::WasStopped(step, by) => add_stopped(alloc, out, id, *step, *by),
    }
}

/// The last line of a granted query.
///
/// # Errors
/// `Memory` where it is wanting.
pub fn last_bytes(alloc: Global, id: u32, ran: &Ran) -> Result<Vec<u8>, Memory>
    ensures text { IfOk result (λ v. v.items ≡ last_text id ran.now) }
{
    let mut text = Vec::new(alloc);
    match add_last(alloc, &mut text, id, ran) {
        Ok(()) => Ok(text),
        Err(_) => Err(Memory),
    }
}

/// The lines of an evaluation.
pub fn evaluated_bytes(evaluated: &Evaluated) -> &[u8]
    ensures text { result.now ≡ evaluated_text evaluated.now }
{
    match evaluated {
        Evaluated::Rows(rows) => rows,
        Evaluated::TooManyRows => b"ERROR 23 too many rows\n",
        Evaluated::StoreFailed => b"ERROR 16 overflow store failed\n",
        Evaluated::NoMemory => b"ERROR 17 want of memory\n",
    }
}

fn add_refused(alloc: Global, out: &mut Vec<u8>, why: Why, step: u64) -> Result<(), AllocError>
    ensures text { OnOk result (out.new.items ≡ out.old.items ++ refused_text why step) }
{
    add_refusal(alloc, out, Refusal::Manager(why), step)
}

/// The line of a refusal by the manager.
///
/// # Errors
/// `Memory` where it is wanting.
pub fn refused_bytes(alloc: Global, why: Why, step: u64) -> Result<Vec<u8>, Memory>
    ensures text { IfOk result (λ v. v.items ≡ refused_text why step) }
{
    let mut text = Vec::new(alloc);
    match add_refused(alloc, &mut text, why, step) {
        Ok(()) => Ok(text),
        Err(_) => Err(Memory),
    }
}

fn add_error(alloc: Global, out: &mut Vec<u8>, fault: SqlFault) -> Result<(), AllocError>
    ensures text { OnOk result (out.new.items ≡ out.old.items ++ refused_select fault) }
{
    match add_refused_select(alloc, out, fault) {
        Ok(()) => Ok(()),
        Err(_) => Err(AllocError),
    }
}

/// The text of a reply that needs no memory to be written.
fn fixed_text(reply: &Replied) -> Option<&[u8]>
    ensures text { IfSome result (λ line. line.now ≡ reply_text reply.now) }
{
    match reply {
        Replied::Silent => Some(b""),
        Replied::NoSession => Some(b"ERROR 21 no such session\n"),
        Replied::NoRoom => Some(b"ERROR 17 want of memory\n"),
        Replied::OutOfRange => Some(b"ERROR 24 out of range\n"),
        Replied::Shown(_, text) => Some(text),
        Replied::Left => Some(b""),
        _ => None,
    }
}

/// Adds the text of a reply that is one line.
fn add_reply(alloc: Global, out: &mut Vec<u8>, reply: &Replied) -> Result<(), AllocError>
    ensures text { OnOk result (out.new.items ≡ out.old.items ++ reply_text reply.now) }
{
    match reply {
        Replied::Error(fault) => add_error(alloc, out, *fault),
        Replied::Opened(session, step, admin) => add_session(alloc, out, *session, *admin, *step),
        Replied::NotNow(step) => add_refusal(alloc, out, Refusal::NotNow, *step),
        Replied::NotAllowed(step) => add_refused(alloc, out, Why::NotAllowed, *step),
        Replied::Refused(why, step) => add_refused(alloc, out, *why, *step),
        Replied::ChangeRefused(why, _, step) => add_refused(alloc, out, *why, *step),
        Replied::PrioritySet(priority) => add_priority(alloc, out, *priority),
        Replied::Cancelled(true, id, step) => add_withdrawn(alloc, out, *id, *step),
        Replied::Cancelled(false, id, step) => add_flagged(alloc, out, *id, *step),
        Replied::Changed(_, true, step) => add_pending(alloc, out, *step),
        Replied::Changed(_, false, step) => add_changed(alloc, out, *step),
        Replied::Closed(session, step, _) => add_closed(alloc, out, *session, *step),
        _ => Err(AllocError),
    }
}

/// The text of a reply that is one line.
fn reply_bytes(alloc: Global, reply: &Replied) -> Result<Vec<u8>, Memory>
    ensures text { IfOk result (λ v. v.items ≡ reply_text reply.now) }
{
    let mut text = Vec::new(alloc);
    match add_reply(alloc, &mut text, reply) {
        Ok(()) => Ok(text),
        Err(_) => Err(Memory),
    }
}

/// Writes a reply that is one line or none, or a text that is at hand.
pub fn tell_reply<Si: Sink>(alloc: Global, reply: &Replied, sink: &mut Si) -> Result<(), Break>
    ensures wrote { Wrote (Si.written sink.old) (Si.written sink.new) (Si.faults sink.old) (Si.faults sink.new) result (reply_text reply.now) }
{
    match fixed_text(reply) {
        Some(text) => put(sink, Ok(()), text),
        None => tell(sink, Ok(()), reply_bytes(alloc, reply)),
    }
}
