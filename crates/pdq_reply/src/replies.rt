//! The text of the replies and of the refusals.
ghost use Rattle.std.specs.Prelude.{◌≡◌, ◌++◌, OnOk, flat_map, string_bytes};
ghost use Rattle.pdq_reply.specs.Replies.{admit_text, admits_text, cancelled_text, changed_text, chosen_text, closed_text, done_text, end_line, failed_text, fault_text, flagged_text, pending_text, placed_text, priority_text, refusal_number, refusal_text, refusal_words, role_of, session_text, stopped_text, tells_step, why_number, why_words, withdrawn_text};

use crate::answers::add_refused_select;
use pdq_base::Memory;
use pdq_model::{Admit, Why};
use pdq_sql::SqlFault;
use std::alloc::{AllocError, Global};

/// Why a line ends the script.
#[derive(Clone, Copy)]
pub enum LineFault {
    /// The line is none of the grammar, or its query does not resolve.
    Refused(SqlFault),
    /// 8,193 bytes came without a line end.
    LineTooLong,
    /// Byte 16,777,217 of the input came before the line ended.
    InputTooLong,
}

/// Why what a line asks for is refused; the script goes on.
#[derive(Clone, Copy)]
pub enum Refusal {
    /// For a reason of the manager.
    Manager(Why),
    /// No session of this number is open.
    NoSession,
    /// The query still waits or has no text, or the session is the current one or has a query.
    NotNow,
    /// A priority is above 100, or a number of fragments is not 1 to 16.
    OutOfRange,
}

fn number_of(why: Why) -> u32
    ensures value { result ≡ why_number why }
{
    match why {
        Why::QueueFull => 10,
        Why::JournalFull => 11,
        Why::NotAllowed => 12,
        Why::NoSuchQuery => 13,
        Why::BadValue => 14,
        Why::AlreadyCancelled => 15,
        Why::TooManySessions => 18,
        Why::PoolSize { .. } => 20,
    }
}

fn words_of(why: Why) -> &'static str
    ensures value { result.now ≡ why_words why }
{
    match why {
        Why::QueueFull => "queue full",
        Why::JournalFull => "journal full",
        Why::NotAllowed => "not allowed",
        Why::NoSuchQuery => "no such query",
        Why::BadValue => "bad value",
        Why::AlreadyCancelled => "already cancelled",
        Why::TooManySessions => "too many sessions",
        Why::PoolSize { .. } => "pool size",
    }
}

impl Refusal {
    fn number(self) -> u32
        ensures value { result ≡ refusal_number self }
    {
        match self {
            Refusal::Manager(why) => number_of(why),
            Refusal::NoSession => 21,
            Refusal::NotNow => 22,
            Refusal::OutOfRange => 24,
        }
    }

    fn words(self) -> &'static str
        ensures value { result.now ≡ refusal_words self }
    {
        match self {
            Refusal::Manager(why) => words_of(why),
            Refusal::NoSession => "no such session",
            Refusal::NotNow => "not now",
            Refusal::OutOfRange => "out of range",
        }
    }

    // Whether the refusal tells the step at which it was made.
    fn tells_step(self) -> bool
        ensures value { result ≡ tells_step self }
    {
        match self {
            Refusal::Manager(_) | Refusal::NotNow => true,
            Refusal::NoSession | Refusal::OutOfRange => false,
        }
    }
}

fn add(out: &mut Vec<u8>, text: String) -> Result<(), AllocError>
    ensures text { OnOk result (out.new.items ≡ out.old.items ++ string_bytes text) }
{
    out.extend_from_slice(text.as_bytes())?;
    Ok(())
}

fn add_line(out: &mut Vec<u8>, line: &[u8]) -> Result<(), Memory>
    ensures text { OnOk result (out.new.items ≡ out.old.items ++ line.now) }
{
    match out.extend_from_slice(line) {
        Ok(()) => Ok(()),
        Err(_) => Err(Memory),
    }
}

fn role(admin: bool) -> &'static str
    ensures value { result.now ≡ role_of admin }
{
    if admin { "ADMIN" } else { "USER" }
}

/// Adds the reply to the opening of a session, an administrator's or a user's.
pub fn add_session(
    alloc: Global,
    out: &mut Vec<u8>,
    session: u32,
    admin: bool,
    step: u64,
) -> Result<(), AllocError>
    ensures text { OnOk result (out.new.items ≡ out.old.items ++ session_text session admin step) }
{
    let role = role(admin);
    let text = format!(in alloc; "SESSION {session} {role} STEP {step}\n")?;
    add(out, text)
}

/// Adds the reply to the choice of a session.
pub fn add_chosen(alloc: Global, out: &mut Vec<u8>, session: u32) -> Result<(), AllocError>
    ensures text { OnOk result (out.new.items ≡ out.old.items ++ chosen_text session) }
{
    let text = format!(in alloc; "SESSION {session}\n")?;
    add(out, text)
}

/// Adds the reply to the closing of a session.
pub fn add_closed(
    alloc: Global,
    out: &mut Vec<u8>,
    session: u32,
    step: u64,
) -> Result<(), AllocError>
    ensures text { OnOk result (out.new.items ≡ out.old.items ++ closed_text session step) }
{
    let text = format!(in alloc; "CLOSED {session} STEP {step}\n")?;
    add(out, text)
}

/// Adds the reply to the setting of a priority.
pub fn add_priority(alloc: Global, out: &mut Vec<u8>, priority: u32) -> Result<(), AllocError>
    ensures text { OnOk result (out.new.items ≡ out.old.items ++ priority_text priority) }
{
    let text = format!(in alloc; "PRIORITY {priority}\n")?;
    add(out, text)
}

/// Adds the reply to the cancellation of a query that waits.
pub fn add_withdrawn(alloc: Global, out: &mut Vec<u8>, id: u32, step: u64) -> Result<(), AllocError>
    ensures text { OnOk result (out.new.items ≡ out.old.items ++ withdrawn_text id step) }
{
    let text = format!(in alloc; "WITHDRAWN {id} STEP {step}\n")?;
    add(out, text)
}

/// Adds the reply to the cancellation of a query that is active.
pub fn add_flagged(alloc: Global, out: &mut Vec<u8>, id: u32, step: u64) -> Result<(), AllocError>
    ensures text { OnOk result (out.new.items ≡ out.old.items ++ flagged_text id step) }
{
    let text = format!(in alloc; "FLAGGED {id} STEP {step}\n")?;
    add(out, text)
}

/// Adds the reply to a change that was made.
pub fn add_changed(alloc: Global, out: &mut Vec<u8>, step: u64) -> Result<(), AllocError>
    ensures text { OnOk result (out.new.items ≡ out.old.items ++ changed_text step) }
{
    let text = format!(in alloc; "CHANGED STEP {step}\n")?;
    add(out, text)
}

/// Adds the reply to a change that is pending.
pub fn add_pending(alloc: Global, out: &mut Vec<u8>, step: u64) -> Result<(), AllocError>
    ensures text { OnOk result (out.new.items ≡ out.old.items ++ pending_text step) }
{
    let text = format!(in alloc; "PENDING STEP {step}\n")?;
    add(out, text)
}

/// Adds the reply to a query that was placed.
pub fn add_placed(
    alloc: Global,
    out: &mut Vec<u8>,
    id: u32,
    step: u64,
    priority: u32,
    gate: u32,
) -> Result<(), AllocError>
    ensures text { OnOk result (out.new.items ≡ out.old.items ++ placed_text id step priority gate) }
{
    let text = format!(in alloc; "QUERY {id} STEP {step} PRIORITY {priority} GATE {gate}\n")?;
    add(out, text)
}

/// Adds the reply to the end of a query.
pub fn add_done(alloc: Global, out: &mut Vec<u8>, id: u32, step: u64) -> Result<(), AllocError>
    ensures text { OnOk result (out.new.items ≡ out.old.items ++ done_text id step) }
{
    let text = format!(in alloc; "DONE {id} STEP {step}\n")?;
    add(out, text)
}

/// Adds the reply to the end of a query that failed.
pub fn add_failed(alloc: Global, out: &mut Vec<u8>, id: u32, step: u64) -> Result<(), AllocError>
    ensures text { OnOk result (out.new.items ≡ out.old.items ++ failed_text id step) }
{
    let text = format!(in alloc; "FAILED {id} STEP {step}\n")?;
    add(out, text)
}

/// Adds the reply to the end of a query that was cancelled at the step `by` while it was active.
pub fn add_stopped(
    alloc: Global,
    out: &mut Vec<u8>,
    id: u32,
    step: u64,
    by: u64,
) -> Result<(), AllocError>
    ensures text { OnOk result (out.new.items ≡ out.old.items ++ stopped_text id step by) }
{
    let text = format!(in alloc; "STOPPED {id} STEP {step} BY STEP {by}\n")?;
    add(out, text)
}

/// Adds the reply to the collection of a query that was cancelled at the step `by` while it waited.
pub fn add_cancelled(
    alloc: Global,
    out: &mut Vec<u8>,
    id: u32,
    step: u64,
    by: u64,
) -> Result<(), AllocError>
    ensures text { OnOk result (out.new.items ≡ out.old.items ++ cancelled_text id step by) }
{
    let text = format!(in alloc; "CANCELLED {id} STEP {step} BY STEP {by}\n")?;
    add(out, text)
}

fn add_admit(alloc: Global, out: &mut Vec<u8>, admit: &Admit) -> Result<(), AllocError>
    ensures text { OnOk result (out.new.items ≡ out.old.items ++ admit_text admit.now) }
{
    let (id, quanta, scans) = (admit.id, admit.quanta, admit.scans);
    let text = format!(in alloc; "ADMIT {id} QUANTA {quanta} SCANS {scans}\n")?;
    add(out, text)
}

/// Adds a line for each query that was admitted.
pub fn add_admits(alloc: Global, out: &mut Vec<u8>, admits: &[Admit]) -> Result<(), AllocError>
    ensures text { OnOk result (out.new.items ≡ out.old.items ++ admits_text admits.now) }
{
    'admits: for admit in admits {
        add_admit(alloc, out, admit)?;
    }
    Ok(())
}

/// Adds the line of a refusal after which the script goes on.
pub fn add_refusal(
    alloc: Global,
    out: &mut Vec<u8>,
    refusal: Refusal,
    step: u64,
) -> Result<(), AllocError>
    ensures text { OnOk result (out.new.items ≡ out.old.items ++ refusal_text refusal step) }
{
    let number = refusal.number();
    let words = refusal.words();
    if refusal.tells_step() {
        let text = format!(in alloc; "ERROR {number} {words} AT STEP {step}\n")?;
        add(out, text)
    } else {
        let text = format!(in alloc; "ERROR {number} {words}\n")?;
        add(out, text)
    }
}

/// Adds the line of a fault that ends the script.
pub fn add_fault(alloc: Global, out: &mut Vec<u8>, fault: LineFault) -> Result<(), Memory>
    ensures text { OnOk result (out.new.items ≡ out.old.items ++ fault_text fault) }
{
    match fault {
        LineFault::Refused(fault) => add_refused_select(alloc, out, fault),
        LineFault::LineTooLong => add_line(out, b"ERROR 19 line too long\n"),
        LineFault::InputTooLong => add_line(out, b"FAULT SCRIPT too long\n"),
    }
}

/// Adds the last line of a script.
pub fn add_end(
    alloc: Global,
    out: &mut Vec<u8>,
    step: u64,
    reserved: u32,
    scans: u32,
    waiting: usize,
) -> Result<(), AllocError>
    ensures text { OnOk result (out.new.items ≡ out.old.items ++ end_line step reserved scans waiting) }
{
    let text = format!(in alloc;
        "END STEP {step} RESERVED {reserved} SCANS {scans} WAITING {waiting}\n"
    )?;
    add(out, text)
}
