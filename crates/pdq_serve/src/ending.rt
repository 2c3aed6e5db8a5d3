//! The end of a session.
ghost use Rattle.std.specs.Prelude.{◌≡◌, ◌++◌};
ghost use Rattle.pdq_office.specs.Passes.{lock_in};
ghost use Rattle.pdq_reply.specs.Replies as text;
ghost use Rattle.pdq_serve.specs.Course.{before_close, broken_by, is_long, IsClosedBy, IsCloseTold};
ghost use Rattle.pdq_serve.specs.Ends.{end_of_break, plain_end, told_end, EndsAs};
ghost use Rattle.pdq_talk.specs.Hand.{IsInHand};
ghost use Rattle.pdq_talk.specs.Session.{close_text};
ghost use Rattle.pdq_talk.specs.Texts.{line_too_long};

use crate::ends::{SessionEnd, ShutRight, shut_right};
use crate::standings::LinesEnd;
use pdq_edge::{Bell, Sink};
use pdq_office::{Office, Pass};
use pdq_talk::{Break, Standing, closed_bytes, put, tell};
use std::alloc::Global;
use std::sync::Wait;

/// Whether the lines ended with one that is too long.
fn is_long(by: LinesEnd) -> bool
    ensures value { result ≡ is_long by }
{
    match by {
        LinesEnd::LineTooLong => true,
        _ => false,
    }
}

/// Writes that a line is too long, where nothing broke before.
fn tell_long<Si: Sink>(told: Result<(), Break>, sink: &mut Si) -> Result<(), Break>
    ensures told { IsCloseTold told result (Si.written sink.old) (Si.written sink.new) (Si.faults sink.old) (Si.faults sink.new) line_too_long }
{
    match told {
        Ok(()) => put(sink, Ok(()), b"ERROR 19 line too long\n"),
        Err(cause) => Err(cause),
    }
}

/// Writes the line before the close, where there is one and nothing broke before.
fn tell_before_close<Si: Sink>(
    by: LinesEnd,
    told: Result<(), Break>,
    sink: &mut Si,
) -> Result<(), Break>
    ensures told { IsCloseTold told result (Si.written sink.old) (Si.written sink.new) (Si.faults sink.old) (Si.faults sink.new) (before_close by) }
{
    let long = is_long(by);
    if long { tell_long(told, sink) } else { told }
}

/// Writes the line of the close, where nothing broke before.
fn tell_close<Si: Sink>(
    alloc: Global,
    number: u32,
    step: u64,
    told: Result<(), Break>,
    sink: &mut Si,
) -> Result<(), Break>
    ensures told { IsCloseTold told result (Si.written sink.old) (Si.written sink.new) (Si.faults sink.old) (Si.faults sink.new) (text.closed_text number step) }
{
    match told {
        Ok(()) => tell(sink, Ok(()), closed_bytes(alloc, number, step)),
        Err(cause) => Err(cause),
    }
}

/// Closes the session where it is open. Answers the step of that.
fn close<R: Wait, Si: Sink, B: Bell<ShutRight>>(
    rt: &R,
    alloc: Global,
    office: &Office,
    pass: &mut Pass,
    standing: &Standing,
    told: Result<(), Break>,
    sink: &mut Si,
    bell: &B,
) -> (Option<u64>, Result<(), Break>)
    requires hand { IsInHand (lock_in office.now) standing.now pass.old }
    ensures closed { IsClosedBy pass.old pass.new standing.now result.0 }
    ensures told { IsCloseTold told result.1 (Si.written sink.old) (Si.written sink.new) (Si.faults sink.old) (Si.faults sink.new) (close_text result.0 standing.now) }
{
    match standing.party {
        None => (None, told),
        Some(party) => {
            let step = office.close_session(rt, pass);
            bell.ring();
            let told = tell_close(alloc, party.number, step, told, sink);
            (Some(step), told)
        }
    }
}

/// What is told from here on: nothing where the source failed.
fn broken_by(by: LinesEnd, told: Result<(), Break>) -> Result<(), Break>
    ensures value { result ≡ broken_by by told }
{
    match (by, told) {
        (LinesEnd::ReadFault, Ok(())) => Err(Break::Read),
        (_, told) => told,
    }
}

/// Ends the lines so: the last lines are written, and the session is closed where it is open. Answers the step of that.
pub(crate) fn end_lines<R: Wait, Si: Sink, B: Bell<ShutRight>>(
    rt: &R,
    alloc: Global,
    office: &Office,
    pass: &mut Pass,
    standing: &Standing,
    by: LinesEnd,
    told: Result<(), Break>,
    sink: &mut Si,
    bell: &B,
) -> (Option<u64>, Result<(), Break>)
    requires hand { IsInHand (lock_in office.now) standing.now pass.old }
    ensures closed { IsClosedBy pass.old pass.new standing.now result.0 }
    ensures told { IsCloseTold (broken_by by told) result.1 (Si.written sink.old) (Si.written sink.new) (Si.faults sink.old) (Si.faults sink.new) (before_close by ++ close_text result.0 standing.now) }
{
    let told = broken_by(by, told);
    let told = tell_before_close(by, told, sink);
    close(rt, alloc, office, pass, standing, told, sink, bell)
}

fn end_of_break(cause: Break) -> SessionEnd
    ensures end { result ≡ end_of_break cause }
{
    match cause {
        Break::Write => SessionEnd::WriteFault,
        Break::Read | Break::Memory => SessionEnd::Memory,
    }
}

fn plain_end(by: LinesEnd) -> SessionEnd
    ensures end { result ≡ plain_end by }
{
    match by {
        LinesEnd::Quit | LinesEnd::Shutdown => SessionEnd::Quit,
        LinesEnd::EndOfInput => SessionEnd::EndOfInput,
        LinesEnd::LineTooLong => SessionEnd::LineTooLong,
        LinesEnd::ByteLimit => SessionEnd::ByteLimit,
        LinesEnd::ReadFault => SessionEnd::ReadFault,
        LinesEnd::Broken => SessionEnd::Memory,
    }
}

/// How a session ends whose lines ended so, and whose last lines were written or not; None where it shuts the bell.
fn told_end(by: LinesEnd, told: Result<(), Break>) -> Option<SessionEnd>
    ensures end { result ≡ told_end by told }
{
    match by {
        LinesEnd::ReadFault => Some(SessionEnd::ReadFault),
        LinesEnd::Shutdown => match told {
            Ok(()) => None,
            Err(cause) => Some(end_of_break(cause)),
        },
        other => match told {
            Ok(()) => Some(plain_end(other)),
            Err(cause) => Some(end_of_break(cause)),
        },
    }
}

/// Shuts the bell for an administrator's SHUTDOWN.
fn shut_if_asked<B: Bell<ShutRight>>(by: LinesEnd, bell: &B) {
    if let LinesEnd::Shutdown = by {
        let _seen = bell.shut(shut_right());
    }
}

/// The end of a session whose lines ended so. An administrator's SHUTDOWN shuts the bell, whether its reply could be written or not.
pub(crate) fn end_of<B: Bell<ShutRight>>(
    by: LinesEnd,
    told: Result<(), Break>,
    bell: &B,
) -> SessionEnd
    ensures end { EndsAs by told result }
{
    match told_end(by, told) {
        Some(end) => {
            shut_if_asked(by, bell);
            end
        }
        None => SessionEnd::Shutdown(bell.shut(shut_right())),
    }
}
