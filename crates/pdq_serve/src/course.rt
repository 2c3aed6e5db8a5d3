//! The lines of a session, one after another.
ghost use Rattle.std.specs.Prelude.{◌≡◌, ◌≢◌, ◌≤◌, ℕ, List, None, Some, IsTrue, length, true};
ghost use Rattle.std.specs.Result.{IsErr};
ghost use Rattle.pdq_edge.specs.Causes.{Rose};
ghost use Rattle.pdq_office.specs.Passes.{lock_in};
ghost use Rattle.pdq_reply.specs.Reading.{fresh_reader, Reads};
ghost use Rattle.pdq_reply.specs.declared.lines.LineOutcome.{LineOutcome};
ghost use Rattle.pdq_sql.specs.LineReading.{has_no_end};
ghost use Rattle.pdq_serve.specs.Commands.{asked_of, said_by};
ghost use Rattle.pdq_serve.specs.Course.{asks, is_by_line, HasOrigin, IsUnderWay, TookInput, Turned};
ghost use Rattle.pdq_talk.specs.Hand.{IsInHand};
ghost use Rattle.pdq_talk.specs.Lines.{reply_text};
ghost use Rattle.pdq_talk.specs.Writing.{EndsIn, Wrote};
ghost use Rattle.pdq_serve.specs.Questions.{all_tell};

use crate::ends::ShutRight;
use crate::lines::answer_line;
use crate::requests::read_request;
use crate::standings::{LinesEnd, take_in};
use pdq_edge::{Bell, Sink, Source, Spill};
use pdq_office::{Office, Pass, Status};
use pdq_reply::{LineOutcome, LineReader};
use pdq_table::Stored;
use pdq_talk::{Break, Replied, Standing, tell_reply};
use std::alloc::Global;
use std::sync::Wait;
use std::thread::Threads;

/// Answers a line of these bytes. Where memory is wanting to understand it, that is the reply.
fn answer_bytes<R: Threads + Wait + Sync, Sp: Spill + Send, Si: Sink, B: Bell<ShutRight>>(
    rt: &R,
    alloc: Global,
    office: &Office,
    pass: Pass,
    standing: &Standing,
    stored: &Stored,
    opening: u32,
    line: &[u8],
    status: &mut Status,
    stores: &mut Vec<Sp>,
    sink: &mut Si,
    bell: &B,
) -> (Pass, Replied, Result<(), Break>)
    requires hand { IsInHand (lock_in office.now) standing.now pass }
    requires size { length line.now ≤ 8192 }
    requires line { IsTrue (has_no_end line.now) }
    requires stores { length stores.old.items ≡ 48 }
    ensures ends { EndsIn (lock_in office.now) pass result.0 standing.now (asked_of Sp.blocks stores.old.items stored.now (said_by stored.now opening line.now)) result.1 result.2 }
    ensures wrote { Wrote (Si.written sink.old) (Si.written sink.new) (Si.faults sink.old) (Si.faults sink.new) result.2 (reply_text result.1) }
    ensures stores { length stores.new.items ≡ 48 }
    ensures tell { all_tell Sp.blocks stores.old.items ≡ true → all_tell Sp.blocks stores.new.items ≡ true }
{
    match read_request(alloc, stored, opening, line) {
        Ok(request) => answer_line(
            rt, alloc, office, pass, standing, stored, &request, status, stores, sink, bell,
        ),
        Err(_) => {
            let reply = Replied::NoRoom;
            let told = tell_reply(alloc, &reply, sink);
            (pass, reply, told)
        }
    }
}

/// Takes the next line and answers it. Answers how the lines end with it, where they do.
fn next_turn<R: Threads + Wait + Sync, So: Source, Sp: Spill + Send, Si: Sink, B: Bell<ShutRight>>(
    rt: &R,
    alloc: Global,
    office: &Office,
    pass: Pass,
    standing: Standing,
    stored: &Stored,
    opening: u32,
    reader: &mut LineReader,
    status: &mut Status,
    source: &mut So,
    stores: &mut Vec<Sp>,
    sink: &mut Si,
    bell: &B,
) -> (Pass, Standing, Option<LinesEnd>, Result<(), Break>)
    requires hand { IsInHand (lock_in office.now) standing pass }
    requires stores { length stores.old.items ≡ 48 }
    ensures turn { (which : LineOutcome) × Reads which (So.left source.old) (So.left source.new) (So.taken source.old) (So.taken source.new) reader.old reader.new
        × Turned (lock_in office.now) pass result.0 standing result.1 (asked_of Sp.blocks stores.old.items stored.now (said_by stored.now opening reader.new.line)) reader.new.last
        (Si.written sink.old) (Si.written sink.new) (Si.faults sink.old) (Si.faults sink.new) result.3 result.2 which }
    ensures broken { result.2 ≡ Some LinesEnd.Broken → IsErr result.3 }
    ensures ended { result.2 ≡ Some LinesEnd.EndOfInput → IsTrue (So.ended source.new) }
    ensures read { result.2 ≡ Some LinesEnd.ReadFault → Rose (So.faults source.old) (So.faults source.new) }
    ensures read_none { result.2 ≢ Some LinesEnd.ReadFault → So.faults source.new ≡ So.faults source.old }
    ensures stores { length stores.new.items ≡ 48 }
    ensures tell { all_tell Sp.blocks stores.old.items ≡ true → all_tell Sp.blocks stores.new.items ≡ true }
{
    match reader.next_line(source) {
        LineOutcome::Line => {
            let (pass, reply, told) = answer_bytes(
                rt,
                alloc,
                office,
                pass,
                &standing,
                stored,
                opening,
                reader.line(),
                status,
                stores,
                sink,
                bell,
            );
            let (standing, end) = take_in(&standing, reply, told, reader.is_last());
            (pass, standing, end, told)
        }
        LineOutcome::End => (pass, standing, Some(LinesEnd::EndOfInput), Ok(())),
        LineOutcome::LineTooLong => (pass, standing, Some(LinesEnd::LineTooLong), Ok(())),
        LineOutcome::InputTooLong => (pass, standing, Some(LinesEnd::ByteLimit), Ok(())),
        LineOutcome::Failed => (pass, standing, Some(LinesEnd::ReadFault), Ok(())),
    }
}

/// Answers the lines of the source until one of them ends the session, writing breaks, or none is left.
pub(crate) fn answer_lines<
    R: Threads + Wait + Sync,
    So: Source,
    Sp: Spill + Send,
    Si: Sink,
    B: Bell<ShutRight>,
>(
    rt: &R,
    alloc: Global,
    office: &Office,
    pass: Pass,
    standing: Standing,
    stored: &Stored,
    opening: u32,
    reader: &mut LineReader,
    status: &mut Status,
    source: &mut So,
    stores: &mut Vec<Sp>,
    sink: &mut Si,
    bell: &B,
) -> (Pass, Standing, LinesEnd, Result<(), Break>)
    requires hand { IsInHand (lock_in office.now) standing pass }
    requires none { standing.party ≡ None }
    requires origin { HasOrigin pass }
    requires fresh { reader.old ≡ fresh_reader }
    requires stores { length stores.old.items ≡ 48 }
    ensures course { (lines : List (List ℕ)) × TookInput (So.left source.old) (So.left source.new) (So.taken source.old) (So.taken source.new) lines result.2
        × IsUnderWay (lock_in office.now) pass result.0 standing result.1 (asks Sp.blocks stores.old.items stored.now opening lines)
        (Si.written sink.old) (Si.written sink.new) (Si.faults sink.old) (Si.faults sink.new) result.3 (is_by_line result.2) }
    ensures broken { result.2 ≡ LinesEnd.Broken → IsErr result.3 }
    ensures ended { result.2 ≡ LinesEnd.EndOfInput → IsTrue (So.ended source.new) }
    ensures read { result.2 ≡ LinesEnd.ReadFault → Rose (So.faults source.old) (So.faults source.new) }
    ensures stores { length stores.new.items ≡ 48 }
{
    let mut pass = pass;
    let mut standing = standing;
    'lines: loop {
        let (next, after, end, told) = next_turn(
            rt, alloc, office, pass, standing, stored, opening, reader, status, source, stores,
            sink, bell,
        );
        pass = next;
        standing = after;
        match end {
            Some(end) => return (pass, standing, end, told),
            None => {}
        }
    }
}
