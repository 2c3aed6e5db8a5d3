//! What a session keeps from line to line.
ghost use Rattle.std.specs.Prelude.{◌≡◌};
ghost use Rattle.pdq_talk.specs.Lines.{came_step, party_after, priority_after, ran_step, standing_after, step_after};
ghost use Rattle.pdq_serve.specs.Course.{end_after, ends_with};

use pdq_talk::{Break, Came, Party, Ran, Replied, Standing};

/// How the lines of a session end.
#[derive(Clone, Copy, Debug, PartialEq, Eq)]
pub(crate) enum LinesEnd {
    /// QUIT.
    Quit,
    /// SHUTDOWN of an administrator.
    Shutdown,
    EndOfInput,
    /// 8,193 bytes came without a line end.
    LineTooLong,
    /// Byte 16,777,217 of the input came before the line ended.
    ByteLimit,
    /// The source failed.
    ReadFault,
    /// Writing failed, or memory was wanting.
    Broken,
}

fn ran_step(ran: &Ran) -> u64
    ensures value { result ≡ ran_step ran.now }
{
    match ran {
        Ran::Ended(_, step) => *step,
        Ran::WasStopped(step, _) => *step,
    }
}

fn came_step(came: &Came) -> u64
    ensures value { result ≡ came_step came.now }
{
    match came {
        Came::WasCancelled(step, _) => *step,
        Came::WasGranted(_, _, _, _, _, ran) => ran_step(ran),
    }
}

fn step_after(last: u64, reply: &Replied) -> u64
    ensures value { result ≡ step_after last reply.now }
{
    match reply {
        Replied::Opened(_, step, _) => *step,
        Replied::NotNow(step) => *step,
        Replied::NotAllowed(step) => *step,
        Replied::Refused(_, step) => *step,
        Replied::ChangeRefused(_, _, step) => *step,
        Replied::Placed(_, _, _, _, _, came) => came_step(came),
        Replied::Cancelled(_, _, step) => *step,
        Replied::Changed(_, _, step) => *step,
        Replied::Shown(step, _) => *step,
        Replied::Closed(_, step, _) => *step,
        _ => last,
    }
}

fn party_after(party: Option<Party>, reply: &Replied) -> Option<Party>
    ensures value { result ≡ party_after party reply.now }
{
    match reply {
        Replied::Opened(number, _, admin) => Some(Party {
            number: *number,
            admin: *admin,
        }),
        Replied::Closed(_, _, _) => None,
        _ => party,
    }
}

fn priority_after(priority: u32, reply: &Replied) -> u32
    ensures value { result ≡ priority_after priority reply.now }
{
    match reply {
        Replied::PrioritySet(level) => *level,
        _ => priority,
    }
}

/// What a session keeps after a reply.
fn standing_after(standing: &Standing, reply: &Replied) -> Standing
    ensures value { result ≡ standing_after standing.now reply.now }
{
    Standing {
        party: party_after(standing.party, reply),
        priority: priority_after(standing.priority, reply),
        step: step_after(standing.step, reply),
    }
}

/// How the lines end with a reply, where they do.
fn end_after(reply: &Replied) -> Option<LinesEnd>
    ensures value { result ≡ end_after reply.now }
{
    match reply {
        Replied::Closed(_, _, true) => Some(LinesEnd::Shutdown),
        Replied::Closed(_, _, false) => Some(LinesEnd::Quit),
        Replied::Left => Some(LinesEnd::Quit),
        _ => None,
    }
}

/// How the lines end with a line that came to this, and of which the input may be at its end.
fn ends_with(end: Option<LinesEnd>, told: Result<(), Break>, is_last: bool) -> Option<LinesEnd>
    ensures value { result ≡ ends_with end told is_last }
{
    match (end, told, is_last) {
        (Some(end), _, _) => Some(end),
        (None, Err(_), _) => Some(LinesEnd::Broken),
        (None, Ok(()), true) => Some(LinesEnd::EndOfInput),
        (None, Ok(()), false) => None,
    }
}

/// What a session keeps after a reply, and how its lines end with it, where they do.
pub(crate) fn take_in(
    standing: &Standing,
    reply: Replied,
    told: Result<(), Break>,
    is_last: bool,
) -> (Standing, Option<LinesEnd>)
    ensures standing { result.0 ≡ standing_after standing.now reply }
    ensures end { result.1 ≡ ends_with (end_after reply) told is_last }
{
    let end = end_after(&reply);
    (
        standing_after(standing, &reply),
        ends_with(end, told, is_last),
    )
}
