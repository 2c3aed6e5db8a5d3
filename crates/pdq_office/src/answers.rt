//! What the calls of the office answer where the manager's own answers do not serve. A `step` is the number of entries after the call.
ghost use Rattle.std.specs.Prelude.{◌≡◌};
ghost use Rattle.pdq_office.specs.Answers.{sent_of, got_of};

use crate::pass::{Held, Ticket};
use pdq_frame::Region;
use pdq_gate::{Collected, Refused, Submitted};

/// A query was placed: it has this number and effective priority, and stands at this gate; gate 0 says that it was admitted at once.
#[derive(Clone, Copy, Debug, PartialEq, Eq)]
pub struct Placed {
    pub id: u32,
    pub step: u64,
    pub priority: u32,
    pub gate: u32,
}

/// What `submit` answers.
pub enum Sent {
    /// The query was placed, and is to be collected.
    Ticket(Ticket, Placed),
}

impl Sent {
    /// The ticket, and how the query was placed.
    pub fn parts(self) -> (Ticket, Placed)
        ensures value { self ≡ Sent.Ticket result.0 result.1 }
    {
        let Sent::Ticket(ticket, placed) = self;
        (ticket, placed)
    }
}

/// What a collected query was granted: the region of its quanta, its quanta and scan threads, its effective priority, and the step at which it
/// was cancelled, if it was.
pub struct Grant {
    pub region: Region,
    pub quanta: u32,
    pub scans: u32,
    pub priority: u32,
    pub flagged: Option<u64>,
    pub step: u64,
}

/// What `collect` answers.
pub enum Got {
    /// The query is active, and is to be finished.
    Granted(Held, Grant),
    /// It waits, at this gate, and is still to be collected.
    Waiting(Ticket, u32, u64),
    /// It was withdrawn at the step `by`.
    Cancelled { by: u64, step: u64 },
}

/// The manager's answer to a submission, with the ticket of the query.
pub(crate) fn as_sent(outcome: Result<Submitted, Refused>) -> Result<Sent, Refused>
    ensures value { result ≡ sent_of outcome }
{
    match outcome {
        Ok(
            Submitted::Placed {
                id,
                step,
                priority,
                gate,
            },
        ) => Ok(Sent::Ticket(
            Ticket { id },
            Placed {
                id,
                step,
                priority,
                gate,
            },
        )),
        Err(refused) => Err(refused),
    }
}

/// The manager's answer to the collection of a query, with what the caller has of it.
pub(crate) fn as_got(id: u32, collected: Collected) -> Got
    ensures value { result ≡ got_of id collected }
{
    match collected {
        Collected::Granted {
            region,
            quanta,
            scans,
            priority,
            flagged,
            step,
        } => {
            let frames = region.frames();
            Got::Granted(
                Held { id, frames },
                Grant {
                    region,
                    quanta,
                    scans,
                    priority,
                    flagged,
                    step,
                },
            )
        }
        Collected::Waiting { gate, step } => Got::Waiting(Ticket { id }, gate, step),
        Collected::Cancelled { by, step } => Got::Cancelled { by, step },
    }
}
