//! What the calls of the manager answer. A `step` is the number of entries in the journal after the call.

ghost use Rattle.std.specs.Prelude.{◌≡◌};
ghost use Rattle.pdq_gate.specs.Answers.{answer_of_collected, cancel_answer, change_answer};

use pdq_frame::Region;
use pdq_model::{Answer, Reply, Why};

/// A call was refused, and changed nothing.
#[derive(Clone, Copy, Debug, PartialEq, Eq)]
pub struct Refused {
    pub why: Why,
    pub step: u64,
}

/// A session was opened, with this number.
#[derive(Clone, Copy, Debug, PartialEq, Eq)]
pub struct Opened {
    pub session: u32,
    pub step: u64,
}

/// A query was submitted.
#[derive(Clone, Copy, Debug, PartialEq, Eq)]
pub enum Submitted {
    /// It has this number and effective priority, and stands at this gate; gate 0 says that it was admitted at once.
    Placed {
        id: u32,
        step: u64,
        priority: u32,
        gate: u32,
    },
}

/// A query was collected, or still waits.
pub enum Collected {
    /// The query is active: the region of its quanta, its quanta and scan threads, its effective priority, and the step at which it was
    /// cancelled, if it was.
    Granted {
        region: Region,
        quanta: u32,
        scans: u32,
        priority: u32,
        flagged: Option<u64>,
        step: u64,
    },
    /// It waits at this gate.
    Waiting {
        gate: u32,
        step: u64,
    },
    /// It was withdrawn at the step `by`.
    Cancelled {
        by: u64,
        step: u64,
    },
}

impl Collected {
    /// The answer that this tells.
    pub(crate) fn answer(&self) -> Answer
        ensures value { result ≡ answer_of_collected self.now }
    {
        match self {
            Collected::Granted {
                region: _,
                quanta,
                scans,
                priority,
                flagged,
                step: _,
            } => Answer::Entered(Reply::Granted {
                quanta: *quanta,
                scans: *scans,
                priority: *priority,
                flagged: *flagged,
            }),
            Collected::Waiting { gate, step: _ } => Answer::Waits(*gate),
            Collected::Cancelled { by, step: _ } => Answer::Entered(Reply::Cancelled { by: *by }),
        }
    }
}

/// A query was cancelled: it was active and is flagged now, or it waited and is withdrawn.
#[derive(Clone, Copy, Debug, PartialEq, Eq)]
pub struct Cancelled {
    pub active: bool,
    pub step: u64,
}

/// A parameter was changed; `pending` says that the change waits until no query is active.
#[derive(Clone, Copy, Debug, PartialEq, Eq)]
pub struct Changed {
    pub pending: bool,
    pub step: u64,
}

/// The answer to a cancellation: whether the query is active, or why it was refused.
pub(crate) fn cancel_answer(outcome: Result<bool, Why>) -> Answer
    ensures value { result ≡ cancel_answer outcome }
{
    match outcome {
        Ok(true) => Answer::Entered(Reply::Flagged),
        Ok(false) => Answer::Entered(Reply::Withdrawn),
        Err(why) => Answer::Refuses(why),
    }
}

/// The answer to a change: whether it waits, or why it was refused.
pub(crate) fn change_answer(outcome: Result<bool, Why>) -> Answer
    ensures value { result ≡ change_answer outcome }
{
    match outcome {
        Ok(pending) => Answer::Entered(Reply::Changed { pending }),
        Err(why) => Answer::Refuses(why),
    }
}
