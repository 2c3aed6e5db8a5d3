//! A query that was submitted is waited for.
ghost use Rattle.std.specs.Prelude.{◌≡◌};
ghost use Rattle.pdq_office.specs.Passes.{lock_in, lock_at, IsOpen, IsTicket};
ghost use Rattle.pdq_serve.specs.Query.{IsGotBy, IsFetched, MayCancel};

use crate::ends::ShutRight;
use pdq_edge::Bell;
use pdq_office::{Got, Grant, Held, Office, Pass, Ticket};
use pdq_talk::Break;
use std::sync::Wait;

/// What a query that was submitted comes to.
pub(crate) enum Fetched {
    Granted(Held, Grant),
    /// It was cancelled while it waited: the step of that, and the step of its collection.
    Withdrawn(u64, u64),
}

/// Cancels a query where its lines could not be written.
pub(crate) fn cancel_if_broken<R: Wait>(
    rt: &R,
    office: &Office,
    pass: &mut Pass,
    id: u32,
    told: Result<(), Break>,
)
    requires lock { lock_at pass.old ≡ lock_in office.now }
    requires opens { IsOpen pass.old }
    ensures cancelled { MayCancel pass.old pass.new told }
{
    if told.is_err() {
        let _outcome = office.cancel(rt, pass, id);
    }
}

/// Collects a query once.
fn collect_once<R: Wait>(rt: &R, office: &Office, pass: &mut Pass, ticket: Ticket) -> Got
    requires lock { lock_at pass.old ≡ lock_in office.now }
    requires opens { IsOpen pass.old }
    requires ticket { IsTicket pass.old ticket }
    ensures got { IsGotBy pass.old pass.new ticket result }
{
    office.collect(rt, pass, ticket)
}

/// Collects a query, as often as it takes until it no longer waits.
pub(crate) fn fetch<R: Wait, B: Bell<ShutRight>>(
    rt: &R,
    office: &Office,
    pass: &mut Pass,
    bell: &B,
    ticket: Ticket,
) -> Fetched
    requires lock { lock_at pass.old ≡ lock_in office.now }
    requires opens { IsOpen pass.old }
    requires ticket { IsTicket pass.old ticket }
    ensures fetched { IsFetched pass.old pass.new ticket.id result }
{
    let mut waiting = ticket;
    'turns: for _ in rt.forever() {
        let mark = bell.mark();
        match collect_once(rt, office, pass, waiting) {
            Got::Waiting(again, _, _) => {
                bell.wait(rt, mark);
                waiting = again;
            }
            Got::Granted(held, grant) => return Fetched::Granted(held, grant),
            Got::Cancelled { by, step } => return Fetched::Withdrawn(by, step),
        }
    }
    unreachable!()
}
