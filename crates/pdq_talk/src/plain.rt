//! The lines that need no query: each is answered by one turn at most.
ghost use Rattle.std.specs.Prelude.{◌≡◌, ◌≤◌, Some, None, IfSome, IsSome, IsSomeAnd, false, true};
ghost use Rattle.pdq_office.specs.Passes.{lock_in};
ghost use Rattle.pdq_talk.specs.Lines.{Asked};
ghost use Rattle.pdq_talk.specs.Lines as asked;
ghost use Rattle.pdq_talk.specs.Hand.{IsInHand, Comes};
ghost use Rattle.pdq_talk.specs.Replies.{priority_told};
ghost use Rattle.pdq_talk.specs.Lines.{percent};

use crate::replied::{Party, Replied, Standing};
use crate::replies::{cancelled_reply, changed_reply, opened_reply, status_bytes};
use pdq_model::Setting;
use pdq_office::{Change, Office, Pass, Status};
use std::alloc::Global;
use std::sync::Wait;

/// HELLO and ADMIN where no session is open.
pub(crate) fn open_party<R: Wait>(
    rt: &R,
    office: &Office,
    pass: &mut Pass,
    standing: &Standing,
    admin: bool,
) -> Replied
    requires hand { IsInHand (lock_in office.now) standing.now pass.old }
    requires none { standing.now.party ≡ None }
    ensures comes { Comes (lock_in office.now) pass.old pass.new standing.now (asked.Open admin) result }
{
    let outcome = office.open_session(rt, pass, admin);
    opened_reply(admin, outcome)
}

/// HELLO and ADMIN in an open session.
pub(crate) fn not_now<R: Wait>(
    rt: &R,
    office: &Office,
    pass: &mut Pass,
    standing: &Standing,
    admin: bool,
) -> Replied
    requires hand { IsInHand (lock_in office.now) standing.now pass.old }
    requires some { IsSome standing.now.party }
    ensures comes { Comes (lock_in office.now) pass.old pass.new standing.now (asked.Open admin) result }
{
    let step = office.step(rt, pass);
    Replied::NotNow(step)
}

/// SHUTDOWN by a user.
pub(crate) fn not_allowed<R: Wait>(
    rt: &R,
    office: &Office,
    pass: &mut Pass,
    standing: &Standing,
) -> Replied
    requires hand { IsInHand (lock_in office.now) standing.now pass.old }
    requires user { IsSomeAnd standing.now.party (λ p. p.admin ≡ false) }
    ensures comes { Comes (lock_in office.now) pass.old pass.new standing.now asked.Shutdown result }
{
    let step = office.step(rt, pass);
    Replied::NotAllowed(step)
}

/// SET PDQPRIORITY to a number.
fn priority_reply(level: u32) -> Replied
    ensures value { result ≡ priority_told (percent level) }
{
    if level <= 100 {
        Replied::PrioritySet(level)
    } else {
        Replied::OutOfRange
    }
}

/// SET PDQPRIORITY in an open session: no turn is taken.
pub(crate) fn set_priority(
    office: &Office,
    pass: &mut Pass,
    standing: &Standing,
    level: u32,
) -> Replied
    requires hand { IsInHand (lock_in office.now) standing.now pass.old }
    requires some { IsSome standing.now.party }
    ensures comes { Comes (lock_in office.now) pass.old pass.new standing.now (asked.Priority (percent level)) result }
{
    priority_reply(level)
}

/// CANCEL in an open session.
pub(crate) fn cancel_query<R: Wait>(
    rt: &R,
    office: &Office,
    pass: &mut Pass,
    standing: &Standing,
    id: u32,
) -> Replied
    requires hand { IsInHand (lock_in office.now) standing.now pass.old }
    requires some { IsSome standing.now.party }
    ensures comes { Comes (lock_in office.now) pass.old pass.new standing.now (asked.CancelQuery id) result }
{
    let outcome = office.cancel(rt, pass, id);
    cancelled_reply(id, outcome)
}

/// ONSTAT in an open session.
pub(crate) fn show_status<R: Wait>(
    rt: &R,
    alloc: Global,
    office: &Office,
    pass: &mut Pass,
    standing: &Standing,
    status: &mut Status,
) -> Replied
    requires hand { IsInHand (lock_in office.now) standing.now pass.old }
    requires some { IsSome standing.now.party }
    ensures comes { Comes (lock_in office.now) pass.old pass.new standing.now asked.Status result }
{
    office.look(rt, pass, status);
    match status_bytes(alloc, status) {
        Ok(text) => Replied::Shown(status.step(), text),
        Err(_) => Replied::NoRoom,
    }
}

/// QUIT in an open session.
pub(crate) fn answer_quit<R: Wait>(
    rt: &R,
    office: &Office,
    pass: &mut Pass,
    standing: &Standing,
    party: Party,
) -> Replied
    requires hand { IsInHand (lock_in office.now) standing.now pass.old }
    requires some { standing.now.party ≡ Some party }
    ensures comes { Comes (lock_in office.now) pass.old pass.new standing.now asked.Quit result }
{
    let step = office.close_session(rt, pass);
    Replied::Closed(party.number, step, false)
}

/// SHUTDOWN of an administrator.
pub(crate) fn shut_down<R: Wait>(
    rt: &R,
    office: &Office,
    pass: &mut Pass,
    standing: &Standing,
    party: Party,
) -> Replied
    requires hand { IsInHand (lock_in office.now) standing.now pass.old }
    requires some { standing.now.party ≡ Some party }
    requires admin { party.admin ≡ true }
    ensures comes { Comes (lock_in office.now) pass.old pass.new standing.now asked.Shutdown result }
{
    let step = office.close_session(rt, pass);
    Replied::Closed(party.number, step, true)
}

/// ONMODE -D in an open session.
pub(crate) fn change_priority<R: Wait>(
    rt: &R,
    office: &Office,
    pass: &mut Pass,
    standing: &Standing,
    value: u32,
) -> Replied
    requires hand { IsInHand (lock_in office.now) standing.now pass.old }
    requires some { IsSome standing.now.party }
    ensures comes { Comes (lock_in office.now) pass.old pass.new standing.now (asked.Change (Setting.MaxPriority value)) result }
{
    let outcome = office.onmode(rt, pass, Change::MaxPriority(value));
    changed_reply(Setting::MaxPriority(value), outcome)
}

/// ONMODE -S in an open session.
pub(crate) fn change_scans<R: Wait>(
    rt: &R,
    office: &Office,
    pass: &mut Pass,
    standing: &Standing,
    value: u32,
) -> Replied
    requires hand { IsInHand (lock_in office.now) standing.now pass.old }
    requires some { IsSome standing.now.party }
    ensures comes { Comes (lock_in office.now) pass.old pass.new standing.now (asked.Change (Setting.MaxScans value)) result }
{
    let outcome = office.onmode(rt, pass, Change::MaxScans(value));
    changed_reply(Setting::MaxScans(value), outcome)
}

/// ONMODE -N in an open session.
pub(crate) fn change_nonpdq<R: Wait>(
    rt: &R,
    office: &Office,
    pass: &mut Pass,
    standing: &Standing,
    value: u32,
) -> Replied
    requires hand { IsInHand (lock_in office.now) standing.now pass.old }
    requires some { IsSome standing.now.party }
    ensures comes { Comes (lock_in office.now) pass.old pass.new standing.now (asked.Change (Setting.NonPdq value)) result }
{
    let outcome = office.onmode(rt, pass, Change::NonPdq(value));
    changed_reply(Setting::NonPdq(value), outcome)
}
