//! One line of a session is answered that is no query.
ghost use Rattle.std.specs.Prelude.{◌≡◌, Some, None};
ghost use Rattle.pdq_office.specs.Passes.{lock_in};
ghost use Rattle.pdq_talk.specs.Hand.{IsInHand, Comes};
ghost use Rattle.pdq_talk.specs.Plain.{plain_asked};

use crate::commands::Plain;
use crate::plain::{
    answer_quit, cancel_query, not_allowed, not_now, open_party, set_priority, show_status,
    shut_down,
};
use crate::pools::change_setting;
use crate::replied::{Party, Replied, Standing};
use pdq_office::{Office, Pass, Status};
use std::alloc::Global;
use std::sync::Wait;

/// A line before the session was opened.
fn answer_before<R: Wait>(
    rt: &R,
    office: &Office,
    pass: &mut Pass,
    standing: &Standing,
    line: Plain,
) -> Replied
    requires hand { IsInHand (lock_in office.now) standing.now pass.old }
    requires none { standing.now.party ≡ None }
    ensures comes { Comes (lock_in office.now) pass.old pass.new standing.now (plain_asked line) result }
{
    match line {
        Plain::Nothing => Replied::Silent,
        Plain::BadLine(fault) => Replied::Error(fault),
        Plain::Unresolved(_) => Replied::NoSession,
        Plain::Open(admin) => open_party(rt, office, pass, standing, admin),
        Plain::Priority(_) => Replied::NoSession,
        Plain::Cancel(_) => Replied::NoSession,
        Plain::Change(_) => Replied::NoSession,
        Plain::Status => Replied::NoSession,
        Plain::Quit => Replied::Left,
        Plain::Shutdown => Replied::NoSession,
    }
}

/// SHUTDOWN in an open session.
fn answer_shutdown<R: Wait>(
    rt: &R,
    office: &Office,
    pass: &mut Pass,
    standing: &Standing,
    party: Party,
) -> Replied
    requires hand { IsInHand (lock_in office.now) standing.now pass.old }
    requires some { standing.now.party ≡ Some party }
    ensures comes { Comes (lock_in office.now) pass.old pass.new standing.now (plain_asked Plain.Shutdown) result }
{
    if party.admin {
        shut_down(rt, office, pass, standing, party)
    } else {
        not_allowed(rt, office, pass, standing)
    }
}

/// A line in an open session.
fn answer_within<R: Wait>(
    rt: &R,
    alloc: Global,
    office: &Office,
    pass: &mut Pass,
    standing: &Standing,
    party: Party,
    line: Plain,
    status: &mut Status,
) -> Replied
    requires hand { IsInHand (lock_in office.now) standing.now pass.old }
    requires some { standing.now.party ≡ Some party }
    ensures comes { Comes (lock_in office.now) pass.old pass.new standing.now (plain_asked line) result }
{
    match line {
        Plain::Nothing => Replied::Silent,
        Plain::BadLine(fault) => Replied::Error(fault),
        Plain::Unresolved(fault) => Replied::Error(fault),
        Plain::Open(admin) => not_now(rt, office, pass, standing, admin),
        Plain::Priority(level) => set_priority(office, pass, standing, level),
        Plain::Cancel(id) => cancel_query(rt, office, pass, standing, id),
        Plain::Change(setting) => change_setting(
            rt, alloc, office, pass, standing, status, setting,
        ),
        Plain::Status => show_status(rt, alloc, office, pass, standing, status),
        Plain::Quit => answer_quit(rt, office, pass, standing, party),
        Plain::Shutdown => answer_shutdown(rt, office, pass, standing, party),
    }
}

/// A line that is no query.
pub fn answer_plain<R: Wait>(
    rt: &R,
    alloc: Global,
    office: &Office,
    pass: &mut Pass,
    standing: &Standing,
    line: Plain,
    status: &mut Status,
) -> Replied
    requires hand { IsInHand (lock_in office.now) standing.now pass.old }
    ensures comes { Comes (lock_in office.now) pass.old pass.new standing.now (plain_asked line) result }
{
    match standing.party {
        None => answer_before(rt, office, pass, standing, line),
        Some(party) => answer_within(rt, alloc, office, pass, standing, party, line, status),
    }
}
