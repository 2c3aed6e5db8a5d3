//! A QUERY line: submitted, waited for, run, finished, and told of.
ghost use Rattle.std.specs.Prelude.{◌≡◌, ◌≤◌, ◌++◌, ℕ, Option, List, IsOk, Some, None, IsSome, length, true};
ghost use Rattle.pdq_query.specs.Queries.{query_of};
ghost use Rattle.pdq_office.specs.Passes.{lock_in, lock_at, IsOpen, IsTicket};
ghost use Rattle.pdq_talk.specs.Lines.{came_text, reply_text};
ghost use Rattle.pdq_talk.specs.Lines as asked;
ghost use Rattle.pdq_talk.specs.Hand.{IsInHand};
ghost use Rattle.pdq_serve.specs.Query.{Followed, IsFollowedOf, IsGrantedOf, IsRunOf};
ghost use Rattle.pdq_talk.specs.Writing.{EndsIn, Wrote};
ghost use Rattle.pdq_serve.specs.Questions.{all_tell, expects, IsQuestion};
ghost use Rattle.pdq_talk.specs.declared.replied.Replied.TheVariants as told;

use crate::ends::ShutRight;
use crate::fetching::{Fetched, cancel_if_broken, fetch};
use crate::questions::Question;
use crate::running::run_granted;
use pdq_edge::{Bell, Sink, Spill};
use pdq_office::{Grant, Held, Office, Pass, Placed, Refused, Ticket};
use pdq_table::Stored;
use pdq_talk::{
    Break, Came, Replied, Standing, cancelled_bytes, granted_bytes, placed_bytes, refused_bytes,
    tell,
};
use std::alloc::Global;
use std::sync::Wait;
use std::thread::Threads;

/// A granted query: its GRANTED line, its run and its end.
fn follow_granted<R: Threads + Wait + Sync, Sp: Spill + Send, Si: Sink, B: Bell<ShutRight>>(
    rt: &R,
    alloc: Global,
    office: &Office,
    pass: Pass,
    id: u32,
    held: Held,
    grant: Grant,
    stored: &Stored,
    question: &Question,
    stores: &mut Vec<Sp>,
    sink: &mut Si,
    told: Result<(), Break>,
    bell: &B,
) -> (Pass, Came, Result<(), Break>)
    requires lock { lock_at pass ≡ lock_in office.now }
    requires opens { IsOpen pass }
    requires grant { IsGrantedOf pass id held grant }
    requires question { IsQuestion stored.now question.now }
    requires stores { length stores.old.items ≡ 48 }
    ensures run { IsRunOf pass result.0 id (expects Sp.blocks stores.old.items stored.now (query_of question.now.query)) grant result.1 }
    ensures wrote { (before : Option (List ℕ)) (faults : ℕ) (so_far : List ℕ) → Wrote before (Si.written sink.old) faults (Si.faults sink.old) told so_far
        → Wrote before (Si.written sink.new) faults (Si.faults sink.new) result.2 (so_far ++ came_text id result.1) }
    ensures kept { IsOk result.2 → IsOk told }
    ensures stores { length stores.new.items ≡ 48 }
    ensures tell { all_tell Sp.blocks stores.old.items ≡ true → all_tell Sp.blocks stores.new.items ≡ true }
{
    let Grant {
        region,
        quanta,
        scans,
        priority,
        flagged,
        step,
    } = grant;
    let told = tell(sink, told, granted_bytes(alloc, id, step, quanta, scans));
    let (pass, ran, told) = run_granted(
        rt, alloc, office, pass, id, held, region, scans, priority, flagged, stored, question,
        stores, sink, told, bell,
    );
    (
        pass,
        Came::WasGranted(step, quanta, scans, priority, flagged, ran),
        told,
    )
}

/// A query that was placed, to its end.
fn follow<R: Threads + Wait + Sync, Sp: Spill + Send, Si: Sink, B: Bell<ShutRight>>(
    rt: &R,
    alloc: Global,
    office: &Office,
    pass: Pass,
    id: u32,
    ticket: Ticket,
    stored: &Stored,
    question: &Question,
    stores: &mut Vec<Sp>,
    sink: &mut Si,
    told: Result<(), Break>,
    bell: &B,
) -> (Pass, Came, Result<(), Break>)
    requires lock { lock_at pass ≡ lock_in office.now }
    requires opens { IsOpen pass }
    requires id { ticket.id ≡ id }
    requires ticket { IsTicket pass ticket }
    requires question { IsQuestion stored.now question.now }
    requires stores { length stores.old.items ≡ 48 }
    ensures followed { Followed pass result.0 id (expects Sp.blocks stores.old.items stored.now (query_of question.now.query)) result.1 result.2 }
    ensures wrote { (before : Option (List ℕ)) (faults : ℕ) (so_far : List ℕ) → Wrote before (Si.written sink.old) faults (Si.faults sink.old) told so_far
        → Wrote before (Si.written sink.new) faults (Si.faults sink.new) result.2 (so_far ++ came_text id result.1) }
    ensures kept { IsOk result.2 → IsOk told }
    ensures stores { length stores.new.items ≡ 48 }
    ensures tell { all_tell Sp.blocks stores.old.items ≡ true → all_tell Sp.blocks stores.new.items ≡ true }
{
    let mut pass = pass;
    cancel_if_broken(rt, office, &mut pass, id, told);
    bell.ring();
    let fetched = fetch(rt, office, &mut pass, bell, ticket);
    bell.ring();
    match fetched {
        Fetched::Withdrawn(by, step) => {
            let told = tell(sink, told, cancelled_bytes(alloc, id, step, by));
            (pass, Came::WasCancelled(step, by), told)
        }
        Fetched::Granted(held, grant) => follow_granted(
            rt, alloc, office, pass, id, held, grant, stored, question, stores, sink, told, bell,
        ),
    }
}

/// A query that was placed: its QUERY line, and what becomes of it.
fn follow_placed<R: Threads + Wait + Sync, Sp: Spill + Send, Si: Sink, B: Bell<ShutRight>>(
    rt: &R,
    alloc: Global,
    office: &Office,
    pass: Pass,
    frags: u32,
    ticket: Ticket,
    placed: Placed,
    stored: &Stored,
    question: &Question,
    stores: &mut Vec<Sp>,
    sink: &mut Si,
    bell: &B,
) -> (Pass, Replied, Result<(), Break>)
    requires lock { lock_at pass ≡ lock_in office.now }
    requires opens { IsOpen pass }
    requires id { ticket.id ≡ placed.id }
    requires ticket { IsTicket pass ticket }
    requires question { IsQuestion stored.now question.now }
    requires stores { length stores.old.items ≡ 48 }
    ensures followed { IsFollowedOf pass result.0 (expects Sp.blocks stores.old.items stored.now (query_of question.now.query)) frags placed result.1 result.2 }
    ensures wrote { Wrote (Si.written sink.old) (Si.written sink.new) (Si.faults sink.old) (Si.faults sink.new) result.2 (reply_text result.1) }
    ensures stores { length stores.new.items ≡ 48 }
    ensures tell { all_tell Sp.blocks stores.old.items ≡ true → all_tell Sp.blocks stores.new.items ≡ true }
{
    let Placed {
        id,
        step,
        priority,
        gate,
    } = placed;
    let told = tell(sink, Ok(()), placed_bytes(alloc, id, step, priority, gate));
    let (pass, came, told) = follow(
        rt, alloc, office, pass, id, ticket, stored, question, stores, sink, told, bell,
    );
    (
        pass,
        Replied::Placed(frags, id, step, priority, gate, came),
        told,
    )
}

/// The refusal of a query.
fn answer_refused<Si: Sink>(
    alloc: Global,
    refused: Refused,
    sink: &mut Si,
) -> (Replied, Result<(), Break>)
    ensures reply { result.0 ≡ told.Refused refused.why refused.step }
    ensures wrote { Wrote (Si.written sink.old) (Si.written sink.new) (Si.faults sink.old) (Si.faults sink.new) result.1 (reply_text result.0) }
{
    let told = tell(
        sink,
        Ok(()),
        refused_bytes(alloc, refused.why, refused.step),
    );
    (Replied::Refused(refused.why, refused.step), told)
}

/// QUERY in an open session.
pub(crate) fn answer_query<
    R: Threads + Wait + Sync,
    Sp: Spill + Send,
    Si: Sink,
    B: Bell<ShutRight>,
>(
    rt: &R,
    alloc: Global,
    office: &Office,
    pass: Pass,
    standing: &Standing,
    stored: &Stored,
    question: &Question,
    stores: &mut Vec<Sp>,
    sink: &mut Si,
    bell: &B,
) -> (Pass, Replied, Result<(), Break>)
    requires hand { IsInHand (lock_in office.now) standing.now pass }
    requires some { IsSome standing.now.party }
    requires question { IsQuestion stored.now question.now }
    requires stores { length stores.old.items ≡ 48 }
    ensures ends { EndsIn (lock_in office.now) pass result.0 standing.now (asked.Query question.now.frags (expects Sp.blocks stores.old.items stored.now (query_of question.now.query))) result.1 result.2 }
    ensures wrote { Wrote (Si.written sink.old) (Si.written sink.new) (Si.faults sink.old) (Si.faults sink.new) result.2 (reply_text result.1) }
    ensures stores { length stores.new.items ≡ 48 }
    ensures tell { all_tell Sp.blocks stores.old.items ≡ true → all_tell Sp.blocks stores.new.items ≡ true }
{
    let frags = question.frags;
    let mut pass = pass;
    match office.submit(rt, &mut pass, standing.priority, frags) {
        Ok(sent) => {
            let (ticket, placed) = sent.parts();
            bell.ring();
            follow_placed(
                rt, alloc, office, pass, frags, ticket, placed, stored, question, stores, sink,
                bell,
            )
        }
        Err(refused) => {
            let (reply, told) = answer_refused(alloc, refused, sink);
            (pass, reply, told)
        }
    }
}
