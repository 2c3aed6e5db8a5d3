//! One line of a session is answered.
ghost use Rattle.std.specs.Prelude.{◌≡◌, Some, None, length, true};
ghost use Rattle.pdq_office.specs.Passes.{lock_in};
ghost use Rattle.pdq_serve.specs.Commands.{asked_of, said_in, IsRequest};
ghost use Rattle.pdq_talk.specs.Plain.{plain_asked};
ghost use Rattle.pdq_talk.specs.Hand.{IsInHand, Comes};
ghost use Rattle.pdq_talk.specs.Lines.{reply_text};
ghost use Rattle.pdq_talk.specs.Writing.{EndsIn, Wrote};
ghost use Rattle.pdq_serve.specs.Questions.{all_tell};
ghost use Rattle.pdq_talk.specs.declared.replied.Replied.TheVariants as told;

use crate::commands::Request;
use crate::ends::ShutRight;
use crate::query::answer_query;
use pdq_edge::{Bell, Sink, Spill};
use pdq_office::{Office, Pass, Status};
use pdq_table::Stored;
use pdq_talk::{Break, Replied, Standing, answer_plain, tell_reply};
use std::alloc::Global;
use std::sync::Wait;
use std::thread::Threads;

/// A query before the session was opened: it is not looked at.
fn answer_unopened<Si: Sink>(alloc: Global, sink: &mut Si) -> (Replied, Result<(), Break>)
    ensures reply { result.0 ≡ told.NoSession }
    ensures wrote { Wrote (Si.written sink.old) (Si.written sink.new) (Si.faults sink.old) (Si.faults sink.new) result.1 (reply_text result.0) }
{
    let reply = Replied::NoSession;
    let told = tell_reply(alloc, &reply, sink);
    (reply, told)
}

/// A line of a session, to its reply.
pub(crate) fn answer_line<R: Threads + Wait + Sync, Sp: Spill + Send, Si: Sink, B: Bell<ShutRight>>(
    rt: &R,
    alloc: Global,
    office: &Office,
    pass: Pass,
    standing: &Standing,
    stored: &Stored,
    request: &Request,
    status: &mut Status,
    stores: &mut Vec<Sp>,
    sink: &mut Si,
    bell: &B,
) -> (Pass, Replied, Result<(), Break>)
    requires hand { IsInHand (lock_in office.now) standing.now pass }
    requires request { IsRequest stored.now request.now }
    requires stores { length stores.old.items ≡ 48 }
    ensures ends { EndsIn (lock_in office.now) pass result.0 standing.now (asked_of Sp.blocks stores.old.items stored.now (said_in request.now)) result.1 result.2 }
    ensures wrote { Wrote (Si.written sink.old) (Si.written sink.new) (Si.faults sink.old) (Si.faults sink.new) result.2 (reply_text result.1) }
    ensures stores { length stores.new.items ≡ 48 }
    ensures tell { all_tell Sp.blocks stores.old.items ≡ true → all_tell Sp.blocks stores.new.items ≡ true }
{
    match request {
        Request::Plain(line) => {
            let mut pass = pass;
            let reply = answer_plain(rt, alloc, office, &mut pass, standing, *line, status);
            bell.ring();
            let told = tell_reply(alloc, &reply, sink);
            (pass, reply, told)
        }
        Request::Query(question) => match standing.party {
            None => {
                let (reply, told) = answer_unopened(alloc, sink);
                (pass, reply, told)
            }
            Some(_) => answer_query(
                rt, alloc, office, pass, standing, stored, question, stores, sink, bell,
            ),
        },
    }
}
