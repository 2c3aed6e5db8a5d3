//! One client of the server.
ghost use Rattle.std.specs.Prelude.{◌≡◌, ◌≤◌, ℕ, List, None, Some, IsTrue, length};
ghost use Rattle.pdq_edge.specs.Causes.{Rose};
ghost use Rattle.pdq_model.specs.Configuration.{Configuration};
ghost use Rattle.pdq_office.specs.Passes.{lock_in, lock_at, known};
ghost use Rattle.pdq_serve.specs.Course.{asks, HasEnded, TookSession};
ghost use Rattle.pdq_serve.specs.declared.ends.SessionEnd.TheVariants as session_end;

use crate::course::answer_lines;
use crate::ending::{end_lines, end_of};
use crate::ends::{Ended, SessionEnd, ShutRight};
use pdq_edge::{Bell, Sink, Source, Spill};
use pdq_office::{Office, Pass, Status};
use pdq_reply::LineReader;
use pdq_table::Stored;
use pdq_talk::Standing;
use std::alloc::Global;
use std::sync::Wait;
use std::thread::Threads;

/// One client: its lines are answered one after another, over the manager that threads share, until one of them ends the session, its input ends or
/// passes a limit, reading or writing fails, or memory is wanting. Each line is answered, and the reply flushed, before anything else is done. The
/// priority of the session is `opening` percent at first.
///
/// When it returns, its session is closed, and every region and ticket was given back. The bell is rung after each of its entries, and is shut by an
/// administrator's SHUTDOWN alone.
pub fn session<
    R: Threads + Wait + Sync,
    So: Source,
    Si: Sink,
    Sp: Spill + Send,
    B: Bell<ShutRight>,
>(
    rt: &R,
    alloc: Global,
    db: &Stored,
    office: &Office,
    pass: Pass,
    opening: u32,
    source: &mut So,
    sink: &mut Si,
    stores: &mut Vec<Sp>,
    bell: &B,
) -> (Pass, Ended<So, Si>)
    requires lock { lock_at pass ≡ lock_in office.now }
    requires none { pass.session ≡ None }
    requires opening { opening ≤ 100 }
    requires stores { length stores.old.items ≡ 48 }
    ensures lock { lock_at result.0 ≡ lock_at pass }
    ensures closed { result.0.session ≡ None }
    ensures stores { length stores.new.items ≡ 48 }

    // A fault is answered only where the count of source or sink rose, and the end of the input only where it has ended.
    ensures read { result.1.end ≡ session_end.ReadFault → Rose (So.faults source.old) (So.faults source.new) }
    ensures write { result.1.end ≡ session_end.WriteFault → Rose (Si.faults sink.old) (Si.faults sink.new) }
    ensures ended { result.1.end ≡ session_end.EndOfInput → IsTrue (So.ended source.new) }

    // The lines that were taken of the input were answered by a transcript over what the pass has then seen, from the step of a look at its begin.
    ensures transcript { (lines : List (List ℕ)) × (steps : ℕ) × (length (known pass).seen ≤ steps)
        × TookSession (So.left source.old) (So.left source.new) (So.taken source.old) (So.taken source.new) lines result.1.end
        × ((c : Configuration) → (known pass).origin ≡ Some c → HasEnded c pass result.0 opening steps (asks Sp.blocks stores.old.items db.now opening lines) (Si.written sink.old) (Si.written sink.new) result.1.end) }
{
    let mut pass = pass;
    let step = office.step(rt, &mut pass);
    let Ok(mut reader) = LineReader::new(alloc) else {
        let unread = Ended::new(SessionEnd::Memory);
        return (pass, unread);
    };
    let Ok(mut status) = Status::new(alloc) else {
        let unshown = Ended::new(SessionEnd::Memory);
        return (pass, unshown);
    };
    let standing = Standing {
        party: None,
        priority: opening,
        step,
    };
    let (mut pass, standing, by, told) = answer_lines(
        rt,
        alloc,
        office,
        pass,
        standing,
        db,
        opening,
        &mut reader,
        &mut status,
        source,
        stores,
        sink,
        bell,
    );
    let (_step, told) = end_lines(
        rt, alloc, office, &mut pass, &standing, by, told, sink, bell,
    );
    let end = end_of(by, told, bell);
    let ended = Ended::new(end);
    (pass, ended)
}
