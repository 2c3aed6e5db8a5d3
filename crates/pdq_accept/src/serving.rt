//! Serving callers.
ghost use Rattle.std.specs.Prelude.{◌≡◌, ◌≤◌, [], All, IsTrue, length, true};
ghost use mathlib.Core.List.{IsPrefix};
ghost use Rattle.pdq_edge.specs.Bytes.{told_count};
ghost use Rattle.pdq_edge.specs.Causes.{Rose};
ghost use Rattle.pdq_edge.specs.Serving.{callers_counted, causes_told};
ghost use Rattle.pdq_accept.specs.Accepting.{RoseAtLeast, RoseBy};
ghost use Rattle.pdq_turn.specs.Pass.{mark_of};
ghost use Rattle.pdq_office.specs.Passes.{lock_at, lock_in, known};

use crate::accepting::{Cause, Unserved, accept_all};
use crate::jobs::{SessionDone, SessionJob};
use pdq_edge::{Bell, Caller, Door, Job, ServeEnd, Sink, Source, Spawner, Spill};
use pdq_office::{Office, Pass};
use pdq_serve::ShutRight;
use pdq_table::Stored;
use std::alloc::Global;
use std::sync::Wait;

/// Waits for the sessions that were started, in order, and joins their passes to this one. It answers how many there were.
fn gather_all<'a, So, Si, Sp, B, P>(office: &Office, pass: &mut Pass, spawner: &mut P) -> u64
where
    So: Source + Send + Drop,
    Si: Sink + Send + Drop,
    Sp: Spill + Send + Drop,
    B: Bell<ShutRight> + Sync + 'a,
    SessionJob<'a, So, Si, Sp, B>: Job<Out = SessionDone<So, Si>>,
    P: Spawner<SessionJob<'a, So, Si, Sp, B>>,
    requires done { (done : _) → ⟦<SessionJob<'a, So, Si, Sp, B> as Job>⟧.mark_of done ≡ mark_of (lock_at done.pass) }
    requires lock { lock_at pass.old ≡ lock_in office.now }
    requires marked { All (λ m. m ≡ mark_of (lock_in office.now)) (P.marks spawner.old) }
    ensures lock { lock_at pass.new ≡ lock_in office.now }
    ensures seen { IsPrefix (known pass.old).seen (known pass.new).seen }
    ensures count { result ≡ told_count 0 (length (P.marks spawner.old)) }
    ensures gathered { RoseBy (P.gathered spawner.old) (P.gathered spawner.new) result }
    ensures started { P.started spawner.new ≡ P.started spawner.old }
    ensures marks { P.marks spawner.new ≡ [] }
    ensures faults { P.faults spawner.new ≡ P.faults spawner.old }
{
    let mut served = 0u64;
    'sessions: while let Some(done) = spawner.gather() {
        let SessionDone {
            pass: other,
            ended: _,
        } = done;
        office.meet(pass, other);
        served = served.saturating_add(1);
    }
    served
}

/// Serves callers: it accepts until the bell is shut, the door is closed or the door fails, and starts a session for each. Then it waits for all the
/// sessions and joins their passes.
pub fn serve<'a, R, D, P, B, So, Si, Sp>(
    rt: &R,
    alloc: Global,
    stored: &'a Stored,
    office: &'a Office,
    pass: Pass,
    opening: u32,
    door: &mut D,
    spawner: &mut P,
    bell: &'a B,
) -> (Pass, ServeEnd<ShutRight>)
where
    R: Wait,
    D: Door<Caller<So, Si, Sp>>,
    So: Source + Send + Drop,
    Si: Sink + Send + Drop,
    Sp: Spill + Send + Drop,
    B: Bell<ShutRight> + Sync + 'a,
    SessionJob<'a, So, Si, Sp, B>: Job<Out = SessionDone<So, Si>>,
    P: Spawner<SessionJob<'a, So, Si, Sp, B>>,
    requires job { (job : _) → ⟦<SessionJob<'a, So, Si, Sp, B> as Job>⟧.mark job ≡ mark_of (lock_at job.pass) }
    requires done { (done : _) → ⟦<SessionJob<'a, So, Si, Sp, B> as Job>⟧.mark_of done ≡ mark_of (lock_at done.pass) }
    requires first { (lock_at pass ≡ lock_in office.now) × ((known pass).is_first ≡ true) }
    requires opening { opening ≤ 100 }
    requires marks { P.marks spawner.old ≡ [] }
    requires ready { P.ready spawner.old }
    ensures pass { lock_at result.0 ≡ lock_in office.now }
    ensures seen { IsPrefix (known pass).seen (known result.0).seen }
    ensures served { RoseBy (P.gathered spawner.old) (P.gathered spawner.new) result.1.served }
    ensures started { RoseBy (P.started spawner.old) (P.started spawner.new) result.1.served }
    ensures marks { P.marks spawner.new ≡ [] }
    ensures given { RoseBy (D.given door.old) (D.given door.new) (callers_counted result.1) }
    ensures unstarted { RoseAtLeast (P.faults spawner.old) (P.faults spawner.new) result.1.unstarted }
    ensures cause { causes_told result.1 ≡ 1 }
    ensures door_failed { IsTrue result.1.door_failed → Rose (D.faults door.old) (D.faults door.new) }
    ensures closed { IsTrue result.1.closed → IsTrue (D.closed door.new) }
    ensures door_later { D.faults door.old ≤ D.faults door.new }
    ensures spawner_later { P.faults spawner.old ≤ P.faults spawner.new }
{
    let mut pass = pass;
    let mut counts = Unserved {
        unstarted: 0,
        unanswered: 0,
    };
    let cause = accept_all(
        rt,
        alloc,
        stored,
        office,
        &mut pass,
        opening,
        door,
        spawner,
        bell,
        &mut counts,
    );
    let Unserved {
        unstarted,
        unanswered,
    } = counts;
    let served = gather_all(office, &mut pass, spawner);
    (pass, end_of(served, unstarted, unanswered, cause))
}

/// How serving ended, for this cause.
fn end_of(served: u64, unstarted: u64, unanswered: u64, cause: Cause) -> ServeEnd<ShutRight>
    ensures counts { (result.served ≡ served) × (result.unstarted ≡ unstarted) × (result.unanswered ≡ unanswered) }
    ensures one { causes_told result ≡ 1 }
    ensures door_failed { IsTrue result.door_failed → cause ≡ Cause.DoorFailed }
    ensures closed { IsTrue result.closed → cause ≡ Cause.Closed }
{
    let (door_failed, closed, shut) = match cause {
        Cause::DoorFailed => (true, false, None),
        Cause::Closed => (false, true, None),
        Cause::Shut(seen) => (false, false, Some(seen)),
    };
    ServeEnd {
        served,
        unstarted,
        unanswered,
        door_failed,
        closed,
        shut,
    }
}
