//! Callers are accepted, and a session is started for each.
ghost use Rattle.std.specs.Prelude.{◌≡◌, ◌≤◌, ◌++◌, ◌∷◌, [], All, ℕ, IfSome, IsTrue, IsErrOf, OnErr, OnOk, true};
ghost use Rattle.pdq_edge.specs.Bytes.{told_count};
ghost use Rattle.pdq_edge.specs.Causes.{Rose};
ghost use Rattle.pdq_turn.specs.Pass.{mark_of};
ghost use Rattle.pdq_office.specs.Passes.{lock_at, lock_in, known};
ghost use Rattle.pdq_accept.specs.Accepting.{GoesOn};

use crate::jobs::{SessionDone, SessionJob};
use pdq_edge::{
    Bell, Caller, Door, Job, Knock, ShutSeen, Sink, Source, Spawner, Spill, StartFault,
};
use pdq_office::{Office, Pass};
use pdq_serve::ShutRight;
use pdq_table::Stored;
use std::alloc::Global;
use std::sync::Wait;

/// Why no more callers are accepted.
#[derive(Drop)]
pub(crate) enum Cause {
    DoorFailed,
    Closed,
    Shut(ShutSeen<ShutRight>),
}

/// The callers that no session was started for.
#[derive(Drop)]
pub(crate) struct Unserved {
    pub unstarted: u64,
    pub unanswered: u64,
}

impl Unserved {
    /// Counts a caller whose session was not started, for this fault.
    fn count(&mut self, fault: StartFault)
        ensures failed { fault ≡ StartFault.Failed → (self.new.unstarted ≡ told_count self.old.unstarted 1) × (self.new.unanswered ≡ self.old.unanswered) }
        ensures memory { fault ≡ StartFault.Memory → (self.new.unstarted ≡ self.old.unstarted) × (self.new.unanswered ≡ told_count self.old.unanswered 1) }
    {
        match fault {
            StartFault::Failed => self.unstarted = self.unstarted.saturating_add(1),
            StartFault::Memory => self.unanswered = self.unanswered.saturating_add(1),
        }
    }
}

/// Starts a session for a caller.
fn start_session<'a, So, Si, Sp, B, P>(
    alloc: Global,
    stored: &'a Stored,
    office: &'a Office,
    pass: &mut Pass,
    opening: u32,
    caller: Caller<So, Si, Sp>,
    spawner: &mut P,
    bell: &'a B,
) -> Result<(), StartFault>
where
    So: Source + Send + Drop,
    Si: Sink + Send + Drop,
    Sp: Spill + Send + Drop,
    B: Bell<ShutRight> + Sync + 'a,
    SessionJob<'a, So, Si, Sp, B>: Job<Out = SessionDone<So, Si>>,
    P: Spawner<SessionJob<'a, So, Si, Sp, B>>,
    requires job { (job : _) → ⟦<SessionJob<'a, So, Si, Sp, B> as Job>⟧.mark job ≡ mark_of (lock_at job.pass) }
    requires lock { (lock_at pass.old ≡ lock_in office.now) × ((known pass.old).is_first ≡ true) }
    requires opening { opening ≤ 100 }
    requires ready { P.ready spawner.old }
    ensures lock { (lock_at pass.new ≡ lock_in office.now) × ((known pass.new).is_first ≡ true) }
    ensures seen { (known pass.new).seen ≡ (known pass.old).seen }
    ensures ready { P.ready spawner.new }
    ensures started { OnOk result (P.started spawner.new ≡ told_count (P.started spawner.old) 1) }
    ensures marks { OnOk result (P.marks spawner.new ≡ P.marks spawner.old ++ mark_of (lock_in office.now) ∷ []) }
    ensures gathered { P.gathered spawner.new ≡ P.gathered spawner.old }
    ensures err_started { OnErr result (P.started spawner.new ≡ P.started spawner.old) }
    ensures err_marks { OnErr result (P.marks spawner.new ≡ P.marks spawner.old) }
    ensures later { P.faults spawner.old ≤ P.faults spawner.new }
    ensures failed { IsErrOf result StartFault.Failed → Rose (P.faults spawner.old) (P.faults spawner.new) }
{
    let own = office.split(pass);
    spawner.start(SessionJob {
        alloc,
        stored,
        office,
        bell,
        pass: own,
        opening,
        caller,
    })
}

/// Starts a session for a caller, or counts the caller as one that was not served.
#[tactic(auto, using(crate::proofs::Accepted::goes_on_started, crate::proofs::Accepted::goes_on_unstarted, crate::proofs::Accepted::goes_on_unanswered))]
fn admit<'a, So, Si, Sp, B, P>(
    alloc: Global,
    stored: &'a Stored,
    office: &'a Office,
    pass: &mut Pass,
    opening: u32,
    caller: Caller<So, Si, Sp>,
    spawner: &mut P,
    bell: &'a B,
    counts: &mut Unserved,
)
where
    So: Source + Send + Drop,
    Si: Sink + Send + Drop,
    Sp: Spill + Send + Drop,
    B: Bell<ShutRight> + Sync + 'a,
    SessionJob<'a, So, Si, Sp, B>: Job<Out = SessionDone<So, Si>>,
    P: Spawner<SessionJob<'a, So, Si, Sp, B>>,
    requires job { (job : _) → ⟦<SessionJob<'a, So, Si, Sp, B> as Job>⟧.mark job ≡ mark_of (lock_at job.pass) }
    requires lock { (lock_at pass.old ≡ lock_in office.now) × ((known pass.old).is_first ≡ true) }
    requires opening { opening ≤ 100 }
    requires ready { P.ready spawner.old }
    ensures lock { (lock_at pass.new ≡ lock_in office.now) × ((known pass.new).is_first ≡ true) }
    ensures seen { (known pass.new).seen ≡ (known pass.old).seen }
    ensures ready { P.ready spawner.new }
    ensures counts { (given : ℕ) → GoesOn (mark_of (lock_in office.now)) (P.marks spawner.old) (P.started spawner.old) (P.gathered spawner.old) (P.faults spawner.old) given counts.old.unstarted counts.old.unanswered (P.marks spawner.new) (P.started spawner.new) (P.gathered spawner.new) (P.faults spawner.new) (told_count given 1) counts.new.unstarted counts.new.unanswered }
{
    match start_session(alloc, stored, office, pass, opening, caller, spawner, bell) {
        Ok(()) => {}
        Err(fault) => counts.count(fault),
    }
}

/// Takes what the door answers next. Some is why no more callers are accepted.
fn accept_next<'a, D, P, B, So, Si, Sp>(
    alloc: Global,
    stored: &'a Stored,
    office: &'a Office,
    pass: &mut Pass,
    opening: u32,
    door: &mut D,
    spawner: &mut P,
    bell: &'a B,
    counts: &mut Unserved,
) -> Option<Cause>
where
    D: Door<Caller<So, Si, Sp>>,
    So: Source + Send + Drop,
    Si: Sink + Send + Drop,
    Sp: Spill + Send + Drop,
    B: Bell<ShutRight> + Sync + 'a,
    SessionJob<'a, So, Si, Sp, B>: Job<Out = SessionDone<So, Si>>,
    P: Spawner<SessionJob<'a, So, Si, Sp, B>>,
    requires job { (job : _) → ⟦<SessionJob<'a, So, Si, Sp, B> as Job>⟧.mark job ≡ mark_of (lock_at job.pass) }
    requires lock { (lock_at pass.old ≡ lock_in office.now) × ((known pass.old).is_first ≡ true) }
    requires opening { opening ≤ 100 }
    requires ready { P.ready spawner.old }
    ensures lock { (lock_at pass.new ≡ lock_in office.now) × ((known pass.new).is_first ≡ true) }
    ensures seen { (known pass.new).seen ≡ (known pass.old).seen }
    ensures ready { P.ready spawner.new }
    ensures counts { GoesOn (mark_of (lock_in office.now)) (P.marks spawner.old) (P.started spawner.old) (P.gathered spawner.old) (P.faults spawner.old) (D.given door.old) counts.old.unstarted counts.old.unanswered (P.marks spawner.new) (P.started spawner.new) (P.gathered spawner.new) (P.faults spawner.new) (D.given door.new) counts.new.unstarted counts.new.unanswered }
    ensures door_failed { IfSome result (λ cause. cause ≡ Cause.DoorFailed → Rose (D.faults door.old) (D.faults door.new)) }
    ensures closed { IfSome result (λ cause. cause ≡ Cause.Closed → IsTrue (D.closed door.new)) }
    ensures door_later { D.faults door.old ≤ D.faults door.new }
{
    match door.next() {
        Ok(Knock::Came(caller)) => {
            admit(
                alloc, stored, office, pass, opening, caller, spawner, bell, counts,
            );
            None
        }
        Ok(Knock::Lost) => {
            counts.count(StartFault::Memory);
            None
        }
        Ok(Knock::Quiet) => None,
        Ok(Knock::Closed) => Some(Cause::Closed),
        Err(_) => Some(Cause::DoorFailed),
    }
}

/// Accepts callers until the bell is shut, the door is closed or it fails.
pub(crate) fn accept_all<'a, R, D, P, B, So, Si, Sp>(
    rt: &R,
    alloc: Global,
    stored: &'a Stored,
    office: &'a Office,
    pass: &mut Pass,
    opening: u32,
    door: &mut D,
    spawner: &mut P,
    bell: &'a B,
    counts: &mut Unserved,
) -> Cause
where
    R: Wait,
    D: Door<Caller<So, Si, Sp>>,
    So: Source + Send + Drop,
    Si: Sink + Send + Drop,
    Sp: Spill + Send + Drop,
    B: Bell<ShutRight> + Sync + 'a,
    SessionJob<'a, So, Si, Sp, B>: Job<Out = SessionDone<So, Si>>,
    P: Spawner<SessionJob<'a, So, Si, Sp, B>>,
    requires job { (job : _) → ⟦<SessionJob<'a, So, Si, Sp, B> as Job>⟧.mark job ≡ mark_of (lock_at job.pass) }
    requires lock { (lock_at pass.old ≡ lock_in office.now) × ((known pass.old).is_first ≡ true) }
    requires opening { opening ≤ 100 }
    requires ready { P.ready spawner.old }
    requires marks { P.marks spawner.old ≡ [] }
    requires none { (counts.old.unstarted ≡ 0) × (counts.old.unanswered ≡ 0) }
    ensures lock { (lock_at pass.new ≡ lock_in office.now) × ((known pass.new).is_first ≡ true) }
    ensures seen { (known pass.new).seen ≡ (known pass.old).seen }
    ensures marked { All (λ m. m ≡ mark_of (lock_in office.now)) (P.marks spawner.new) }
    ensures counts { GoesOn (mark_of (lock_in office.now)) (P.marks spawner.old) (P.started spawner.old) (P.gathered spawner.old) (P.faults spawner.old) (D.given door.old) counts.old.unstarted counts.old.unanswered (P.marks spawner.new) (P.started spawner.new) (P.gathered spawner.new) (P.faults spawner.new) (D.given door.new) counts.new.unstarted counts.new.unanswered }
    ensures door_failed { result ≡ Cause.DoorFailed → Rose (D.faults door.old) (D.faults door.new) }
    ensures closed { result ≡ Cause.Closed → IsTrue (D.closed door.new) }
    ensures door_later { D.faults door.old ≤ D.faults door.new }
{
    'callers: for _ in rt.forever() {
        if let Some(seen) = bell.is_shut() {
            return Cause::Shut(seen);
        }
        if let Some(cause) = accept_next(
            alloc, stored, office, pass, opening, door, spawner, bell, counts,
        ) {
            return cause;
        }
    }
    unreachable!()
}
