//! The office: the manager behind a lock.
ghost use Rattle.std.specs.Prelude.{◌≡◌, ℕ, ◌*◌, ◌≤◌, ⊤, true, [], List, Some, None, IfOk, IfErr, IsOk, MatchResult, length};
ghost use mathlib.Core.List.{IsPrefix};
ghost use Rattle.pdq_model.specs.Configuration.{frames_per_quantum};
ghost use Rattle.pdq_model.specs.Step.{is_admin};
ghost use Rattle.pdq_model.specs.StatusView.{status_of};
ghost use Rattle.pdq_gate.specs.Invariant.{IsWholePool};
ghost use Rattle.pdq_gate.specs.Answers.{IsOpened, IsCancelled, IsChanged};
ghost use Rattle.pdq_gate.specs.Changes.{setting_of, pool_size};
ghost use Rattle.pdq_gate.specs.Queries.{flag_of};
ghost use Rattle.pdq_turn.specs.LockRule.{first_view, is_among, with_turn, with_ticket, SplitsPass, JoinsPasses};
ghost use Rattle.pdq_turn.specs.Pass.{lock_of, lock_id, view_of, IsFree, HasTurn};
ghost use Rattle.pdq_office.specs.Turns.{Finds, Looks};
ghost use Rattle.pdq_office.specs.Answers.{IsSent, IsGot, OnSent, OnGot};
ghost use Rattle.pdq_office.specs.Passes.{lock_at, lock_in, known, IsOpen, session_of, IsTicket, IsHeld, Unfinished, Follows, Keeps, KeepsBut, Adds, AddsNone, Ends, MakesNew, MakesOwn, MakesChange};

use crate::answers::{Got, Sent, as_got, as_sent};
use crate::pass::{Held, Pass, Ticket};
use pdq_frame::{Pool, Region};
use pdq_gate::{Cancelled, Change, Changed, Config, Event, How, Manager, Opened, Refused, Status};
use pdq_turn::Turnstile;
use std::alloc::Global;
use std::sync::Wait;

/// A manager that threads share. Each call but `new`, `split`, `meet` and `close` is one turn: it finds the manager after all entries that were
/// made before, and makes one entry or none.
pub struct Office {
    pub(crate) lock: Turnstile<Manager>,
}

impl Office {
    /// An office over a new manager, and its first pass. Err hands the pool back: there was no memory.
    pub fn new(alloc: Global, config: Config, pool: Pool) -> Result<(Office, Pass), Pool>
        requires pool { IsWholePool config pool }
        ensures made { IfOk result (λ r. (lock_at r.1 ≡ lock_in r.0) × (known r.1 ≡ first_view config []) × (r.1.session ≡ None)) }
        ensures returned { IfErr result (λ p. IsWholePool config p) }
    {
        let manager = Manager::new(alloc, config, pool)?;
        match Turnstile::new(alloc, manager) {
            Ok((lock, turn)) => Ok((
                Office { lock },
                Pass {
                    turn,
                    session: None,
                },
            )),
            Err(manager) => Err(manager.end()),
        }
    }

    /// Takes the turn, and hands the manager out.
    fn begin<R: Wait>(&self, rt: &R, turn: &mut pdq_turn::Pass<Manager>) -> Manager
        requires free { (lock_of turn.old ≡ lock_id self.now.lock) × IsFree turn.old }
        ensures same { lock_of turn.new ≡ lock_of turn.old }
        ensures turn { HasTurn turn.new }
        ensures finds { Finds (view_of turn.old) result }
        ensures view { (t : ℕ) × (view_of turn.new ≡ with_turn result.history (with_ticket t (view_of turn.old))) }
    {
        let manager = self.lock.take(rt, turn);
        manager.certify();
        manager
    }

    /// Opens a session for the pass, of an administrator or of a user.
    ///
    /// # Errors
    /// `TooManySessions`, then `JournalFull`, as the manager's call.
    pub fn open_session<R: Wait>(
        &self,
        rt: &R,
        pass: &mut Pass,
        admin: bool,
    ) -> Result<Opened, Refused>
        requires lock { lock_at pass.old ≡ lock_in self.now }
        requires none { pass.old.session ≡ None }
        ensures lock { lock_at pass.new ≡ lock_at pass.old }
        ensures turn { MakesNew pass.old pass.new (Event.OpenSession admin) (λ a k. IsOpened a k result) }
        ensures session { MatchResult result (λ o. (pass.new.session ≡ Some o.session) × Unfinished pass.new []) (λ _. pass.new.session ≡ None) }
    {
        let mut manager = self.begin(rt, &mut pass.turn);
        let outcome = manager.open_session(admin);
        self.lock.give(&mut pass.turn, manager);
        if let Ok(opened) = outcome {
            pass.session = Some(opened.session);
        }
        outcome
    }

    /// Closes the session of the pass, which has no unfinished query. Answers the step.
    pub fn close_session<R: Wait>(&self, rt: &R, pass: &mut Pass) -> u64
        requires lock { lock_at pass.old ≡ lock_in self.now }
        requires in_session { IsOpen pass.old }
        requires finished { Unfinished pass.old [] }
        ensures lock { lock_at pass.new ≡ lock_at pass.old }
        ensures turn { MakesOwn pass.old pass.new Event.CloseSession (λ s a k. result ≡ k) }
        ensures session { pass.new.session ≡ None }
    {
        let session = pass.session.unwrap();
        let mut manager = self.begin(rt, &mut pass.turn);
        let step = manager.close_session(session);
        self.lock.give(&mut pass.turn, manager);
        pass.session = None;
        step
    }

    /// Submits a query of this priority, in percent, whose widest table has so many fragments.
    ///
    /// # Errors
    /// `QueueFull`, then `JournalFull`, as the manager's call.
    pub fn submit<R: Wait>(
        &self,
        rt: &R,
        pass: &mut Pass,
        priority: u32,
        frags: u32,
    ) -> Result<Sent, Refused>
        requires lock { lock_at pass.old ≡ lock_in self.now }
        requires in_session { IsOpen pass.old }
        requires priority { priority ≤ 100 }
        requires frags { (1 ≤ frags) × (frags ≤ 16) }
        ensures lock { (lock_at pass.new ≡ lock_at pass.old) × (pass.new.session ≡ pass.old.session) }
        ensures turn { MakesOwn pass.old pass.new (Event.Submit priority frags) (λ s a k. IsSent a k result) }
        ensures sent { OnSent result (λ t p. (t.id ≡ p.id) × IsTicket pass.new t × Adds p.id pass.old pass.new) (AddsNone pass.old pass.new) }
        ensures keeps { Keeps pass.old pass.new }
    {
        let session = pass.session.unwrap();
        let mut manager = self.begin(rt, &mut pass.turn);
        let outcome = manager.submit(session, priority, frags);
        self.lock.give(&mut pass.turn, manager);
        as_sent(outcome)
    }

    /// Collects a query: its region, where it is active.
    pub fn collect<R: Wait>(&self, rt: &R, pass: &mut Pass, ticket: Ticket) -> Got
        requires lock { lock_at pass.old ≡ lock_in self.now }
        requires in_session { IsOpen pass.old }
        requires ticket { IsTicket pass.old ticket }
        ensures lock { (lock_at pass.new ≡ lock_at pass.old) × (pass.new.session ≡ pass.old.session) }
        ensures turn { MakesOwn pass.old pass.new (Event.Collect ticket.id) (λ s a k. IsGot a k result × OnGot result (λ h g. g.region.frames ≡ g.quanta * frames_per_quantum s.config) (λ _. ⊤) ⊤) }
        ensures shares { OnGot result (λ h g. (1 ≤ g.scans) × (g.scans ≤ 16) × (32 ≤ g.region.frames)) (λ t. ⊤) ⊤ }
        ensures got { OnGot result (λ h g. (h.id ≡ ticket.id) × (h.frames ≡ g.region.frames) × IsHeld pass.new h × AddsNone pass.old pass.new)
            (λ t. (t ≡ ticket) × IsTicket pass.new t × AddsNone pass.old pass.new)
            (Ends ticket.id pass.old pass.new) }
        ensures keeps { KeepsBut ticket.id pass.old pass.new }
    {
        let Ticket { id } = ticket;
        let mut manager = self.begin(rt, &mut pass.turn);
        let collected = manager.collect(id);
        self.lock.give(&mut pass.turn, manager);
        as_got(id, collected)
    }

    /// Ends a query that was collected; the region that it was granted comes back. Answers the step.
    pub fn finish<R: Wait>(
        &self,
        rt: &R,
        pass: &mut Pass,
        held: Held,
        region: Region,
        how: How,
    ) -> u64
        requires lock { lock_at pass.old ≡ lock_in self.now }
        requires in_session { IsOpen pass.old }
        requires held { IsHeld pass.old held }
        requires region { region.frames ≡ held.frames }
        ensures lock { (lock_at pass.new ≡ lock_at pass.old) × (pass.new.session ≡ pass.old.session) }
        ensures turn { MakesOwn pass.old pass.new (Event.Finish held.id how) (λ s a k. result ≡ k) }
        ensures ended { Ends held.id pass.old pass.new }
        ensures keeps { KeepsBut held.id pass.old pass.new }
    {
        let Held { id, frames: _ } = held;
        let mut manager = self.begin(rt, &mut pass.turn);
        let step = manager.finish(id, region, how);
        self.lock.give(&mut pass.turn, manager);
        step
    }

    /// The step at which a collected query was cancelled, if it was.
    pub fn flagged<R: Wait>(&self, rt: &R, pass: &mut Pass, held: &Held) -> Option<u64>
        requires lock { lock_at pass.old ≡ lock_in self.now }
        requires in_session { IsOpen pass.old }
        requires held { IsHeld pass.old held.now }
        ensures turn { Looks (known pass.old) (known pass.new) (λ s k. result ≡ flag_of s held.now.id) }
        ensures follows { Follows pass.old pass.new }
        ensures held { IsHeld pass.new held.now }
    {
        let manager = self.begin(rt, &mut pass.turn);
        let flagged = manager.flagged(held.id);
        self.lock.give(&mut pass.turn, manager);
        flagged
    }

    /// Cancels a query, of this pass or of another.
    ///
    /// # Errors
    /// `NoSuchQuery`, then `NotAllowed`, then `AlreadyCancelled`, as the manager's call.
    pub fn cancel<R: Wait>(&self, rt: &R, pass: &mut Pass, id: u32) -> Result<Cancelled, Refused>
        requires lock { lock_at pass.old ≡ lock_in self.now }
        requires in_session { IsOpen pass.old }
        ensures lock { (lock_at pass.new ≡ lock_at pass.old) × (pass.new.session ≡ pass.old.session) }
        ensures turn { MakesOwn pass.old pass.new (Event.Cancel id) (λ s a k. IsCancelled a k result) }
        ensures keeps { Keeps pass.old pass.new }
        ensures unfinished { AddsNone pass.old pass.new }
    {
        let session = pass.session.unwrap();
        let mut manager = self.begin(rt, &mut pass.turn);
        let outcome = manager.cancel(session, id);
        self.lock.give(&mut pass.turn, manager);
        outcome
    }

    /// Changes a parameter of the manager.
    ///
    /// # Errors
    /// `NotAllowed`, then `BadValue`, then `PoolSize`, then `JournalFull`, as the manager's call.
    pub fn onmode<R: Wait>(
        &self,
        rt: &R,
        pass: &mut Pass,
        change: Change,
    ) -> Result<Changed, Refused>
        requires lock { lock_at pass.old ≡ lock_in self.now }
        requires in_session { IsOpen pass.old }
        ensures lock { (lock_at pass.new ≡ lock_at pass.old) × (pass.new.session ≡ pass.old.session) }
        ensures turn { MakesChange pass.old pass.new (setting_of change) (pool_size change) (λ a k. IsChanged a k result) }
        ensures keeps { Keeps pass.old pass.new }
        ensures unfinished { AddsNone pass.old pass.new }
    {
        let session = pass.session.unwrap();
        let mut manager = self.begin(rt, &mut pass.turn);
        let outcome = manager.onmode(session, change);
        self.lock.give(&mut pass.turn, manager);
        outcome
    }

    /// Fills the status.
    pub fn look<R: Wait>(&self, rt: &R, pass: &mut Pass, into: &mut Status)
        requires lock { lock_at pass.old ≡ lock_in self.now }
        ensures turn { Looks (known pass.old) (known pass.new) (λ s k. into.new ≡ status_of s) }
        ensures follows { Follows pass.old pass.new }
    {
        let found = self.begin(rt, &mut pass.turn);
        found.status(into);
        self.lock.give(&mut pass.turn, found);
    }

    /// Fills the status. Answers whether the session of the pass is an administrator's.
    pub fn look_as<R: Wait>(&self, rt: &R, pass: &mut Pass, into: &mut Status) -> bool
        requires lock { lock_at pass.old ≡ lock_in self.now }
        requires in_session { IsOpen pass.old }
        ensures turn { Looks (known pass.old) (known pass.new) (λ s k. (into.new ≡ status_of s) × (result ≡ is_admin s (session_of pass.old))) }
        ensures follows { Follows pass.old pass.new }
        ensures own { is_among (session_of pass.old) (known pass.old).parties ≡ true }
    {
        let session = pass.session.unwrap();
        let manager = self.begin(rt, &mut pass.turn);
        manager.status(into);
        let is_admin = manager.is_admin(session);
        self.lock.give(&mut pass.turn, manager);
        is_admin
    }

    /// How many entries the manager has made.
    pub fn step<R: Wait>(&self, rt: &R, pass: &mut Pass) -> u64
        requires lock { lock_at pass.old ≡ lock_in self.now }
        ensures turn { Looks (known pass.old) (known pass.new) (λ s k. result ≡ k) }
        ensures follows { Follows pass.old pass.new }
    {
        let manager = self.begin(rt, &mut pass.turn);
        let step = manager.step();
        self.lock.give(&mut pass.turn, manager);
        step
    }

    /// Splits off a new pass, which has seen what this one has, and has no session. Only the first pass can be split.
    pub fn split(&self, pass: &mut Pass) -> Pass
        requires lock { lock_at pass.old ≡ lock_in self.now }
        requires first { (known pass.old).is_first ≡ true }
        ensures lock { (lock_at pass.new ≡ lock_at pass.old) × (lock_at result ≡ lock_at pass.old) }
        ensures session { (pass.new.session ≡ pass.old.session) × (result.session ≡ None) }
        ensures views { SplitsPass (known pass.old) (known pass.new) (known result) }
    {
        let turn = self.lock.split(&mut pass.turn);
        Pass {
            turn,
            session: None,
        }
    }

    /// Joins the other pass, which has no open session, to this one. This one has then seen what either had; the sessions of the other make no
    /// further entry.
    pub fn meet(&self, pass: &mut Pass, other: Pass)
        requires lock { (lock_at pass.old ≡ lock_in self.now) × (lock_at other ≡ lock_in self.now) }
        requires closed { other.session ≡ None }
        ensures follows { Follows pass.old pass.new }
        ensures seen { IsPrefix (known other).seen (known pass.new).seen }
        ensures views { JoinsPasses (known pass.old) (known other) (known pass.new) }
    {
        let Pass { turn, session: _ } = other;
        self.lock.meet(&mut pass.turn, turn);
    }

    /// Ends the office: Ok is the manager, where each turn that was begun has ended.
    pub fn close(self, pass: Pass) -> Result<Manager, Option<Manager>>
        requires lock { lock_at pass ≡ lock_in self }
        ensures ok { IfOk result (λ m. Finds (known pass) m) }
        ensures met { (known pass).is_first ≡ true → (known pass).given ≡ 0 → IsOk result }
    {
        let Pass { turn, session: _ } = pass;
        let Office { lock } = self;
        let manager = lock.close(turn)?;
        manager.certify();
        Ok(manager)
    }
}
