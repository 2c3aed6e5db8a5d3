//! The manager: its public calls.
ghost use Rattle.std.specs.Prelude.{◌≡◌, ◌↔◌, ◌+◌, ◌≤◌, [], IfOk, IfErr, IsSome, OnOk, OnErr, IsTrue, length, vec_capacity};
ghost use Rattle.pdq_model.specs.Configuration.{frames_per_quantum};
ghost use Rattle.pdq_model.specs.State.{next_session};
ghost use Rattle.pdq_model.specs.Gates.{reserved_quanta, scans_in_use};
ghost use Rattle.pdq_model.specs.Settling.{take_pending, IsSettled, Admissions};
ghost use Rattle.pdq_model.specs.Soundness.{IsSound};
ghost use Rattle.pdq_model.specs.Step.{answer_to_change, decide, next, next_with_pool, admitted_after, is_admin, is_open, owner_of, active_owner, is_waiting};
ghost use Rattle.pdq_model.specs.History.{MayClose, MaySubmit, may_collect, replay, IsLegal};
ghost use Rattle.pdq_model.specs.Laws.{IsAtRest};
ghost use Rattle.pdq_model.specs.StatusView.{status_of};
ghost use Rattle.pdq_gate.specs.ManagerView.{opening_view};
ghost use Rattle.pdq_gate.specs.Invariant.{IsWholePool};
ghost use Rattle.pdq_gate.specs.Conservation.{Conserves, quanta_lent};
ghost use Rattle.pdq_gate.specs.Queries.{active_query, flag_of, session_of, holder_of, with_session, unsettled, MayFinish, KeepsConfiguration, KeepsRest, KeepsActive, KeepsOthers};
ghost use Rattle.pdq_gate.specs.Answers.{IsOpened, IsSubmitted, IsCancelled, IsChanged, IsCollected, IsHandedOver, IsWorkable};
ghost use Rattle.pdq_gate.specs.Changes.{admitted_by_change, pool_size, setting_of};
ghost use Rattle.pdq_gate.specs.Journal.{history_with, history_with_change};

use crate::answers::{
    Cancelled, Changed, Collected, Opened, Refused, Submitted, cancel_answer, change_answer,
};
use crate::board::Board;
use crate::changes::{Change, setting_of};
use crate::journal::enter;
use crate::queue::Queue;
use crate::roster::Roster;
use crate::status::{Status, show_active};
use pdq_frame::{Pool, Region};
use pdq_model::{Admit, Answer, Config, Entry, Event, How, Reply, Session, Withdrawn};
use std::alloc::{AllocError, Global};
use std::marker::Model;

/// The manager of one thread: which queries wait, which are active, and the pool of which they are given their memory.
///
/// It must be ended, which gives the pool back. Only `new` takes memory.
pub struct Manager {
    opening: Config,
    board: Board,
    journal: Vec<Entry>,
}

impl Model for Manager {
    ghost use Rattle.std.specs.Prelude.{vec_capacity};
    ghost use Rattle.pdq_gate.specs.ManagerView.{ManagerView};

    ghost Value = { ManagerView };

    ghost use Rattle.pdq_gate.specs.Board.{view_of};
    ghost use Rattle.pdq_gate.specs.Invariant.{IsRestingManager};

    ghost view = { λ m. view_of m.opening m.board m.journal.items };

    ghost invariant = { λ m. IsRestingManager m.opening m.board m.journal.items (vec_capacity m.journal) };
}

/// The lists of a manager but that of regions.
#[derive(Drop)]
struct Lists {
    waiting: Queue,
    active: Roster,
    withdrawn: Vec<Withdrawn>,
    sessions: Vec<Session>,
    admitted: Vec<Admit>,
    journal: Vec<Entry>,
}

/// Empty lists with all the room that a manager ever needs.
fn empty_lists(alloc: Global) -> Result<Lists, AllocError>
    ensures waiting { IfOk result (λ l. l.waiting ≡ []) }
    ensures active { IfOk result (λ l. l.active ≡ []) }
    ensures withdrawn { IfOk result (λ l. (l.withdrawn.items ≡ []) × (100000 ≤ vec_capacity l.withdrawn)) }
    ensures sessions { IfOk result (λ l. (l.sessions.items ≡ []) × (64 ≤ vec_capacity l.sessions)) }
    ensures admitted { IfOk result (λ l. (l.admitted.items ≡ []) × (256 ≤ vec_capacity l.admitted)) }
    ensures journal { IfOk result (λ l. (l.journal.items ≡ []) × (400000 ≤ vec_capacity l.journal)) }
{
    Ok(Lists {
        waiting: Queue::new(alloc)?,
        active: Roster::new(alloc)?,
        withdrawn: Vec::with_capacity(alloc, 100_000)?,
        sessions: Vec::with_capacity(alloc, 64)?,
        admitted: Vec::with_capacity(alloc, 256)?,
        journal: Vec::with_capacity(alloc, 400_000)?,
    })
}

impl Manager {
    /// A manager of this configuration without an entry, over the pool that the configuration asks for.
    ///
    /// # Errors
    /// For want of memory alone, with the pool as it came.
    pub fn new(alloc: Global, config: Config, pool: Pool) -> Result<Manager, Pool>
        requires pool { IsWholePool config pool }
        ensures begins { IfOk result (λ m. m ≡ opening_view config) }
        ensures returned { IfErr result (λ p. p ≡ pool) }
        ensures conserved { IfOk result Conserves }
    {
        let Ok(lists) = empty_lists(alloc) else {
            return Err(pool);
        };
        let Ok(regions) = Vec::with_capacity(alloc, 256) else {
            return Err(pool);
        };
        Ok(Manager {
            opening: config,
            board: Board {
                config,
                pending: None,
                next_pool: None,
                waiting: lists.waiting,
                active: lists.active,
                regions,
                withdrawn: lists.withdrawn,
                sessions: lists.sessions,
                opened: 0,
                submitted: 0,
                changes: 0,
                entries: 0,
                pool,
                admitted: lists.admitted,
            },
            journal: lists.journal,
        })
    }

    /// How many entries the journal has.
    pub fn step(&self) -> u64
        ensures value { result ≡ self.now.state.entries }
    {
        self.board.entries
    }

    /// What the last entry admitted, in order.
    pub fn admitted(&self) -> &[Admit]
        ensures value { result.now ≡ self.now.admitted }
    {
        &self.board.admitted
    }

    /// The quanta that are reserved for active queries.
    pub fn reserved_quanta(&self) -> u32
        ensures value { result ≡ reserved_quanta self.now.state }
    {
        self.board.reserved_quanta()
    }

    /// The scan threads of active queries.
    pub fn scans_in_use(&self) -> u32
        ensures value { result ≡ scans_in_use self.now.state }
    {
        self.board.scans_in_use()
    }

    /// How many queries wait.
    pub fn waiting(&self) -> usize
        ensures value { result ≡ length self.now.state.waiting }
    {
        self.board.waiting()
    }

    /// The session of the query of this number, where it waits, is active or was withdrawn.
    pub fn owner(&self, id: u32) -> Option<u32>
        ensures value { result ≡ owner_of self.now.state id }
    {
        self.board.owner(id)
    }

    /// The session of the active query of this number.
    pub fn holder(&self, id: u32) -> Option<u32>
        ensures value { result ≡ active_owner self.now.state id }
    {
        self.board.active_owner(id)
    }

    /// Whether the session of this number is open.
    pub fn is_open(&self, session: u32) -> bool
        ensures value { result ≡ is_open self.now.state session }
    {
        self.board.is_open(session)
    }

    /// Whether the session of this number is open, and an administrator's.
    pub fn is_admin(&self, session: u32) -> bool
        ensures value { result ≡ is_admin self.now.state session }
    {
        self.board.is_admin(session)
    }

    /// Whether a session may be closed: it is open and has no query that waits, is active or was withdrawn.
    pub fn may_close(&self, session: u32) -> bool
        ensures value { IsTrue result ↔ MayClose self.now.state session }
    {
        self.board.may_close(session)
    }

    /// Whether a query of this number waits.
    pub fn is_waiting(&self, id: u32) -> bool
        ensures value { result ≡ is_waiting self.now.state id }
    {
        self.board.is_waiting(id)
    }

    /// Whether the query of this number waits, is active and not collected, or was withdrawn.
    pub fn may_collect(&self, id: u32) -> bool
        ensures value { result ≡ may_collect self.now.state (session_of self.now.state id) id }
    {
        self.board.may_collect(id)
    }

    /// Opens a session, of an administrator or of a user.
    ///
    /// # Errors
    /// `TooManySessions` at 64 open sessions, then `JournalFull` where two more entries cannot be reserved. Both limits are our own.
    pub fn open_session(&mut self, admin: bool) -> Result<Opened, Refused>
        ensures answer { IsOpened (decide self.old.state (next_session self.old.state) (Event.OpenSession admin))
            self.new.state.entries result }
        ensures state { self.new.state ≡
            next self.old.state (next_session self.old.state) (Event.OpenSession admin) }
        ensures admitted { self.new.admitted ≡
            admitted_after self.old.state (next_session self.old.state) (Event.OpenSession admin) self.old.admitted }
        ensures history { self.new.history ≡ history_with self.old (next_session self.old.state) (Event.OpenSession admin) }

        ensures opening { self.new.opening ≡ self.old.opening }
        ensures opened { OnOk result (self.new.state ≡ with_session self.old.state admin) }
        ensures refused { OnErr result (self.new.state ≡ self.old.state) }
        ensures active { self.new.state.active ≡ self.old.state.active }

        ensures conserved { Conserves self.new }
        ensures settled { IsSettled self.new.state }
        ensures sound { IsSound self.new.state }
        ensures legal { IsLegal self.new.opening self.new.history }
        ensures replayed { self.new.state ≡ replay self.new.opening self.new.history }
    {
        let session = self.board.next_session();
        let answer = self.board.open_session(admin);
        enter(
            &mut self.journal,
            session,
            Event::OpenSession { admin },
            answer,
        );
        let step = self.board.entries;
        match answer {
            Answer::Entered(Reply::Opened { session }) => Ok(Opened { session, step }),
            Answer::Refuses(why) => Err(Refused { why, step }),
            _ => unreachable!(),
        }
    }

    /// Closes an open session that has no query. Answers the step.
    pub fn close_session(&mut self, session: u32) -> u64
        requires may { MayClose self.old.state session }

        ensures step { result ≡ self.new.state.entries }
        ensures state { self.new.state ≡ next self.old.state session Event.CloseSession }
        ensures admitted { self.new.admitted ≡
            admitted_after self.old.state session Event.CloseSession self.old.admitted }
        ensures history { self.new.history ≡ history_with self.old session Event.CloseSession }

        ensures opening { self.new.opening ≡ self.old.opening }

        ensures conserved { Conserves self.new }
        ensures settled { IsSettled self.new.state }
        ensures sound { IsSound self.new.state }
        ensures legal { IsLegal self.new.opening self.new.history }
        ensures replayed { self.new.state ≡ replay self.new.opening self.new.history }
    {
        self.board.close_session(session);
        let answer = Answer::Entered(Reply::Closed);
        enter(&mut self.journal, session, Event::CloseSession, answer);
        self.board.entries
    }

    /// Submits a query of this priority, in percent, whose widest table has so many fragments.
    ///
    /// # Errors
    /// `QueueFull` where 1,024 queries wait, then `JournalFull` where four more entries cannot be reserved. Both limits are our own.
    pub fn submit(&mut self, session: u32, priority: u32, frags: u32) -> Result<Submitted, Refused>
        requires may { MaySubmit self.old.state session priority frags }

        ensures answer { IsSubmitted (decide self.old.state session (Event.Submit priority frags))
            self.new.state.entries result }
        ensures state { self.new.state ≡ next self.old.state session (Event.Submit priority frags) }
        ensures admitted { self.new.admitted ≡
            admitted_after self.old.state session (Event.Submit priority frags) self.old.admitted }
        ensures history { self.new.history ≡ history_with self.old session (Event.Submit priority frags) }

        // Beyond what the event itself changes a pending change is taken where no query is active, and then there are admissions alone, each
        // of the head, which no gate refuses.
        ensures admissions { Admissions (take_pending (unsettled self.old.state session (Event.Submit priority frags)))
            self.new.state }

        ensures opening { self.new.opening ≡ self.old.opening }
        ensures refused { OnErr result (self.new.state ≡ self.old.state) }
        ensures configuration { KeepsConfiguration self.old.state self.new.state }
        ensures rest { KeepsRest self.old.state self.new.state }
        ensures active { KeepsActive self.old.state self.new.state }

        ensures conserved { Conserves self.new }
        ensures settled { IsSettled self.new.state }
        ensures sound { IsSound self.new.state }
        ensures legal { IsLegal self.new.opening self.new.history }
        ensures replayed { self.new.state ≡ replay self.new.opening self.new.history }
    {
        let answer = self.board.submit(session, priority, frags);
        let event = Event::Submit { priority, frags };
        enter(&mut self.journal, session, event, answer);
        let step = self.board.entries;
        match answer {
            Answer::Entered(Reply::Placed { id, priority, gate }) => Ok(Submitted::Placed {
                id,
                step,
                priority,
                gate,
            }),
            Answer::Refuses(why) => Err(Refused { why, step }),
            _ => unreachable!(),
        }
    }

    /// Collects a query: its region, where it is active, and the gate at which it stands, where it waits.
    pub fn collect(&mut self, id: u32) -> Collected
        requires may { IsTrue (may_collect self.old.state (session_of self.old.state id) id) }

        ensures answer { IsCollected (decide self.old.state (session_of self.old.state id) (Event.Collect id))
            self.new.state.entries result }
        ensures state { self.new.state ≡
            next self.old.state (session_of self.old.state id) (Event.Collect id) }
        ensures admitted { self.new.admitted ≡
            admitted_after self.old.state (session_of self.old.state id) (Event.Collect id) self.old.admitted }
        ensures history { self.new.history ≡ history_with self.old (session_of self.old.state id) (Event.Collect id) }

        ensures opening { self.new.opening ≡ self.old.opening }
        ensures granted { IsHandedOver self.old.state self.new.state id result }
        ensures shares { IsWorkable result }

        ensures conserved { Conserves self.new }
        ensures settled { IsSettled self.new.state }
        ensures sound { IsSound self.new.state }
        ensures legal { IsLegal self.new.opening self.new.history }
        ensures replayed { self.new.state ≡ replay self.new.opening self.new.history }
    {
        let session = self.board.session_of(id);
        let collected = self.board.collect(session, id);
        let event = Event::Collect { id };
        enter(&mut self.journal, session, event, collected.answer());
        collected
    }

    /// Ends a query that was collected; the region that it was given comes back. Answers the step.
    pub fn finish(&mut self, id: u32, region: Region, how: How) -> u64
        requires may { MayFinish self.old.state id region.frames }

        ensures step { result ≡ self.new.state.entries }
        ensures state { self.new.state ≡
            next self.old.state (holder_of self.old.state id) (Event.Finish id how) }
        ensures admitted { self.new.admitted ≡
            admitted_after self.old.state (holder_of self.old.state id) (Event.Finish id how) self.old.admitted }
        ensures history { self.new.history ≡ history_with self.old (holder_of self.old.state id) (Event.Finish id how) }

        // Beyond what the event itself changes a pending change is taken where no query is active, and then there are admissions alone, each
        // of the head, which no gate refuses.
        ensures admissions { Admissions (take_pending (unsettled self.old.state (holder_of self.old.state id) (Event.Finish id how)))
            self.new.state }

        ensures opening { self.new.opening ≡ self.old.opening }
        ensures rest { KeepsRest self.old.state self.new.state }
        ensures others { KeepsOthers id self.old.state self.new.state }

        ensures conserved { Conserves self.new }
        ensures settled { IsSettled self.new.state }
        ensures sound { IsSound self.new.state }
        ensures legal { IsLegal self.new.opening self.new.history }
        ensures replayed { self.new.state ≡ replay self.new.opening self.new.history }
    {
        let session = self.board.holder_of(id);
        self.board.finish(id, region, how);
        let answer = Answer::Entered(Reply::Finished);
        enter(
            &mut self.journal,
            session,
            Event::Finish { id, how },
            answer,
        );
        self.board.entries
    }

    /// Cancels a query, for the session `by`: one that waits is withdrawn until its owner collects it; one that is active is flagged with the
    /// step, stays active, and is collected and finished as before.
    ///
    /// # Errors
    /// `NoSuchQuery` where no query of this number waits, is active or was withdrawn; then `NotAllowed` where `by` is neither its owner nor an
    /// administrator; then `AlreadyCancelled` where it is flagged or withdrawn.
    pub fn cancel(&mut self, by: u32, id: u32) -> Result<Cancelled, Refused>
        requires known { IsTrue (is_open self.old.state by) }

        ensures answer { IsCancelled (decide self.old.state by (Event.Cancel id)) self.new.state.entries result }
        ensures state { self.new.state ≡ next self.old.state by (Event.Cancel id) }
        ensures admitted { self.new.admitted ≡
            admitted_after self.old.state by (Event.Cancel id) self.old.admitted }
        ensures history { self.new.history ≡ history_with self.old by (Event.Cancel id) }

        ensures opening { self.new.opening ≡ self.old.opening }
        ensures refused { OnErr result (self.new.state ≡ self.old.state) }

        ensures conserved { Conserves self.new }
        ensures settled { IsSettled self.new.state }
        ensures sound { IsSound self.new.state }
        ensures legal { IsLegal self.new.opening self.new.history }
        ensures replayed { self.new.state ≡ replay self.new.opening self.new.history }
    {
        let outcome = self.board.cancel(by, id);
        let answer = cancel_answer(outcome);
        enter(&mut self.journal, by, Event::Cancel { id }, answer);
        let step = self.board.entries;
        match outcome {
            Ok(active) => Ok(Cancelled { active, step }),
            Err(why) => Err(Refused { why, step }),
        }
    }

    /// Changes a parameter, for the session `by`. MAX_PDQPRIORITY and DS_NONPDQ_QUERY_MEM change at once, and the second may admit a head that now
    /// fits; the other three are pending until no query is active, which may be at once. A pool that comes with a change that is refused is dropped, and so is one that another takes the place of.
    ///
    /// # Errors
    /// `NotAllowed` where `by` is a user's session; then `BadValue` where the pending configuration so changed, or the present one where none
    /// is pending, is not valid; then `PoolSize` where the pool is not the one that it asks for; then `JournalFull` where one more entry cannot
    /// be reserved.
    pub fn onmode(&mut self, by: u32, change: Change) -> Result<Changed, Refused>
        requires known { IsTrue (is_open self.old.state by) }

        ensures answer { IsChanged (answer_to_change self.old.state by (setting_of change) (pool_size change))
            self.new.state.entries result }
        ensures state { self.new.state ≡
            next_with_pool self.old.state by (setting_of change) (pool_size change) }
        ensures admitted { self.new.admitted ≡
            admitted_by_change self.old.state by (setting_of change) (pool_size change) self.old.admitted }
        ensures history { self.new.history ≡ history_with_change self.old by (setting_of change) (pool_size change) }

        ensures opening { self.new.opening ≡ self.old.opening }
        ensures refused { OnErr result (self.new.state ≡ self.old.state) }

        ensures conserved { Conserves self.new }
        ensures settled { IsSettled self.new.state }
        ensures sound { IsSound self.new.state }
        ensures legal { IsLegal self.new.opening self.new.history }
        ensures replayed { self.new.state ≡ replay self.new.opening self.new.history }
    {
        let setting = setting_of(&change);
        let outcome = self.board.onmode(by, change);
        let answer = change_answer(outcome);
        enter(&mut self.journal, by, Event::Onmode { setting }, answer);
        let step = self.board.entries;
        match outcome {
            Ok(pending) => Ok(Changed { pending, step }),
            Err(why) => Err(Refused { why, step }),
        }
    }

    /// The step at which an active query was cancelled, if it was.
    pub fn flagged(&self, id: u32) -> Option<u64>
        requires active { IsSome (active_query self.now.state id) }
        ensures value { result ≡ flag_of self.now.state id }
    {
        self.board.flagged(id)
    }

    /// The entries of the journal, in order.
    pub fn entries(&self) -> &[Entry]
        ensures value { result.now ≡ self.now.history }
    {
        &self.journal
    }

    /// What is true of every manager, for a caller that knows nothing else of it, as one who took it from a lock. Answers the step.
    pub fn certify(&self) -> u64
        ensures step { result ≡ self.now.state.entries }
        ensures counted { self.now.state.entries ≡ length self.now.history }
        ensures conserved { Conserves self.now }
        ensures settled { IsSettled self.now.state }
        ensures rests { IsAtRest self.now.state }
        ensures sound { IsSound self.now.state }
        ensures legal { IsLegal self.now.opening self.now.history }
        ensures replayed { self.now.state ≡ replay self.now.opening self.now.history }
    {
        self.board.entries
    }

    /// Fills the status.
    pub fn status(&self, into: &mut Status)
        ensures value { into.new ≡ status_of self.now.state }
    {
        into.step = self.board.entries;
        into.config = self.board.config;
        into.pending = self.board.pending;
        show_active(self.board.active.rows(), &mut into.active);
        self.board.show_waiting(&mut into.waiting);
    }

    /// Ends the manager: its pool, with the regions that stand in the manager given back. What was lent of it is still out.
    pub fn end(self) -> Pool
        ensures made { self.state.config.max_queries ≤ result.made }
        ensures per_quantum { result.frames_per_quantum ≡ frames_per_quantum self.state.config }
        ensures home { result.home + quanta_lent self.state ≡ self.state.config.max_queries }
    {
        let Manager {
            opening: _,
            board,
            journal,
        } = self;
        drop(journal);
        board.end()
    }
}
