//! The manager's lists, and what is done to them.
ghost use Rattle.std.specs.Prelude.{false, ◌≡◌, ◌+◌, ◌*◌, ◌<◌, ◌≤◌, ◌++◌, ◌∷◌, ◌==◌, [], None, Some, IfSome, IfNone, is_some, length, map, position, slice_get, if◌then◌else◌, vec_len, vec_capacity};
ghost use Rattle.pdq_model.specs.Shares.{effective_priority};
ghost use Rattle.pdq_model.specs.Order.{head_of, head_place, waiting_order};
ghost use Rattle.pdq_model.specs.StatusView.{waiting_shown};
ghost use Rattle.pdq_model.specs.Gates.{refusing_gate, reserved_quanta, scans_in_use, gate_of, waiting_place, CanBeAdmitted};
ghost use Rattle.pdq_model.specs.Settling.{admit, admit_all, admit_head, settle, take_pending, with_pending, admitted_row, admit_of, admits, IsSettled};
ghost use Rattle.pdq_model.specs.Step.{first_some, is_full_for, is_waiting, owner_of, waiting_owner, active_owner, withdrawn_owner, active_place, withdrawn_place, active_row, decide, next, entered, placed_reply, admitted_after};
ghost use Rattle.pdq_model.specs.History.{MaySubmit, may_collect, awaits_collection};
ghost use Rattle.pdq_gate.specs.Board.{state_of};
ghost use Rattle.pdq_gate.specs.Invariant.{IsSoundBoard};
ghost use Rattle.pdq_gate.specs.Queries.{flag_of, session_of, holder_of, KeepsRest, KeepsActive};

use crate::journal::MOST_ENTRIES;
use crate::order::{active_place, first_active, first_withdrawn, withdrawn_place};
use crate::queue::Queue;
use crate::roster::Roster;
use pdq_frame::{Pool, Region};
use pdq_model::{
    Active, Admit, Answer, Config, Event, How, Pending, Reply, Session, Waiting, WaitingRow, Why,
    Withdrawn,
};

/// The most queries that wait.
const MOST_WAITING: usize = 1024;

const MEMORY_GATE: u32 = 1;

const SCANS_GATE: u32 = 2;

const PRIORITY_GATE: u32 = 3;

const QUERIES_GATE: u32 = 4;

const REINIT_GATE: u32 = 5;

pub(crate) struct Board {
    pub config: Config,
    /// A change that waits until no query is active, and the pool that comes with it, where it asks for another.
    pub pending: Option<Pending>,
    pub next_pool: Option<Pool>,
    pub waiting: Queue,
    pub active: Roster,
    /// In step with the active queries: the region of each, until it is collected.
    pub regions: Vec<Option<Region>>,
    pub withdrawn: Vec<Withdrawn>,
    pub sessions: Vec<Session>,
    pub opened: u32,
    pub submitted: u32,
    pub changes: u32,
    pub entries: u64,
    pub pool: Pool,
    /// What the last entry admitted, in order.
    pub admitted: Vec<Admit>,
}

impl Board {
    /// The first gate that refuses it as the head, or 0.
    #[tactic(auto, unfolding(pdq_model::specs::Gates::refusing_gate))]
    fn refusing_gate(&self, w: &Waiting) -> u32
        requires sound { IsSoundBoard self.now }
        requires priority { w.now.priority ≤ 100 }
        ensures gate { result ≡ refusing_gate (state_of self.now) w.now }
        ensures fits { result ≡ 0 → CanBeAdmitted (state_of self.now) w.now }
    {
        if self.pending.is_some() {
            REINIT_GATE
        } else if self.active.len() as u32 >= self.config.max_queries() {
            QUERIES_GATE
        } else if self.config.quanta_for(w.priority) > self.pool.quanta() {
            MEMORY_GATE
        } else if self.config.scans_for(w.priority, w.frags)
            > self.config.max_scans() - self.active.scans()
        {
            SCANS_GATE
        } else {
            0
        }
    }

    /// The head and its place, where no gate refuses it.
    fn admissible(&self) -> Option<(usize, Waiting)>
        requires sound { IsSoundBoard self.now }
        ensures there { IfSome result (λ r. slice_get self.now.waiting r.0 ≡ Some r.1) }
        ensures place { IfSome result (λ r. head_place self.now.waiting ≡ Some r.0) }
        ensures priority { IfSome result (λ r. r.1.priority ≤ 100) }
        ensures fits { IfSome result (λ r. CanBeAdmitted (state_of self.now) r.1) }
        ensures head { IfSome result (λ r. admit_head (state_of self.now) ≡ Some (admit (state_of self.now) r.0 r.1)) }
        ensures none { IfNone result (admit_head (state_of self.now) ≡ None) }
    {
        let Some((place, w)) = self.waiting.head() else {
            return None;
        };
        if self.refusing_gate(&w) == 0 {
            Some((place, w))
        } else {
            None
        }
    }

    /// Admits the query at this place, which is the head.
    fn admit(&mut self, place: usize, w: Waiting)
        requires sound { IsSoundBoard self.old }
        requires there { slice_get self.old.waiting place ≡ Some w }
        requires head { head_place self.old.waiting ≡ Some place }
        requires priority { w.priority ≤ 100 }
        requires fits { CanBeAdmitted (state_of self.old) w }
        requires told { vec_len self.old.admitted ≤ length self.old.active }
        ensures sound { IsSoundBoard self.new }
        ensures admitted { state_of self.new ≡ admit (state_of self.old) place w }
        ensures told { self.new.admitted.items ≡ self.old.admitted.items ++ admit_of (admitted_row self.old.config w) ∷ [] }
        ensures fewer { length self.new.waiting + 1 ≡ length self.old.waiting }
    {
        let _ = self.waiting.take_head(place);
        let quanta = self.config.quanta_for(w.priority);
        let scans = self.config.scans_for(w.priority, w.frags);
        let region = self.pool.grant(quanta);
        self.regions.push_reserved(Some(region));
        self.admitted.push_reserved(Admit {
            id: w.id,
            quanta,
            scans,
        });
        self.active.push(Active {
            id: w.id,
            session: w.session,
            priority: w.priority,
            quanta,
            scans,
            collected: false,
            flagged: None,
        });
    }

    /// Admits heads until a gate refuses.
    #[tactic(auto, using(pdq_model::proofs::Soundness::heads_none))]
    fn admit_heads(&mut self)
        requires sound { IsSoundBoard self.old }
        requires told { self.old.admitted.items ≡ [] }
        ensures sound { IsSoundBoard self.new }
        ensures admitted { state_of self.new ≡ admit_all (state_of self.old) }
        ensures told { self.new.admitted.items ≡ admits self.old.active self.new.active }
    {
        'heads: while let Some((place, w)) = self.admissible() {
            self.admit(place, w);
        }
    }

    /// The configuration with what the pending change asks for.
    pub fn changed_config(&self, change: Pending) -> Config
        requires sound { IsSoundBoard self.now }
        requires pending { self.now.pending ≡ Some change }
        ensures value { result ≡ with_pending self.now.config change }
    {
        let Some(config) = Config::check(
            self.config.max_priority(),
            change.total_kb,
            change.max_queries,
            change.max_scans,
            self.config.nonpdq_kb(),
        ) else {
            unreachable!();
        };
        config
    }

    /// Takes the pending change, with its pool, while no query is active.
    fn take_change(&mut self, change: Pending)
        requires sound { IsSoundBoard self.old }
        requires pending { self.old.pending ≡ Some change }
        requires idle { self.old.active ≡ [] }
        ensures sound { IsSoundBoard self.new }
        ensures taken { state_of self.new ≡ record (state_of self.old) { config = with_pending self.old.config change; pending = None } }
        ensures told { self.new.admitted.items ≡ self.old.admitted.items }
    {
        self.config = self.changed_config(change);
        self.pending = None;
        match std::mem::replace(&mut self.next_pool, None) {
            Some(pool) => self.pool = pool,
            None => {}
        }
    }

    /// Takes a pending change, where no query is active.
    fn take_pending(&mut self)
        requires sound { IsSoundBoard self.old }
        ensures sound { IsSoundBoard self.new }
        ensures taken { state_of self.new ≡ take_pending (state_of self.old) }
        ensures told { self.new.admitted.items ≡ self.old.admitted.items }
    {
        if self.active.len() > 0 {
            return;
        }
        let Some(change) = self.pending else {
            return;
        };
        self.take_change(change);
    }

    /// Takes a pending change, where no query is active, and then admits heads until a gate refuses.
    #[tactic(auto, unfolding(pdq_model::specs::Settling::settle))]
    pub fn settle(&mut self)
        requires sound { IsSoundBoard self.old }
        ensures sound { IsSoundBoard self.new }
        ensures settled { state_of self.new ≡ settle (state_of self.old) }
        ensures stops { IsSettled (state_of self.new) }
        ensures told { self.new.admitted.items ≡ admits self.old.active self.new.active }
        ensures rest { KeepsRest (state_of self.old) (state_of self.new) }
        ensures active { KeepsActive (state_of self.old) (state_of self.new) }
    {
        self.admitted.clear();
        self.take_pending();
        self.admit_heads();
    }

    /// Whether so many more entries cannot be reserved.
    pub fn is_full_for(&self, count: u32) -> bool
        requires sound { IsSoundBoard self.now }
        requires few { count ≤ 4 }
        ensures value { result ≡ is_full_for (state_of self.now) count }
    {
        2 * self.opened + 4 * self.submitted + self.changes + count > MOST_ENTRIES
    }

    /// The gate at which each waiting query but the head stands.
    fn gate_behind(&self) -> u32
        ensures value { result ≡ (if is_some self.now.pending then 5 else 3) }
    {
        if self.pending.is_some() {
            REINIT_GATE
        } else {
            PRIORITY_GATE
        }
    }

    /// The gate at which the query of this number and session stands, and 0 where it does not wait.
    pub fn gate_of(&self, session: u32, id: u32) -> u32
        requires sound { IsSoundBoard self.now }
        ensures value { result ≡ gate_of (state_of self.now) session id }
    {
        let Some(place) = self.waiting.place_of(session, id) else {
            return 0;
        };
        match self.waiting.head() {
            Some((first, w)) if first == place => self.refusing_gate(&w),
            _ => self.gate_behind(),
        }
    }

    /// A query of this effective priority is placed, and entered.
    fn place(&mut self, session: u32, priority: u32, effective: u32, frags: u32) -> Reply
        requires sound { IsSoundBoard self.old }
        requires effective { effective ≡ effective_priority priority self.old.config }
        requires most { effective ≤ 100 }
        requires few { length self.old.waiting < 1024 }
        requires room { is_full_for (state_of self.old) 4 ≡ false }
        ensures sound { IsSoundBoard self.new }
        ensures settled { IsSettled (state_of self.new) }
        ensures reply { result ≡ placed_reply (state_of self.old) session priority frags }
        ensures state { state_of self.new ≡ entered (state_of self.old) session (Event.Submit priority frags) }
        ensures told { self.new.admitted.items ≡ admits self.old.active self.new.active }
        ensures rest { KeepsRest (state_of self.old) (state_of self.new) }
        ensures active { KeepsActive (state_of self.old) (state_of self.new) }
    {
        self.entries += 1;
        self.submitted += 1;
        let id = self.submitted;
        self.waiting.push(Waiting {
            id,
            session,
            priority: effective,
            frags,
            overtaken: 0,
        });
        self.settle();
        Reply::Placed {
            id,
            priority: effective,
            gate: self.gate_of(session, id),
        }
    }

    /// A query is submitted.
    pub fn submit(&mut self, session: u32, priority: u32, frags: u32) -> Answer
        requires sound { IsSoundBoard self.old }
        requires settled { IsSettled (state_of self.old) }
        requires may { MaySubmit (state_of self.old) session priority frags }
        ensures sound { IsSoundBoard self.new }
        ensures settled { IsSettled (state_of self.new) }
        ensures answer { result ≡ decide (state_of self.old) session (Event.Submit priority frags) }
        ensures state { state_of self.new ≡ next (state_of self.old) session (Event.Submit priority frags) }
        ensures told { self.new.admitted.items ≡ admitted_after (state_of self.old) session (Event.Submit priority frags) self.old.admitted.items }
        ensures rest { KeepsRest (state_of self.old) (state_of self.new) }
        ensures active { KeepsActive (state_of self.old) (state_of self.new) }
    {
        let effective = self.config.effective_priority(priority);
        if self.waiting.len() >= MOST_WAITING {
            Answer::Refuses(Why::QueueFull)
        } else if self.is_full_for(4) {
            Answer::Refuses(Why::JournalFull)
        } else {
            Answer::Entered(self.place(session, priority, effective, frags))
        }
    }

    /// The quanta that are reserved for active queries.
    pub fn reserved_quanta(&self) -> u32
        requires sound { IsSoundBoard self.now }
        ensures value { result ≡ reserved_quanta (state_of self.now) }
    {
        self.active.quanta()
    }

    /// The scan threads of active queries.
    pub fn scans_in_use(&self) -> u32
        requires sound { IsSoundBoard self.now }
        ensures value { result ≡ scans_in_use (state_of self.now) }
    {
        self.active.scans()
    }

    /// How many queries wait.
    pub fn waiting(&self) -> usize
        ensures value { result ≡ length self.now.waiting }
    {
        self.waiting.len()
    }

    /// The session of the first waiting query of this number.
    fn waiting_owner(&self, id: u32) -> Option<u32>
        ensures value { result ≡ waiting_owner (state_of self.now) id }
    {
        match self.waiting.find(id) {
            Some(w) => Some(w.session),
            None => None,
        }
    }

    /// The session of the first active query of this number.
    pub fn active_owner(&self, id: u32) -> Option<u32>
        ensures value { result ≡ active_owner (state_of self.now) id }
    {
        match first_active(self.active.rows(), id) {
            Some(place) => Some(self.active.rows()[place].session),
            None => None,
        }
    }

    /// The session of the first withdrawn query of this number.
    fn withdrawn_owner(&self, id: u32) -> Option<u32>
        ensures value { result ≡ withdrawn_owner (state_of self.now) id }
    {
        match first_withdrawn(&self.withdrawn, id) {
            Some(place) => Some(self.withdrawn[place].session),
            None => None,
        }
    }

    /// The session of the query of this number, which does not wait.
    fn later_owner(&self, id: u32) -> Option<u32>
        ensures value { result ≡ first_some (active_owner (state_of self.now) id) (withdrawn_owner (state_of self.now) id) }
    {
        match self.active_owner(id) {
            Some(session) => Some(session),
            None => self.withdrawn_owner(id),
        }
    }

    /// The session of the query of this number.
    pub fn owner(&self, id: u32) -> Option<u32>
        ensures value { result ≡ owner_of (state_of self.now) id }
    {
        match self.waiting_owner(id) {
            Some(session) => Some(session),
            None => self.later_owner(id),
        }
    }

    /// The session of the query of this number, and 0 where there is none.
    pub fn session_of(&self, id: u32) -> u32
        ensures value { result ≡ session_of (state_of self.now) id }
    {
        self.owner(id).unwrap_or(0)
    }

    /// The session of the active query of this number, and 0 where there is none.
    pub fn holder_of(&self, id: u32) -> u32
        ensures value { result ≡ holder_of (state_of self.now) id }
    {
        self.active_owner(id).unwrap_or(0)
    }

    /// The step at which the active query of this number was cancelled, if it was.
    pub fn flagged(&self, id: u32) -> Option<u64>
        ensures value { result ≡ flag_of (state_of self.now) id }
    {
        match first_active(self.active.rows(), id) {
            Some(place) => self.active.rows()[place].flagged,
            None => None,
        }
    }

    /// Whether a query of this number waits.
    pub fn is_waiting(&self, id: u32) -> bool
        ensures value { result ≡ is_waiting (state_of self.now) id }
    {
        self.waiting.contains(id)
    }

    /// The active query of this number and session, and its place.
    pub fn active_at(&self, session: u32, id: u32) -> Option<(usize, Active)>
        ensures place { IfSome result (λ r. active_place (state_of self.now) session id ≡ Some r.0) }
        ensures row { IfSome result (λ r. slice_get self.now.active r.0 ≡ Some r.1) }
        ensures none { IfNone result (active_place (state_of self.now) session id ≡ None) }
    {
        match active_place(self.active.rows(), session, id) {
            Some(place) => Some((place, self.active.rows()[place])),
            None => None,
        }
    }

    /// The withdrawn query of this number and session, and its place.
    pub fn withdrawn_at(&self, session: u32, id: u32) -> Option<(usize, Withdrawn)>
        ensures place { IfSome result (λ r. withdrawn_place (state_of self.now) session id ≡ Some r.0) }
        ensures row { IfSome result (λ r. slice_get self.now.withdrawn.items r.0 ≡ Some r.1) }
        ensures none { IfNone result (withdrawn_place (state_of self.now) session id ≡ None) }
    {
        match withdrawn_place(&self.withdrawn, session, id) {
            Some(place) => Some((place, self.withdrawn[place])),
            None => None,
        }
    }

    /// Whether the query of this number and session was withdrawn.
    fn was_withdrawn(&self, session: u32, id: u32) -> bool
        ensures value { result ≡ is_some (withdrawn_place (state_of self.now) session id) }
    {
        withdrawn_place(&self.withdrawn, session, id).is_some()
    }

    /// Whether the query of this number and session waits.
    pub fn waits(&self, session: u32, id: u32) -> bool
        ensures value { result ≡ is_some (waiting_place (state_of self.now) session id) }
    {
        self.waiting.place_of(session, id).is_some()
    }

    /// Whether the query of this number and session is active and not collected.
    pub fn awaits_collection(&self, session: u32, id: u32) -> bool
        ensures value { result ≡ awaits_collection (active_row (state_of self.now) session id) }
    {
        match self.active_at(session, id) {
            Some((_, row)) => !row.collected,
            None => false,
        }
    }

    /// Whether a query of this number can be collected.
    pub fn may_collect(&self, id: u32) -> bool
        ensures value { result ≡ may_collect (state_of self.now) (session_of (state_of self.now) id) id }
    {
        let session = self.session_of(id);
        self.waits(session, id)
            || self.awaits_collection(session, id)
            || self.was_withdrawn(session, id)
    }

    /// The gate at which the head stands, and 0 where nothing waits.
    fn head_gate(&self) -> u32
        requires sound { IsSoundBoard self.now }
        ensures gate { IfSome (head_of self.now.waiting) (λ w. result ≡ refusing_gate (state_of self.now) w) }
    {
        match self.waiting.head() {
            Some((_, w)) => self.refusing_gate(&w),
            None => 0,
        }
    }

    /// Shows the waiting queries, each at its place in the written order.
    pub fn show_waiting(&self, rows: &mut Vec<WaitingRow>)
        requires sound { IsSoundBoard self.now }
        requires room { 1024 ≤ vec_capacity rows.old }
        ensures rows { rows.new.items ≡ map (waiting_shown (state_of self.now)) (waiting_order self.now.waiting) }
        ensures room { 1024 ≤ vec_capacity rows.new }
    {
        self.waiting
            .show(self.head_gate(), self.gate_behind(), rows);
    }

    /// The first waiting query of this number, and its place.
    pub fn waiting_query(&self, id: u32) -> Option<(usize, Waiting)>
        ensures place { IfSome result (λ r. position (λ w. w.id == id) self.now.waiting ≡ Some r.0) }
        ensures row { IfSome result (λ r. slice_get self.now.waiting r.0 ≡ Some r.1) }
        ensures none { IfNone result (position (λ w. w.id == id) self.now.waiting ≡ None) }
    {
        match self.waiting.place(id) {
            Some(place) => Some((place, *self.waiting.row(place))),
            None => None,
        }
    }

    /// The first active query of this number, and its place.
    pub fn active_query(&self, id: u32) -> Option<(usize, Active)>
        ensures place { IfSome result (λ r. position (λ a. a.id == id) self.now.active ≡ Some r.0) }
        ensures row { IfSome result (λ r. slice_get self.now.active r.0 ≡ Some r.1) }
        ensures none { IfNone result (position (λ a. a.id == id) self.now.active ≡ None) }
    {
        match first_active(self.active.rows(), id) {
            Some(place) => Some((place, self.active.rows()[place])),
            None => None,
        }
    }
}
