//! Sessions are opened and closed.
ghost use Rattle.std.specs.Prelude.{false, ◌≡◌, ◌↔◌, ◌<◌, [], Some, IsTrue, length, if◌then◌else◌, vec_len, ◌==◌};
ghost use Rattle.std.specs.List.{list_any};
ghost use Rattle.pdq_model.specs.State.{next_session};
ghost use Rattle.pdq_model.specs.Settling.{IsSettled};
ghost use Rattle.pdq_model.specs.Step.{admitted_after, decide, entered, is_entered, is_full_for, is_open, next, session_place};
ghost use Rattle.pdq_model.specs.History.{has_query, MayClose};
ghost use Rattle.pdq_model.specs.Laws.{counted};
ghost use Rattle.pdq_gate.specs.Board.{state_of};
ghost use Rattle.pdq_gate.specs.Invariant.{IsSoundBoard};
ghost use Rattle.pdq_gate.specs.Queries.{with_session};

use crate::board::Board;
use crate::order::session_place;
use pdq_model::{Answer, Event, Reply, Session, Why};

/// The most sessions that are open.
const MOST_SESSIONS: usize = 64;

impl Board {
    /// A session is opened, and entered.
    fn enter_session(&mut self, admin: bool) -> u32
        requires sound { IsSoundBoard self.old }
        requires settled { IsSettled (state_of self.old) }
        requires few { vec_len self.old.sessions < 64 }
        requires room { is_full_for (state_of self.old) 2 ≡ false }
        ensures sound { IsSoundBoard self.new }
        ensures settled { IsSettled (state_of self.new) }
        ensures number { result ≡ next_session (state_of self.old) }
        ensures state { state_of self.new ≡ entered (state_of self.old) (next_session (state_of self.old)) (Event.OpenSession admin) }
        ensures session { state_of self.new ≡ with_session (state_of self.old) admin }
        ensures told { self.new.admitted.items ≡ [] }
        ensures active { self.new.active ≡ self.old.active }
    {
        self.entries += 1;
        self.opened += 1;
        let number = self.opened;
        self.sessions.push_reserved(Session { number, admin });
        self.admitted.clear();
        number
    }

    /// A session is opened.
    pub fn open_session(&mut self, admin: bool) -> Answer
        requires sound { IsSoundBoard self.old }
        requires settled { IsSettled (state_of self.old) }
        ensures sound { IsSoundBoard self.new }
        ensures settled { IsSettled (state_of self.new) }
        ensures answer { result ≡ decide (state_of self.old) (next_session (state_of self.old)) (Event.OpenSession admin) }
        ensures state { state_of self.new ≡ next (state_of self.old) (next_session (state_of self.old)) (Event.OpenSession admin) }
        ensures told { self.new.admitted.items ≡ admitted_after (state_of self.old) (next_session (state_of self.old)) (Event.OpenSession admin) self.old.admitted.items }
        ensures session { state_of self.new ≡ (if is_entered result then with_session (state_of self.old) admin else state_of self.old) }
        ensures active { self.new.active ≡ self.old.active }
    {
        if self.sessions.len() >= MOST_SESSIONS {
            Answer::Refuses(Why::TooManySessions)
        } else if self.is_full_for(2) {
            Answer::Refuses(Why::JournalFull)
        } else {
            Answer::Entered(Reply::Opened {
                session: self.enter_session(admin),
            })
        }
    }

    /// Whether the session of this number is open.
    pub fn is_open(&self, session: u32) -> bool
        ensures value { result ≡ is_open (state_of self.now) session }
    {
        session_place(&self.sessions, session).is_some()
    }

    /// Whether a query of this session waits.
    fn has_waiting(&self, session: u32) -> bool
        ensures value { result ≡ list_any (λ w. w.session == session) self.now.waiting }
    {
        self.waiting.has_session(session)
    }

    /// Whether a query of this session is active.
    fn has_active(&self, session: u32) -> bool
        ensures value { result ≡ list_any (λ a. a.session == session) self.now.active }
    {
        self.active.rows().iter().any(|a| a.session == session)
    }

    /// Whether a query of this session was withdrawn, and is not collected.
    fn has_withdrawn(&self, session: u32) -> bool
        ensures value { result ≡ list_any (λ w. w.session == session) self.now.withdrawn.items }
    {
        self.withdrawn.iter().any(|w| w.session == session)
    }

    /// Whether this session has a query.
    fn has_query(&self, session: u32) -> bool
        ensures value { result ≡ has_query (state_of self.now) session }
    {
        self.has_waiting(session) || self.has_active(session) || self.has_withdrawn(session)
    }

    /// Whether this session is open and has no query.
    pub fn may_close(&self, session: u32) -> bool
        ensures value { IsTrue result ↔ MayClose (state_of self.now) session }
    {
        self.is_open(session) && !self.has_query(session)
    }

    /// The number of the next session.
    pub fn next_session(&self) -> u32
        requires sound { IsSoundBoard self.now }
        ensures value { result ≡ next_session (state_of self.now) }
    {
        self.opened + 1
    }

    /// The session at this place leaves, and that is entered.
    fn drop_session(&mut self, session: u32, place: usize)
        requires sound { IsSoundBoard self.old }
        requires place { session_place (state_of self.old) session ≡ Some place }
        requires within { place < length self.old.sessions.items }
        ensures sound { IsSoundBoard self.new }
        ensures state { state_of self.new ≡ counted (state_of self.old) session Event.CloseSession }
    {
        let _ = self.sessions.remove(place);
        self.entries += 1;
    }

    /// An open session is closed.
    pub fn close_session(&mut self, session: u32)
        requires sound { IsSoundBoard self.old }
        requires known { IsTrue (is_open (state_of self.old) session) }
        ensures sound { IsSoundBoard self.new }
        ensures settled { IsSettled (state_of self.new) }
        ensures state { state_of self.new ≡ next (state_of self.old) session Event.CloseSession }
        ensures told { self.new.admitted.items ≡ admitted_after (state_of self.old) session Event.CloseSession self.old.admitted.items }
    {
        let Some(place) = session_place(&self.sessions, session) else {
            unreachable!();
        };
        self.drop_session(session, place);
        self.settle();
    }
}
