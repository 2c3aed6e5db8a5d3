//! Queries are cancelled.
ghost use Rattle.std.specs.Prelude.{false, if◌then◌else◌, ◌≡◌, ◌==◌, ◌||◌, Some, None, position, slice_get, true};
ghost use Rattle.std.specs.Option.{option_map_or};
ghost use Rattle.pdq_model.specs.Laws.{counted};
ghost use Rattle.pdq_model.specs.Settling.{admits, IsSettled};
ghost use Rattle.pdq_model.specs.Step.{admitted_after, answer_to_cancel, decide, entered, is_admin, is_entered, is_flagged, is_waiting, is_withdrawn, may_cancel, next, owner_of};
ghost use Rattle.pdq_gate.specs.Answers.{cancel_answer};
ghost use Rattle.pdq_gate.specs.Board.{state_of};
ghost use Rattle.pdq_gate.specs.Invariant.{IsSoundBoard};

use crate::board::Board;
use pdq_model::{Active, Event, Reply, Waiting, Why, Withdrawn};

impl Board {
    /// Whether the active query of this number is flagged.
    fn is_flagged(&self, id: u32) -> bool
        ensures value { result ≡ is_flagged (state_of self.now) id }
    {
        self.active
            .rows()
            .iter()
            .any(|a| a.id == id && a.flagged.is_some())
    }

    /// Whether the query of this number was withdrawn.
    fn is_withdrawn(&self, id: u32) -> bool
        ensures value { result ≡ is_withdrawn (state_of self.now) id }
    {
        self.withdrawn.iter().any(|w| w.id == id)
    }

    /// Whether the query of this number was cancelled before.
    fn is_cancelled(&self, id: u32) -> bool
        ensures value { result ≡ (is_flagged (state_of self.now) id || is_withdrawn (state_of self.now) id) }
    {
        self.is_flagged(id) || self.is_withdrawn(id)
    }

    /// Whether this open session is an administrator's.
    pub fn is_admin(&self, session: u32) -> bool
        ensures value { result ≡ is_admin (state_of self.now) session }
    {
        self.sessions.iter().any(|x| x.number == session && x.admin)
    }

    /// Whether the query of this number is this session's.
    fn owns(&self, session: u32, id: u32) -> bool
        ensures value { result ≡ option_map_or (λ k. k == session) (owner_of (state_of self.now) id) false }
    {
        match self.owner(id) {
            Some(owner) => owner == session,
            None => false,
        }
    }

    /// Whether this session may cancel the query of this number.
    fn may_cancel(&self, by: u32, id: u32) -> bool
        ensures value { result ≡ may_cancel (state_of self.now) by id }
    {
        self.owns(by, id) || self.is_admin(by)
    }

    /// The waiting query at this place is withdrawn, and that is entered.
    fn withdraw(&mut self, by: u32, id: u32, place: usize, w: Waiting)
        requires sound { IsSoundBoard self.old }
        requires place { position (λ w. w.id == id) self.old.waiting ≡ Some place }
        requires there { slice_get self.old.waiting place ≡ Some w }
        ensures sound { IsSoundBoard self.new }
        ensures state { state_of self.new ≡ counted (state_of self.old) by (Event.Cancel id) }
    {
        let _ = self.waiting.remove_at(place);
        self.entries += 1;
        self.withdrawn.push_reserved(Withdrawn {
            id: w.id,
            session: w.session,
            by: self.entries,
        });
    }

    /// The active query at this place is flagged, and that is entered.
    fn flag(&mut self, by: u32, id: u32, place: usize, row: Active)
        requires sound { IsSoundBoard self.old }
        requires may { is_entered (answer_to_cancel (state_of self.old) by id) ≡ true }
        requires waits { position (λ w. w.id == id) self.old.waiting ≡ None }
        requires place { position (λ a. a.id == id) self.old.active ≡ Some place }
        requires there { slice_get self.old.active place ≡ Some row }
        ensures sound { IsSoundBoard self.new }
        ensures state { state_of self.new ≡ counted (state_of self.old) by (Event.Cancel id) }
    {
        self.entries += 1;
        let _ = self.active.flag(place, self.entries);
    }

    /// A query that waits is withdrawn, and one that is active is flagged; that is entered. Answers whether it is active.
    fn withdraw_or_flag(&mut self, by: u32, id: u32) -> bool
        requires sound { IsSoundBoard self.old }
        requires may { is_entered (answer_to_cancel (state_of self.old) by id) ≡ true }
        ensures sound { IsSoundBoard self.new }
        ensures state { state_of self.new ≡ counted (state_of self.old) by (Event.Cancel id) }
        ensures reply { (if result then Reply.Flagged else Reply.Withdrawn) ≡ (if is_waiting (state_of self.old) id then Reply.Withdrawn else Reply.Flagged) }
    {
        match self.waiting_query(id) {
            Some((place, w)) => {
                self.withdraw(by, id, place, w);
                false
            }
            None => {
                let Some((place, row)) = self.active_query(id) else {
                    unreachable!();
                };
                self.flag(by, id, place, row);
                true
            }
        }
    }

    /// This session cancels a query. Answers whether it is active.
    pub fn cancel(&mut self, by: u32, id: u32) -> Result<bool, Why>
        requires sound { IsSoundBoard self.old }
        requires settled { IsSettled (state_of self.old) }
        ensures sound { IsSoundBoard self.new }
        ensures settled { IsSettled (state_of self.new) }
        ensures answer { cancel_answer result ≡ decide (state_of self.old) by (Event.Cancel id) }
        ensures state { state_of self.new ≡ next (state_of self.old) by (Event.Cancel id) }
        ensures told { self.new.admitted.items ≡ admitted_after (state_of self.old) by (Event.Cancel id) self.old.admitted.items }
    {
        if self.owner(id).is_none() {
            Err(Why::NoSuchQuery)
        } else if !self.may_cancel(by, id) {
            Err(Why::NotAllowed)
        } else if self.is_cancelled(id) {
            Err(Why::AlreadyCancelled)
        } else {
            Ok(self.enter_cancellation(by, id))
        }
    }

    /// A query is cancelled, and what that leaves room for is admitted. Answers whether it is active.
    fn enter_cancellation(&mut self, by: u32, id: u32) -> bool
        requires sound { IsSoundBoard self.old }
        requires may { is_entered (answer_to_cancel (state_of self.old) by id) ≡ true }
        ensures sound { IsSoundBoard self.new }
        ensures settled { IsSettled (state_of self.new) }
        ensures reply { (if result then Reply.Flagged else Reply.Withdrawn) ≡ (if is_waiting (state_of self.old) id then Reply.Withdrawn else Reply.Flagged) }
        ensures state { state_of self.new ≡ entered (state_of self.old) by (Event.Cancel id) }
        ensures told { self.new.admitted.items ≡ admits (counted (state_of self.old) by (Event.Cancel id)).active self.new.active }
    {
        let is_active = self.withdraw_or_flag(by, id);
        self.settle();
        is_active
    }
}
