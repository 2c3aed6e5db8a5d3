//! The calls of the lock.
ghost use Rattle.std.specs.Prelude.{◌≡◌, ℕ, ◌+◌, ◌-◌, ◌<◌, ◌^◌, true, false, [], ◌∷◌, ◌++◌, drop, length, Some, None, IfOk, IfErr, IsOk, MatchResult, if◌then◌else◌};
ghost use mathlib.Core.List.{IsPrefix};
ghost use Rattle.pdq_turn.specs.LockRule.{ClosesWith, LockHolds, with_ticket, with_turn, MayGive, with_entries, without_turn, own_entries, is_quiet, first_view, SplitsPass, JoinsPasses, longer};
ghost use Rattle.pdq_turn.specs.Seats.{known, IsLive, IsFreeSeat};
ghost use Rattle.pdq_turn.specs.Pass.{lock_of, lock_id, view_of, IsFree, HasTurn, SamePass};

use crate::journaled::Journaled;
use crate::lock::{Pass, PassSeat, Turnstile};
use crate::rule::{CompareSeen, DrawTicket, LookAtServed, PlaceEntry, ServeNext, SplitAndJoin};
use atomic_table::{Refused, Table};
use std::alloc::Global;
use std::hint::spin_loop;
use std::snapshot::Snapshot;
use std::sync::Wait;
use std::thread::yield_now;

/// How often a caller looks for a free turn before it draws a ticket all the same.
const PATIENCE: u32 = 50;

/// How often the next caller looks before it lets other threads run.
const LOOKS: u32 = 20;

impl<S: Journaled> Turnstile<S> {
    /// Draws a ticket. After 2^64 - 1 of them it waits for ever.
    pub(crate) fn draw<R: Wait>(&self, rt: &R, seat: &mut PassSeat<S>) -> u64
        requires free { (seat.old.table_id ≡ self.now.table.shared.table_id) × IsFreeSeat seat.old }
        ensures ticket { (seat.new.table_id ≡ seat.old.table_id) × (seat.new.me ≡ (with_ticket result (known seat.old), [])) }
    {
        let shared = &self.table.shared;
        for _ in rt.forever() {
            let ticket = shared.peek(0);
            if ticket < u64::MAX
                && shared.compare_exchange::<DrawTicket<S>>(seat, 0, ticket, ticket + 1) == ticket
            {
                return ticket;
            }
            yield_now();
        }
        unreachable!()
    }

    /// Draws a ticket, waits until it is served, and hands the state out. The journal of the state is then the whole history: it begins with
    /// all that the pass had seen, and what it has of the pass's parties are the pass's own entries.
    pub fn take<R: Wait>(&self, rt: &R, pass: &mut Pass<S>) -> S
        requires free { (lock_of pass.old ≡ lock_id self.now) × IsFree pass.old }
        ensures same { SamePass pass.old pass.new }
        ensures turn { HasTurn pass.new }
        ensures state { (S.journal result ≡ (view_of pass.new).seen) × ((view_of pass.new).origin ≡ Some (S.origin result)) }
        ensures seen { IsPrefix (view_of pass.old).seen (S.journal result) }
        ensures mine { (view_of pass.new).mine ≡ own_entries S.party (view_of pass.new).parties (S.journal result) }
        ensures ended { is_quiet S.party (view_of pass.old).ended (drop (length (view_of pass.old).seen) (S.journal result)) ≡ true }
        ensures view { (t : ℕ) × (view_of pass.new ≡ with_turn (S.journal result) (with_ticket t (view_of pass.old))) }
    {
        let shared = &self.table.shared;
        self.wait_for_a_free_turn();
        let ticket = self.draw(rt, &mut pass.seat);
        for _ in rt.forever() {
            if shared.load::<LookAtServed<S>>(&mut pass.seat, 1) == ticket {
                let state = shared.exchange(&mut pass.seat, 0, None).unwrap();
                pass.taken = state.entries().len();
                return state;
            }
            self.wait_a_little(ticket);
        }
        unreachable!()
    }

    /// Lets other threads run a number of times while a ticket is out. Who draws a ticket after that is mostly served at once, so that few wait for
    /// a caller that has a ticket and no processor.
    fn wait_for_a_free_turn(&self) {
        for _ in 0..PATIENCE {
            if self.table.shared.peek(0) == self.table.shared.peek(1) {
                return;
            }
            yield_now();
        }
    }

    /// Looks a number of times where the ticket is the next to be served. Where it is not served then, lets other threads run.
    fn wait_a_little(&self, ticket: u64) {
        for _ in 0..LOOKS {
            let served = self.table.shared.peek(1);
            if served == ticket {
                return;
            }
            if served.wrapping_add(1) != ticket {
                break;
            }
            spin_loop();
        }
        yield_now();
    }

    /// Puts the state back, and serves the next ticket. The journal is as it was found, or has one entry more, of a party that is new in the
    /// history or one of the pass's own. The origin of the state is as it was.
    pub fn give(&self, pass: &mut Pass<S>, state: S)
        requires lock { lock_of pass.old ≡ lock_id self.now }
        requires turn { HasTurn pass.old }
        requires origin { (view_of pass.old).origin ≡ Some (S.origin state) }
        requires entries { MayGive S.party (view_of pass.old) (S.journal state) (length (S.journal state) - length (view_of pass.old).seen) }
        ensures same { lock_of pass.new ≡ lock_of pass.old }
        ensures free { IsFree pass.new }
        ensures first { ((view_of pass.new).is_first ≡ (view_of pass.old).is_first) × ((view_of pass.new).origin ≡ (view_of pass.old).origin) }
        ensures seen { (view_of pass.new).seen ≡ S.journal state }
        ensures view { view_of pass.new ≡ without_turn (with_entries S.party (drop (length (view_of pass.old).seen) (S.journal state)) (view_of pass.old)) }
    {
        let more = state.entries().len() - pass.taken;
        let shared = &self.table.shared;
        let empty = shared.exchange(&mut pass.seat, 0, Some(state));
        let None = empty else { unreachable!() };
        shared.fetch_add::<PlaceEntry<S>>(&mut pass.seat, 2, more as u64);
        shared.fetch_add::<ServeNext<S>>(&mut pass.seat, 1, 1);
    }

    /// Splits off a new pass, which has seen what this one has, and has no parties. Only the first pass can be split.
    pub fn split(&self, pass: &mut Pass<S>) -> Pass<S>
        requires free { (lock_of pass.old ≡ lock_id self.now) × IsFree pass.old × ((view_of pass.old).is_first ≡ true) }
        ensures same { (lock_of pass.new ≡ lock_of pass.old) × IsFree pass.new }
        ensures given { (lock_of result ≡ lock_of pass.old) × IsFree result }
        ensures views { SplitsPass (view_of pass.old) (view_of pass.new) (view_of result) }
    {
        let seat = self.table.shared.split_seat::<SplitAndJoin>(&mut pass.seat);
        Pass { seat, taken: 0 }
    }

    /// Joins the other pass to this one, which has then seen what either had. The parties of the other make no further entry.
    pub fn meet(&self, pass: &mut Pass<S>, other: Pass<S>)
        requires lock { (lock_of pass.old ≡ lock_id self.now) × (lock_of other ≡ lock_id self.now) }
        requires free { IsFree pass.old × IsFree other }
        ensures same { SamePass pass.old pass.new × IsFree pass.new }
        ensures seen { IsPrefix (view_of pass.old).seen (view_of pass.new).seen × IsPrefix (view_of other).seen (view_of pass.new).seen }
        ensures given { (view_of pass.new).given ≡ (if (view_of pass.old).is_first then (view_of pass.old).given - 1 else (view_of pass.old).given) }
        ensures ended { (view_of pass.new).ended ≡ ((view_of pass.old).ended ++ (view_of other).ended) ++ (view_of other).parties }
        ensures view { JoinsPasses (view_of pass.old) (view_of other) (view_of pass.new) }
        ensures longer { (view_of pass.new).seen ≡ longer (view_of pass.old).seen (view_of other).seen }
    {
        let Pass { seat, taken: _ } = other;
        self.table
            .shared
            .join_seat::<SplitAndJoin>(&mut pass.seat, seat);
        self.table.shared.load::<CompareSeen<S>>(&mut pass.seat, 1);
    }

    /// Makes a lock around a state, and its first pass, which has seen the whole journal. Err gives the state back: there was no memory.
    pub fn new(alloc: Global, state: S) -> Result<(Turnstile<S>, Pass<S>), S>
        ensures ok { IfOk result (λ r. (lock_of r.1 ≡ lock_id r.0) × (view_of r.1 ≡ first_view (S.origin state) (S.journal state)) × IsFree r.1) }
        ensures err { IfErr result (λ x. x ≡ state) }
    {
        let first = Snapshot::of(&state);
        let count = state.entries().len() as u64;
        let Ok(mut slots) = Vec::with_capacity(alloc, 1) else {
            return Err(state);
        };
        slots.push_reserved(Some(state));
        match Table::new(alloc, &[0, 0, count], slots, &first) {
            Ok((table, seat)) => Ok((Turnstile { table }, Pass { seat, taken: 0 })),
            Err(Refused { mut slots }) => {
                let only = slots.pop();
                slots.destroy_empty();
                let Some(Some(state)) = only else {
                    unreachable!()
                };
                Err(state)
            }
        }
    }

    /// Ends the lock. Ok is the state, where each ticket drawn was served; Err is what lies in the slot where one was not, which is None where
    /// the state is out.
    pub fn close(self, pass: Pass<S>) -> Result<S, Option<S>>
        requires lock { lock_of pass ≡ lock_id self }
        requires live { IsLive (view_of pass) }
        ensures ok { IfOk result (λ x. IsPrefix (view_of pass).seen (S.journal x) × ((view_of pass).mine ≡ own_entries S.party (view_of pass).parties (S.journal x)) × ((view_of pass).origin ≡ Some (S.origin x)) × ((view_of pass).ticket ≡ None)) }
        ensures met { (view_of pass).is_first ≡ true → (view_of pass).given ≡ 0 → (view_of pass).ticket ≡ None → IsOk result }
        ensures ended { ClosesWith (LockHolds S.journal S.party S.origin (S.origin self.table.shared.key.value)) pass.seat.id (view_of pass) result }
    {
        let Pass { seat, taken: _ } = pass;
        let Turnstile { table } = self;
        let mut closed = table.close_with(seat);
        let next = closed.word(0);
        let served = closed.word(1);
        let held = closed.take(0);
        closed.free();
        if next != served {
            return Err(held);
        }
        match held {
            Some(state) => Ok(state),
            None => unreachable!(),
        }
    }
}
