//! Queries are collected by their owners.
ghost use Rattle.std.specs.Prelude.{false, ◌≡◌, ◌+◌, ◌*◌, ◌<◌, [], None, Some, IsSome, IsTrue, slice_get, slice_index_or, slice_set, vec_capacity, vec_len};
ghost use Rattle.pdq_model.specs.Configuration.{frames_per_quantum};
ghost use Rattle.pdq_model.specs.Gates.{waiting_place};
ghost use Rattle.pdq_model.specs.History.{may_collect};
ghost use Rattle.pdq_model.specs.Laws.{HasOwnNumbers};
ghost use Rattle.pdq_model.specs.Settling.{IsSettled};
ghost use Rattle.pdq_model.specs.Step.{active_place, admitted_after, decide, next, withdrawn_place};
ghost use Rattle.pdq_gate.specs.Answers.{IsCollected, IsHandedOver};
ghost use Rattle.pdq_gate.specs.Board.{state_of};
ghost use Rattle.pdq_gate.specs.Invariant.{IsSoundBoard};
ghost use Rattle.pdq_gate.specs.Queries.{session_of, with_collected, with_fetched};

use crate::answers::Collected;
use crate::board::Board;
use pdq_frame::Region;
use pdq_model::{Active, Event, Withdrawn};

impl Board {
    /// The active query at this place is collected, and entered; its region goes out.
    fn hand_over(&mut self, session: u32, id: u32, place: usize, row: Active) -> Region
        requires sound { IsSoundBoard self.old }
        requires settled { IsSettled (state_of self.old) }
        requires place { active_place (state_of self.old) session id ≡ Some place }
        requires there { slice_get self.old.active place ≡ Some row }
        requires here { row.collected ≡ false }
        requires gone { withdrawn_place (state_of self.old) session id ≡ None }
        ensures sound { IsSoundBoard self.new }
        ensures settled { IsSettled (state_of self.new) }
        ensures region { result.frames ≡ row.quanta * frames_per_quantum self.old.config }
        ensures state { state_of self.new ≡ with_collected (state_of self.old) place row }
        ensures told { self.new.admitted.items ≡ [] }
    {
        let region = take_region(&mut self.regions, place);
        let _ = self.active.collect(place);
        self.entries += 1;
        self.admitted.clear();
        region
    }

    /// The active query at this place is collected.
    fn collect_active(&mut self, session: u32, id: u32, place: usize, row: Active) -> Collected
        requires sound { IsSoundBoard self.old }
        requires settled { IsSettled (state_of self.old) }
        requires session { session ≡ session_of (state_of self.old) id }
        requires waits { waiting_place (state_of self.old) session id ≡ None }
        requires place { active_place (state_of self.old) session id ≡ Some place }
        requires there { slice_get self.old.active place ≡ Some row }
        requires here { row.collected ≡ false }
        requires gone { withdrawn_place (state_of self.old) session id ≡ None }
        ensures sound { IsSoundBoard self.new }
        ensures settled { IsSettled (state_of self.new) }
        ensures answer { IsCollected (decide (state_of self.old) session (Event.Collect id)) self.new.entries result }
        ensures state { state_of self.new ≡ next (state_of self.old) session (Event.Collect id) }
        ensures told { self.new.admitted.items ≡ admitted_after (state_of self.old) session (Event.Collect id) self.old.admitted.items }
        ensures granted { IsHandedOver (state_of self.old) (state_of self.new) id result }
    {
        let region = self.hand_over(session, id, place, row);
        Collected::Granted {
            region,
            quanta: row.quanta,
            scans: row.scans,
            priority: row.priority,
            flagged: row.flagged,
            step: self.entries,
        }
    }

    /// The withdrawn query at this place is collected, and that is entered.
    fn fetch(&mut self, session: u32, id: u32, place: usize)
        requires sound { IsSoundBoard self.old }
        requires settled { IsSettled (state_of self.old) }
        requires active { active_place (state_of self.old) session id ≡ None }
        requires place { withdrawn_place (state_of self.old) session id ≡ Some place }
        requires within { place < vec_len self.old.withdrawn }
        ensures sound { IsSoundBoard self.new }
        ensures settled { IsSettled (state_of self.new) }
        ensures state { state_of self.new ≡ with_fetched (state_of self.old) place }
        ensures told { self.new.admitted.items ≡ [] }
    {
        let _ = self.withdrawn.remove(place);
        self.entries += 1;
        self.admitted.clear();
    }

    /// The withdrawn query at this place is collected.
    fn collect_withdrawn(
        &mut self,
        session: u32,
        id: u32,
        place: usize,
        row: Withdrawn,
    ) -> Collected
        requires sound { IsSoundBoard self.old }
        requires settled { IsSettled (state_of self.old) }
        requires waits { waiting_place (state_of self.old) session id ≡ None }
        requires active { active_place (state_of self.old) session id ≡ None }
        requires place { withdrawn_place (state_of self.old) session id ≡ Some place }
        requires there { slice_get self.old.withdrawn.items place ≡ Some row }
        ensures sound { IsSoundBoard self.new }
        ensures settled { IsSettled (state_of self.new) }
        ensures answer { IsCollected (decide (state_of self.old) session (Event.Collect id)) self.new.entries result }
        ensures state { state_of self.new ≡ next (state_of self.old) session (Event.Collect id) }
        ensures told { self.new.admitted.items ≡ admitted_after (state_of self.old) session (Event.Collect id) self.old.admitted.items }
        ensures granted { IsHandedOver (state_of self.old) (state_of self.new) id result }
    {
        self.fetch(session, id, place);
        Collected::Cancelled {
            by: row.by,
            step: self.entries,
        }
    }

    /// A query of this session, which is its owner's, is collected.
    pub fn collect(&mut self, session: u32, id: u32) -> Collected
        requires sound { IsSoundBoard self.old }
        requires settled { IsSettled (state_of self.old) }
        requires own { HasOwnNumbers (state_of self.old) }
        requires session { session ≡ session_of (state_of self.old) id }
        requires may { IsTrue (may_collect (state_of self.old) session id) }
        ensures sound { IsSoundBoard self.new }
        ensures settled { IsSettled (state_of self.new) }
        ensures answer { IsCollected (decide (state_of self.old) session (Event.Collect id)) self.new.entries result }
        ensures state { state_of self.new ≡ next (state_of self.old) session (Event.Collect id) }
        ensures told { self.new.admitted.items ≡ admitted_after (state_of self.old) session (Event.Collect id) self.old.admitted.items }
        ensures granted { IsHandedOver (state_of self.old) (state_of self.new) id result }
    {
        if self.waits(session, id) {
            return Collected::Waiting {
                gate: self.gate_of(session, id),
                step: self.entries,
            };
        }
        if let Some((place, row)) = self.active_at(session, id) {
            return self.collect_active(session, id, place, row);
        }
        let Some((place, row)) = self.withdrawn_at(session, id) else {
            unreachable!();
        };
        self.collect_withdrawn(session, id, place, row)
    }
}

/// Takes out the region that stands at this place.
fn take_region(regions: &mut Vec<Option<Region>>, place: usize) -> Region
    requires within { place < vec_len regions.old }
    requires stands { IsSome (slice_index_or regions.old.items place None) }
    ensures region { slice_get regions.old.items place ≡ Some (Some result) }
    ensures left { regions.new.items ≡ slice_set regions.old.items place None }
    ensures room { vec_capacity regions.new ≡ vec_capacity regions.old }
{
    match std::mem::replace(&mut regions[place], None) {
        Some(region) => region,
        None => unreachable!(),
    }
}
