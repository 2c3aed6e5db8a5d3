//! Queries end, and their regions come home.
ghost use Rattle.std.specs.Prelude.{◌≡◌, ◌+◌, ◌*◌, ◌<◌, ◌≤◌, None, Some, map, remove, slice_get, slice_index_or, sum_by, true, vec_len, vec_capacity};
ghost use Rattle.pdq_model.specs.Configuration.{frames_per_quantum};
ghost use Rattle.pdq_model.specs.Settling.{IsSettled};
ghost use Rattle.pdq_model.specs.Step.{active_place, admitted_after, next};
ghost use Rattle.pdq_frame.specs.Pools.{given_back};
ghost use Rattle.pdq_gate.specs.Board.{state_of, frames_in, frames_due};
ghost use Rattle.pdq_gate.specs.Invariant.{IsSoundBoard};
ghost use Rattle.pdq_gate.specs.Conservation.{quanta_lent, quanta_lent_to, quanta_standing};
ghost use Rattle.pdq_gate.specs.Queries.{holder_of, without_query, KeepsRest, KeepsOthers, MayFinish};

use crate::board::Board;
use pdq_frame::{Pool, Region};
use pdq_model::{Active, Event, How};

impl Board {
    /// The collected query at this place ends, is entered, and its region comes home.
    fn take_back(&mut self, id: u32, place: usize, row: Active, region: Region)
        requires sound { IsSoundBoard self.old }
        requires place { active_place (state_of self.old) row.session id ≡ Some place }
        requires there { slice_get self.old.active place ≡ Some row }
        requires collected { row.collected ≡ true }
        requires frames { region.frames ≡ row.quanta * frames_per_quantum self.old.config }
        ensures sound { IsSoundBoard self.new }
        ensures state { state_of self.new ≡ without_query (state_of self.old) place }
    {
        self.pool.give_back(region);
        remove_none(&mut self.regions, place);
        let _ = self.active.remove(place);
        self.entries += 1;
    }

    /// A collected query ends.
    pub fn finish(&mut self, id: u32, region: Region, how: How)
        requires sound { IsSoundBoard self.old }
        requires may { MayFinish (state_of self.old) id region.frames }
        ensures sound { IsSoundBoard self.new }
        ensures settled { IsSettled (state_of self.new) }
        ensures state { state_of self.new ≡ next (state_of self.old) (holder_of (state_of self.old) id) (Event.Finish id how) }
        ensures told { self.new.admitted.items ≡ admitted_after (state_of self.old) (holder_of (state_of self.old) id) (Event.Finish id how) self.old.admitted.items }
        ensures rest { KeepsRest (state_of self.old) (state_of self.new) }
        ensures others { KeepsOthers id (state_of self.old) (state_of self.new) }
    {
        let Some((place, row)) = self.active_query(id) else {
            unreachable!();
        };
        self.take_back(id, place, row, region);
        self.settle();
    }

    /// The pool, with the regions that stand given back.
    pub fn end(self) -> Pool
        requires sound { IsSoundBoard self }
        ensures made { self.config.max_queries ≤ result.made }
        ensures per_quantum { result.frames_per_quantum ≡ frames_per_quantum self.config }
        ensures home { result.home + quanta_lent (state_of self) ≡ self.config.max_queries }
    {
        let Board {
            config: _,
            pending: _,
            next_pool: _,
            waiting,
            active,
            regions,
            withdrawn,
            sessions,
            opened: _,
            submitted: _,
            changes: _,
            entries: _,
            pool,
            admitted,
        } = self;
        drop(waiting);
        drop(withdrawn);
        drop(sessions);
        drop(admitted);
        all_home(pool, active.into_rows(), regions)
    }
}

/// The region of an active query comes home, where it stands.
fn bring_home(pool: &mut Pool, region: Option<Region>, row: Active)
    requires some { 1 ≤ pool.old.frames_per_quantum }
    requires due { frames_in region ≡ frames_due pool.old.frames_per_quantum row }
    requires most { pool.old.home + row.quanta ≤ pool.old.made }
    ensures value { pool.new ≡ given_back pool.old (quanta_standing row) }
{
    match region {
        Some(region) => pool.give_back(region),
        None => {}
    }
}

/// The pool, with the regions of active queries that stand given back.
fn all_home(mut pool: Pool, mut active: Vec<Active>, mut regions: Vec<Option<Region>>) -> Pool
    requires some { 1 ≤ pool.frames_per_quantum }
    requires due { map frames_in regions.items ≡ map (frames_due pool.frames_per_quantum) active.items }
    requires most { pool.home + sum_by (λ a. a.quanta) active.items ≤ pool.made }
    ensures made { result.made ≡ pool.made }
    ensures per_quantum { result.frames_per_quantum ≡ pool.frames_per_quantum }
    ensures home { result.home + sum_by quanta_lent_to active.items ≡ pool.home + sum_by (λ a. a.quanta) active.items }
{
    'rows: while let Some(row) = active.pop() {
        let region = regions.take_last();
        bring_home(&mut pool, region, row);
    }
    regions.destroy_empty();
    pool
}

/// Removes this place, where no region stands.
fn remove_none(regions: &mut Vec<Option<Region>>, place: usize)
    requires within { place < vec_len regions.old }
    requires none { slice_index_or regions.old.items place None ≡ None }
    ensures left { regions.new.items ≡ remove regions.old.items place }
    ensures room { vec_capacity regions.new ≡ vec_capacity regions.old }
{
    match regions.remove(place) {
        None => {}
        Some(_standing) => unreachable!(),
    }
}
