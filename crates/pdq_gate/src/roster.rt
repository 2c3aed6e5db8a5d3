//! The active queries, in order of admission, with the sums of their quanta and of their scan threads.
ghost use Rattle.std.specs.Prelude.{◌≡◌, ◌+◌, ◌^◌, ◌<◌, ◌++◌, ◌∷◌, [], Some, IfOk, length, remove, slice_get, slice_set, sum_by};
ghost use Rattle.pdq_model.specs.Step.{collected, flagged_at};

use pdq_model::Active;
use std::alloc::{AllocError, Global};
use std::marker::Model;

/// The most queries that are active.
const MOST_ACTIVE: usize = 256;

/// The active queries. Only `new` takes memory.
#[derive(Drop)]
pub(crate) struct Roster {
    rows: Vec<Active>,
    /// The quanta of all of them.
    quanta: u32,
    /// The scan threads of all of them.
    scans: u32,
}

impl Model for Roster {
    ghost use Rattle.std.specs.Prelude.{List};
    ghost use Rattle.pdq_model.specs.declared.rows.Active.{Active};

    ghost Value = { List Active };

    ghost use Rattle.pdq_gate.specs.Roster.{IsTallied};

    ghost view = { λ r. r.rows.items };

    ghost invariant = { IsTallied };
}

impl Roster {
    /// No queries, with room for 256.
    pub fn new(alloc: Global) -> Result<Roster, AllocError>
        ensures value { IfOk result (λ r. r ≡ []) }
    {
        Ok(Roster {
            rows: Vec::with_capacity(alloc, MOST_ACTIVE)?,
            quanta: 0,
            scans: 0,
        })
    }

    /// How many queries are active.
    pub fn len(&self) -> usize
        ensures value { result ≡ length self.now }
    {
        self.rows.len()
    }

    /// The active queries, in order of admission.
    pub fn rows(&self) -> &[Active]
        ensures value { result.now ≡ self.now }
    {
        &self.rows
    }

    /// The quanta that are reserved for them.
    pub fn quanta(&self) -> u32
        ensures value { result ≡ sum_by (λ a. a.quanta) self.now }
    {
        self.quanta
    }

    /// The scan threads that they use.
    pub fn scans(&self) -> u32
        ensures value { result ≡ sum_by (λ a. a.scans) self.now }
    {
        self.scans
    }

    /// A query is active, behind the others.
    pub fn push(&mut self, a: Active)
        requires room { length self.old < 256 }
        requires quanta { sum_by (λ x. x.quanta) self.old + a.quanta < 2 ^ 32 }
        requires scans { sum_by (λ x. x.scans) self.old + a.scans < 2 ^ 32 }
        ensures value { self.new ≡ self.old ++ a ∷ [] }
    {
        self.rows.push_reserved(a);
        self.quanta += a.quanta;
        self.scans += a.scans;
    }

    /// Takes out the query at this place.
    pub fn remove(&mut self, place: usize) -> Active
        requires within { place < length self.old }
        ensures row { slice_get self.old place ≡ Some result }
        ensures value { self.new ≡ remove self.old place }
    {
        let a = self.rows.remove(place);
        self.quanta -= a.quanta;
        self.scans -= a.scans;
        a
    }

    /// The query at this place is collected. Answers its row as it was.
    pub fn collect(&mut self, place: usize) -> Active
        requires within { place < length self.old }
        ensures row { slice_get self.old place ≡ Some result }
        ensures value { self.new ≡ slice_set self.old place (collected result) }
    {
        let a = self.rows[place];
        self.rows[place] = Active {
            collected: true,
            ..a
        };
        a
    }

    /// The query at this place is flagged with this step. Answers its row as it was.
    pub fn flag(&mut self, place: usize, step: u64) -> Active
        requires within { place < length self.old }
        ensures row { slice_get self.old place ≡ Some result }
        ensures value { self.new ≡ slice_set self.old place (flagged_at step result) }
    {
        let a = self.rows[place];
        self.rows[place] = Active {
            flagged: Some(step),
            ..a
        };
        a
    }

    /// The list of the queries alone.
    pub fn into_rows(self) -> Vec<Active>
        ensures value { result.items ≡ self }
    {
        let Roster {
            rows,
            quanta: _,
            scans: _,
        } = self;
        rows
    }
}
