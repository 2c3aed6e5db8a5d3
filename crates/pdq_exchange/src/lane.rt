//! Lanes: scanners with their batches.
ghost use Rattle.std.specs.Prelude.{◌≡◌, ◌<◌, ◌≤◌, All, MatchResult, IfOk, OnOk};
ghost use Rattle.pdq_exchange.specs.Batches.{empty_batch};
ghost use Rattle.pdq_exchange.specs.Routing.{IsRouted, owner_of};
ghost use Rattle.pdq_exchange.specs.Waves.{LaneRan};

use crate::Scanner;
use crate::load::Load;
use pdq_spill::ExecFault;
use std::alloc::Global;

/// How many rows a scanner was made to give.
#[derive(Debug, Drop, PartialEq, Eq)]
pub struct Scanned {
    rows: u64,
}

impl Scanned {
    /// The number of rows.
    pub fn rows(&self) -> u64
        ensures { result ≡ self.now.rows }
    {
        self.rows
    }
}

/// A scanner with a batch of its own, what the scanner answered in the last wave, and the rows that waves had it give.
#[derive(Drop)]
pub struct Lane<Sc> {
    pub(crate) scanner: Sc,
    pub(crate) load: Load,
    pub(crate) outcome: Result<bool, ExecFault>,
    pub(crate) scanned: u64,
}

impl<Sc: Scanner> Lane<Sc> {
    /// A lane of this scanner; without memory the scanner comes back.
    pub fn new(alloc: Global, scanner: Sc, width: u32) -> Result<Lane<Sc>, Sc>
        requires low { 1 ≤ width }
        requires high { width ≤ 511 }
        requires width { Sc.width scanner ≡ width }
        ensures { MatchResult result (λ lane. (lane.scanner ≡ scanner) × (lane.scanned ≡ 0) × (lane.load.batch ≡ empty_batch width)) (λ back. back ≡ scanner) }
    {
        let Ok(load) = Load::new(alloc, width) else {
            return Err(scanner);
        };
        Ok(Lane {
            scanner,
            load,
            outcome: Ok(true),
            scanned: 0,
        })
    }

    /// The scanner, and how many rows waves had it give.
    pub fn leave(self) -> (Sc, Scanned)
        ensures scanner { result.0 ≡ self.scanner }
        ensures scanned { result.1.rows ≡ self.scanned }
    {
        let Lane {
            scanner,
            load: _,
            outcome: _,
            scanned,
        } = self;
        (scanner, Scanned { rows: scanned })
    }

    /// Fills the batch, and finds the owner of each row.
    pub(crate) fn fill(&mut self, keys: &[u32], owners: usize)
        requires wide { Sc.width self.old.scanner ≡ self.old.load.batch.width }
        requires keys { All (λ k. k < self.old.load.batch.width) keys.now }
        requires some { 0 < owners }
        ensures ran { LaneRan Sc.left Sc.fault self.old.scanner self.new.scanner self.old.scanned self.new.scanned self.new.load.batch.rows self.new.outcome }
        ensures routed { OnOk self.new.outcome (IsRouted (owner_of keys.now owners) self.new.load.batch.rows self.new.load.owners.items) }
        ensures width { Sc.width self.new.scanner ≡ Sc.width self.old.scanner }
        ensures batch_width { self.new.load.batch.width ≡ self.old.load.batch.width }
        ensures kept { Sc.keeps self.old.scanner self.new.scanner }
    {
        self.load.batch.clear();
        self.outcome = self.scanner.fill(&mut self.load.batch);
        if self.outcome.is_ok() {
            self.scanned = self
                .scanned
                .saturating_add(u64::from(self.load.batch.rows()));
            self.load.route(keys, owners);
        }
    }
}
