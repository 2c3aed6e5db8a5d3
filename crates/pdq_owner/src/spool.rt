//! Rows that are put into a partition.
ghost use Rattle.std.specs.Prelude.{◌≡◌, ◌+◌, ◌<◌, ◌≤◌, [], ◌∷◌, None, Some, true, false, length, OnOk, OnErr, IfOk, IfErr, IfSome};
ghost use Rattle.pdq_spill.specs.Rows.{with_more};
ghost use Rattle.pdq_spill.specs.Partitions.{Stands, rows_in, fresh_partition};
ghost use Rattle.pdq_spill.specs.Stores.{StoreView};
ghost use Rattle.pdq_owner.specs.Spools.{SpoolView, KeepsSpool};

use crate::fills::Counted;
use pdq_edge::Spill;
use pdq_spill::{ExecFault, Partition, RowOut};
use std::marker::Model;

/// Rows that are put into a partition, up to a number of them where there is one.
pub struct Spool<Sp: Spill> {
    rows: Partition,
    store: Sp,
    most: Option<u64>,
    fault: Option<ExecFault>,
}

impl<Sp: Spill> Model for Spool<Sp> {
    ghost use Rattle.pdq_spill.specs.Partitions.{rows_in};
    ghost use Rattle.pdq_owner.specs.Spools.{SpoolView, IsSpool};

    ghost Value = { SpoolView };

    ghost view = { λ s. record { width = s.rows.width; rows = rows_in s.rows (Sp.blocks s.store); count = s.rows.rows; most = s.most; fault = s.fault; store = record { blocks = Sp.blocks s.store; held = Sp.held s.store; puts = Sp.puts s.store; faults = Sp.faults s.store } } };

    ghost invariant = { λ s. IsSpool s.rows (Sp.held s.store) (Sp.blocks s.store) };
}

impl<Sp: Spill> Spool<Sp> {
    /// No row yet, over a store.
    pub fn new(rows: Partition, store: Sp, most: Option<u64>) -> Spool<Sp>
        requires fresh { rows ≡ fresh_partition rows.width }
        ensures { result ≡ record { width = rows.width; rows = rows_in rows (Sp.blocks store); count = 0; most = most; fault = None; store = record { blocks = Sp.blocks store; held = Sp.held store; puts = Sp.puts store; faults = Sp.faults store } } }
    {
        Spool {
            rows,
            store,
            most,
            fault: None,
        }
    }

    /// Keeps a fault that it answers.
    fn fail(&mut self, fault: ExecFault)
        ensures { self.new ≡ record self.old { fault = Some fault } }
    {
        self.fault = Some(fault);
    }

    /// Whether it has as many rows as it may.
    fn is_at_limit(&self) -> bool
        ensures at { result ≡ true → self.now.most ≡ Some self.now.count }
    {
        let Some(most) = self.most else {
            return false;
        };
        most == self.rows.rows()
    }

    /// Its partition and its store.
    pub fn leave(self) -> (Partition, Sp)
        ensures open { result.0.sealed ≡ false }
        ensures width { result.0.width ≡ self.width }
        ensures stands { Stands result.0 (Sp.held result.1) (Sp.blocks result.1) }
        ensures rows { rows_in result.0 (Sp.blocks result.1) ≡ self.rows }
        ensures store { self.store ≡ record { blocks = Sp.blocks result.1; held = Sp.held result.1; puts = Sp.puts result.1; faults = Sp.faults result.1 } }
    {
        let Spool {
            rows,
            store,
            most: _,
            fault: _,
        } = self;
        (rows, store)
    }
}

impl<Sp: Spill> RowOut for Spool<Sp> {
    ghost use Rattle.pdq_owner.specs.Spools.{KeepsSpool};
    ghost use Rattle.pdq_owner.specs.SpoolLaws.{spool-none, spool-on};

    ghost rows = { λ s. s.rows };

    ghost width = { λ s. s.width };

    ghost fault = { λ s. s.fault };

    ghost keeps = { λ a b. KeepsSpool a b };

    fn put(&mut self, row: &[i64]) -> Result<(), ExecFault> {
        if let Some(fault) = self.fault {
            return Err(fault);
        }
        if self.is_at_limit() {
            self.fail(ExecFault::RowLimit);
            return Err(ExecFault::RowLimit);
        }
        match self.rows.append(&mut self.store, row) {
            Ok(()) => Ok(()),
            Err(fault) => {
                self.fail(fault);
                Err(fault)
            }
        }
    }

    ghost keeps_itself = { λ s. spool-none s };

    ghost keeps_on = { λ a b c h k. spool-on a b c h k };
}

impl<Sp: Spill> Counted for Spool<Sp> {
    ghost use Rattle.pdq_owner.specs.Spools.{count_told};
    ghost use Rattle.pdq_owner.specs.SpoolLaws.{spool-counts};

    ghost count = { λ s. count_told s.rows s.count };

    fn count(&self) -> u64 {
        self.rows.rows()
    }

    ghost counts = { λ s. spool-counts s.rows s.count };
}
