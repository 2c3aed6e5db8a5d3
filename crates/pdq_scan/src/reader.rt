//! Scanners of the rows of a partition.
ghost use Rattle.std.specs.Prelude.{◌≡◌, ◌+◌, ◌-◌, ◌<◌, ◌≤◌, ◌↔◌, [], ◌∷◌, None, Some, true, false, cond, length, option_map, OnOk, OnErr, IfOk, IfErr, IsTrue};
ghost use Rattle.pdq_spill.specs.Partitions.{Stands, left_in};
ghost use Rattle.pdq_exchange.specs.Batches.{most_rows, with_row};
ghost use Rattle.pdq_exchange.specs.Roles.{IsComing};
ghost use Rattle.pdq_spill.specs.Stores.{StoreView};
ghost use Rattle.pdq_scan.specs.Lanes.{given, given_row, given_width};
ghost use Rattle.pdq_scan.specs.Pickers.{IsZeroFilled, picks_of};
ghost use Rattle.pdq_scan.specs.Readers.{KeepsReader, Moved, SameLeft, left_count, plain_coming, coming_of};

use crate::picker::Picker;
use pdq_edge::Spill;
use pdq_exchange::{Batch, Scanner};
use pdq_spill::{Block, ExecFault, Partition};
use std::marker::Model;

/// Gives the rows of a sealed partition, whose blocks stand in its store, as they are or as they are picked.
pub struct PartitionScanner<Sp: Spill> {
    rows: Partition,
    store: Sp,
    picker: Option<Picker>,
    block: Block,
    at: u32,
    fault: Option<ExecFault>,
}

/// Puts a row, or what is picked of it, into a batch, unless that is full.
fn put_given(picker: &mut Option<Picker>, row: &[i64], batch: &mut Batch) -> bool
    requires width { batch.old.width ≡ given_width (picks_of picker.old) (length row.now) }
    requires zeros { IsZeroFilled picker.old }
    ensures room { IsTrue result ↔ length batch.old.rows < most_rows }
    ensures put { batch.new ≡ cond result (with_row batch.old (given_row (picks_of picker.old) row.now)) batch.old }
    ensures picks { picks_of picker.new ≡ picks_of picker.old }
    ensures zeros { IsZeroFilled picker.new }
{
    match picker {
        None => batch.put(row),
        Some(picker) => {
            picker.make(row);
            batch.put(&picker.made)
        }
    }
}

impl<Sp: Spill> Model for PartitionScanner<Sp> {
    ghost use Rattle.std.specs.Prelude.{◌+◌, ◌-◌, length, drop, option_map};
    ghost use Rattle.pdq_spill.specs.Partitions.{left_in, with_front};
    ghost use Rattle.pdq_scan.specs.Lanes.{given, given_width};
    ghost use Rattle.pdq_scan.specs.Pickers.{picks_of};
    ghost use Rattle.pdq_scan.specs.Readers.{ReaderView, IsReader, left_count};

    ghost Value = { ReaderView };

    ghost view = { λ s. record { width = given_width (picks_of s.picker) s.rows.width; at_hand = length s.block - s.at; count = (length s.block - s.at) + left_count s.rows; rows = option_map (given (picks_of s.picker)) (with_front (drop s.at s.block) (left_in s.rows (Sp.blocks s.store))); fault = s.fault; store = record { blocks = Sp.blocks s.store; held = Sp.held s.store; puts = Sp.puts s.store; faults = Sp.faults s.store } } };

    ghost invariant = { λ s. IsReader s.rows (Sp.held s.store) (Sp.blocks s.store) s.block s.at s.picker };
}

impl<Sp: Spill> PartitionScanner<Sp> {
    /// Gives the rows that this partition has still to hand out.
    pub(crate) fn new(rows: Partition, store: Sp, picker: Option<Picker>) -> PartitionScanner<Sp>
        requires zeros { IsZeroFilled picker }
        requires sealed { rows.sealed ≡ true }
        requires stands { Stands rows (Sp.held store) (Sp.blocks store) }
        ensures { result ≡ record { width = given_width (picks_of picker) rows.width; at_hand = 0; count = left_count rows; rows = option_map (given (picks_of picker)) (left_in rows (Sp.blocks store)); fault = None; store = record { blocks = Sp.blocks store; held = Sp.held store; puts = Sp.puts store; faults = Sp.faults store } } }
    {
        PartitionScanner {
            rows,
            store,
            picker,
            block: Block::new(),
            at: 0,
            fault: None,
        }
    }

    /// Its store.
    pub fn leave(self) -> Sp
        ensures store { self.store ≡ record { blocks = Sp.blocks result; held = Sp.held result; puts = Sp.puts result; faults = Sp.faults result } }
    {
        let PartitionScanner {
            rows: _,
            store,
            picker: _,
            block: _,
            at: _,
            fault: _,
        } = self;
        store
    }

    /// Sees that a row is at hand; false where none is to come.
    fn turn(&mut self) -> Result<bool, ExecFault>
        requires fine { self.old.fault ≡ None }
        ensures more { IfOk result (λ more. more ≡ true → 0 < self.new.at_hand) }
        ensures ended { IfOk result (λ more. more ≡ false → self.new.count ≡ 0) }
        ensures same { OnOk result (SameLeft self.old self.new) }
        ensures failed { IfErr result (λ cause. self.new.fault ≡ Some cause) }
        ensures width { self.new.width ≡ self.old.width }
        ensures kept { KeepsReader self.old self.new }
    {
        if self.at < self.block.rows() {
            return Ok(true);
        }
        match self.rows.next_block(&mut self.store, &mut self.block) {
            Ok(true) => {
                self.at = 0;
                Ok(true)
            }
            Ok(false) => Ok(false),
            Err(fault) => {
                self.fault = Some(fault);
                Err(fault)
            }
        }
    }

    /// Moves the row at hand into a batch, unless that is full.
    fn put_next(&mut self, batch: &mut Batch) -> bool
        requires some { 0 < self.old.at_hand }
        requires width { batch.old.width ≡ self.old.width }
        ensures room { IsTrue result ↔ length batch.old.rows < most_rows }
        ensures moved { result ≡ true → Moved self.old batch.old self.new batch.new }
        ensures full { result ≡ false → (self.new ≡ self.old) × (batch.new ≡ batch.old) }
    {
        let _rows = self.block.rows();
        let row = self.block.row(self.at);
        if !put_given(&mut self.picker, row, batch) {
            return false;
        }
        self.at += 1;
        true
    }

    /// Its rows to come are as many as it says.
    fn look(&self)
        ensures coming { IsComing self.now.width (plain_coming self.now) }
        ensures some { self.now.at_hand ≤ self.now.count }
    {
        let _block = &self.block;
    }
}

impl<Sp: Spill + Send> Scanner for PartitionScanner<Sp> {
    ghost use Rattle.pdq_scan.specs.Readers.{KeepsReader, coming_of};
    ghost use Rattle.pdq_scan.specs.ReaderLaws.{reader-coming, reader-none, reader-on};

    ghost width = { λ s. s.width };

    ghost left = { λ s. coming_of s };

    ghost fault = { λ s. s.fault };

    ghost keeps = { λ a b. KeepsReader a b };

    fn fill(&mut self, batch: &mut Batch) -> Result<bool, ExecFault> {
        if let Some(fault) = self.fault {
            return Err(fault);
        }
        self.look();
        loop {
            if !self.turn()? {
                return Ok(false);
            }
            self.look();
            if !self.put_next(batch) {
                return Ok(true);
            }
        }
    }

    ghost coming_is = { λ s. reader-coming s };

    ghost keeps_itself = { λ s. reader-none s };

    ghost keeps_on = { λ a b c h k. reader-on a b c h k };
}
