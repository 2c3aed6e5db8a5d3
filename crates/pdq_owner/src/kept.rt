//! Rows in memory.
ghost use Rattle.std.specs.Prelude.{◌≡◌, ◌+◌, ◌*◌, ◌<◌, ◌≤◌, ◌++◌, ◌∷◌, [], None, Some, true, length, OnOk, OnErr, IfErr, slice_get};
ghost use Rattle.pdq_owner.specs.Keepers.{KeptView};

use crate::fills::Counted;
use pdq_spill::{ExecFault, RowOut};
use std::alloc::Global;
use std::marker::Model;

/// Rows in memory, up to a number of them where there is one.
#[derive(Drop)]
pub struct Kept {
    width: u32,
    words: Vec<i64>,
    count: u64,
    most: Option<u64>,
    fault: Option<ExecFault>,
}

impl Model for Kept {
    ghost use Rattle.std.specs.Prelude.{◌≡◌, ◌*◌, length};
    ghost use Rattle.pdq_spill.specs.Rows.{rows_of};
    ghost use Rattle.pdq_owner.specs.Keepers.{KeptView};

    ghost Value = { KeptView };

    ghost view = { λ k. record { width = k.width; rows = rows_of k.width k.count k.words.items; most = k.most; fault = k.fault } };

    ghost invariant = { λ k. length k.words.items ≡ k.count * k.width };
}

impl Kept {
    /// No row yet.
    pub fn new(alloc: Global, width: u32, most: Option<u64>) -> Kept
        ensures { result ≡ record { width = width; rows = []; most = most; fault = None } }
    {
        Kept {
            width,
            words: Vec::new(alloc),
            count: 0,
            most,
            fault: None,
        }
    }

    /// One of its rows, the first of them 0.
    pub fn row(&self, i: u64) -> &[i64]
        requires within { i < length self.now.rows }
        ensures row { slice_get self.now.rows i ≡ Some result.now }
    {
        let width = self.width as usize;
        let at = i as usize * width;
        &self.words[at..at + width]
    }

    /// Takes a row; first the room for it.
    fn push(&mut self, row: &[i64]) -> Result<(), ExecFault>
        requires width { length row.now ≡ self.old.width }
        ensures ok { OnOk result (self.new ≡ record self.old { rows = self.old.rows ++ row.now ∷ [] }) }
        ensures err { OnErr result (self.new ≡ self.old) }
        ensures cause { IfErr result (λ fault. fault ≡ ExecFault.Memory) }
    {
        if self.count == u64::MAX {
            return Err(ExecFault::Memory);
        }
        match self.words.extend_from_slice(row) {
            Ok(()) => {
                self.count += 1;
                Ok(())
            }
            Err(_) => Err(ExecFault::Memory),
        }
    }

    /// Keeps a fault that it answers.
    fn fail(&mut self, fault: ExecFault)
        ensures { self.new ≡ record self.old { fault = Some fault } }
    {
        self.fault = Some(fault);
    }

    /// Whether it holds as many rows as it may.
    fn is_at_limit(&self) -> bool
        ensures at { result ≡ true → self.now.most ≡ Some (length self.now.rows) }
    {
        let Some(most) = self.most else {
            return false;
        };
        most == self.count()
    }
}

impl RowOut for Kept {
    ghost use Rattle.std.specs.Prelude.{Some};
    ghost use Rattle.pdq_owner.specs.Keepers.{KeepsKept};
    ghost use Rattle.pdq_owner.specs.KeeperLaws.{kept-none, kept-on};

    ghost rows = { λ k. Some k.rows };

    ghost width = { λ k. k.width };

    ghost fault = { λ k. k.fault };

    ghost keeps = { λ a b. KeepsKept a b };

    fn put(&mut self, row: &[i64]) -> Result<(), ExecFault> {
        if let Some(fault) = self.fault {
            return Err(fault);
        }
        if self.is_at_limit() {
            self.fail(ExecFault::RowLimit);
            return Err(ExecFault::RowLimit);
        }
        match self.push(row) {
            Ok(()) => Ok(()),
            Err(fault) => {
                self.fail(fault);
                Err(fault)
            }
        }
    }

    ghost keeps_itself = { λ k. kept-none k };

    ghost keeps_on = { λ a b c h k. kept-on a b c h k };
}

impl Counted for Kept {
    ghost use Rattle.std.specs.Prelude.{length, refl};

    ghost count = { λ k. length k.rows };

    fn count(&self) -> u64 {
        self.count
    }

    ghost counts = { λ k. refl };
}
