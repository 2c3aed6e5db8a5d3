//! Batches with the owner of each row.
ghost use Rattle.std.specs.Prelude.{◌≡◌, ◌<◌, ◌≤◌, ℕ, All, IfOk, length, take, map};
ghost use Rattle.pdq_exchange.specs.Batches.{Row, most_rows, empty_batch};
ghost use Rattle.pdq_exchange.specs.Routing.{IsRouted, owner_of, rows_for};

use crate::Batch;
use crate::batch::MOST_ROWS;
use crate::routing::owner_number;
use pdq_base::Memory;
use std::alloc::Global;

/// A batch, and beside each of its rows the number of the row's owner.
#[derive(Drop)]
pub(crate) struct Load {
    pub batch: Batch,
    pub owners: Vec<u32>,
    ghost room: { length owners.items ≡ 1024 },
}

impl Load {
    /// No rows of this width.
    pub fn new(alloc: Global, width: u32) -> Result<Load, Memory>
        requires low { 1 ≤ width }
        requires high { width ≤ 511 }
        ensures { IfOk result (λ load. load.batch ≡ empty_batch width) }
    {
        let batch = Batch::new(alloc, width)?;
        let Ok(owners) = vec![in alloc; 0u32; MOST_ROWS as usize] else {
            return Err(Memory);
        };
        Ok(Load { batch, owners })
    }

    /// Finds the owner of each row.
    pub fn route(&mut self, keys: &[u32], owners: usize)
        requires keys { All (λ k. k < self.old.batch.width) keys.now }
        requires some { 0 < owners }
        ensures batch { self.new.batch ≡ self.old.batch }
        ensures routed { IsRouted (owner_of keys.now owners) self.new.batch.rows self.new.owners.items }
    {
        for i in 0..self.batch.rows() {
            let number = owner_number(self.batch.row(i), keys, owners);
            self.owners[i as usize] = number;
        }
    }

    /// Puts the rows of one owner into an empty batch.
    pub fn pick(&self, number: usize, into: &mut Batch)
        requires { into.old.width ≡ self.now.batch.width }
        ensures width { into.new.width ≡ into.old.width }
        ensures rows { (owner : Row → ℕ) → IsRouted owner self.now.batch.rows self.now.owners.items → into.new.rows ≡ rows_for owner number self.now.batch.rows }
    {
        into.clear();
        for i in 0..self.batch.rows() {
            let row = self.batch.row(i);
            if self.owners[i as usize] as usize == number {
                into.put(row);
            }
        }
    }
}
