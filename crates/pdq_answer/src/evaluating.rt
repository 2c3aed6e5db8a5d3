//! What a query comes to within its grant.
ghost use Rattle.std.specs.Prelude.{◌≡◌, ◌≢◌, ◌*◌, ◌<◌, ◌≤◌, ℕ, All, Err, IfOk, IsErrOf, Ok, OnErr, OnOk, length, sum_by};
ghost use Rattle.pdq_edge.specs.Causes.{Rose};
ghost use Rattle.pdq_query.specs.Answer.{answer};
ghost use Rattle.pdq_query.specs.Fits.{Fits};
ghost use Rattle.pdq_query.specs.Queries.{query_of};
ghost use Rattle.pdq_eval.specs.Overflow.{blocks_needed, joins_needed};
ghost use Rattle.pdq_exec.specs.Runs.{AnyRose, AreStoresAfter, AreTold};
ghost use Rattle.pdq_answer.specs.Evaluations.{IsAnswer, IsPrintable, IsRunAs, PutAtLeast, order_over};

use crate::planning::plan_of;
use pdq_base::Memory;
use pdq_edge::{Spill, Stop};
use pdq_exec::{Ran, run};
use pdq_frame::Region;
use pdq_query::Query;
use pdq_spill::ExecFault;
use pdq_table::Stored;
use pdq_value::Cell;
use std::alloc::Global;
use std::thread::Threads;

/// What a query came to.
#[derive(Drop)]
pub enum Evaluated {
    /// The rows of its answer.
    Rows(Vec<Vec<Cell>>),
    /// It has more choices than the row limit.
    TooManyRows,
    /// A store failed; its count of faults rose.
    StoreFailed,
    /// It was told to stop, with this step.
    Stopped(u64),
}

/// What a run came to.
///
/// # Errors
/// `Memory` where it was wanting.
fn evaluation_of(ran: Result<Ran, ExecFault>) -> Result<Evaluated, Memory>
    ensures same { IfOk result (IsRunAs ran) }
    ensures memory { OnErr result (ran ≡ Err ExecFault.Memory) }
{
    match ran {
        Ok(ran) => Ok(Evaluated::Rows(ran.rows)),
        Err(ExecFault::RowLimit) => Ok(Evaluated::TooManyRows),
        Err(ExecFault::SpillFault) => Ok(Evaluated::StoreFailed),
        Err(ExecFault::Stopped { step }) => Ok(Evaluated::Stopped(step)),
        Err(ExecFault::Memory) => Err(Memory),
    }
}

/// Works out the answer of a query over stored tables within a region of granted frames, with so many scan threads and partition owners, of 1 to 16
/// each. Only fragments that can hold a row of the answer are read. The region comes back with its frames and the 48 stores stand in their places,
/// whatever the answer.
///
/// What it came to is `Rows` with the rows of the answer; `TooManyRows` where more than 20,000,000 choices meet the conditions; `StoreFailed` only
/// where one of these stores failed in this call; `Stopped` where `stop` said so in this call. What is said of the answer holds where the stores tell
/// their blocks.
///
/// # Errors
/// `Memory` where it is wanting.
pub fn evaluate<R: Threads + Sync, Sp: Spill + Send, St: Stop>(
    rt: &R,
    alloc: Global,
    stored: &Stored,
    query: &Query,
    region: Region,
    scans: u32,
    owners: u32,
    stores: &mut Vec<Sp>,
    stop: &mut St,
) -> (Region, Result<Evaluated, Memory>)
    requires query { Fits stored.now.schema.shapes (query_of query.now) }
    requires scans { (1 ≤ scans) × (scans ≤ 16) }
    requires owners { (1 ≤ owners) × (owners ≤ 16) }
    requires region { 2 * owners ≤ region.frames }
    requires stores { length stores.old.items ≡ 48 }
    ensures region { result.0.frames ≡ region.frames }
    ensures stores { AreStoresAfter Sp.blocks Sp.faults Sp.puts stores.old.items stores.new.items }
    ensures cleared { OnOk result.1 (All (λ store. Sp.held store ≡ 0) stores.new.items) }
    ensures stop_kept { St.keeps stop.old stop.new }
    ensures answer { AreTold Sp.blocks stores.old.items → IfOk result.1 (IsAnswer (answer stored.now.tables (query_of query.now))) }
    ensures printable { IfOk result.1 IsPrintable }
    ensures overflow { IfOk result.1 (PutAtLeast (sum_by Sp.puts stores.old.items) (sum_by Sp.puts stores.new.items)
        (joins_needed stored.now.tables (query_of query.now) (order_over stored.now (query_of query.now)) region.frames)) }
    ensures overflow_told { AreTold Sp.blocks stores.old.items → IfOk result.1 (PutAtLeast (sum_by Sp.puts stores.old.items) (sum_by Sp.puts stores.new.items)
        (blocks_needed stored.now.tables (query_of query.now) (order_over stored.now (query_of query.now)) region.frames)) }
    ensures asked { OnOk result.1 (Rose (St.asked stop.old) (St.asked stop.new)) }
    ensures stopped { (step : ℕ) → result.1 ≡ Ok (Evaluated.Stopped step) → Rose (St.told stop.old) (St.told stop.new) × (step ≡ St.last stop.new) }
    ensures told { St.told stop.old < St.told stop.new → result.1 ≡ Ok (Evaluated.Stopped (St.last stop.new)) }
    ensures spill { result.1 ≡ Ok Evaluated.StoreFailed → AnyRose Sp.faults stores.old.items stores.new.items }
{
    match plan_of(alloc, stored, query) {
        Ok(plan) => {
            let (region, ran) = run(
                rt, alloc, stored, &plan, region, scans, owners, stores, stop,
            );
            (region, evaluation_of(ran))
        }
        Err(Memory) => (region, Err(Memory)),
    }
}
