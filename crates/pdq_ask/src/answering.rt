//! The answer of a query in memory of its own.
ghost use Rattle.std.specs.Prelude.{◌≡◌, All, IfOk, Ok, length, sum_by};
ghost use Rattle.pdq_query.specs.Answer.{answer};
ghost use Rattle.pdq_query.specs.Fits.{Fits};
ghost use Rattle.pdq_query.specs.Queries.{query_of};
ghost use Rattle.pdq_exec.specs.Runs.{AnyRose, AreStoresAfter, AreTold};
ghost use Rattle.pdq_answer.specs.Evaluations.{IsAnswer, IsPrintable, PutAtLeast};
ghost use Rattle.pdq_ask.specs.Alone.{IsNotStopped, blocks_alone};

use pdq_answer::{Evaluated, evaluate};
use pdq_base::Memory;
use pdq_edge::{NeverStop, Spill};
use pdq_frame::Pool;
use pdq_query::Query;
use pdq_table::Stored;
use std::alloc::Global;
use std::thread::Threads;

/// The frames that a query is given which is asked alone.
const FRAMES: u32 = 32;

/// Works out the answer of a query that is asked alone: with one scan thread and one partition owner, in 32 frames of its own, and never told to stop.
/// The 48 stores stand in their places, whatever the answer. What is said of the answer holds where the stores tell their blocks.
///
/// # Errors
/// `Memory` where it is wanting.
pub fn answer_alone<R: Threads + Sync, Sp: Spill + Send>(
    rt: &R,
    alloc: Global,
    stored: &Stored,
    query: &Query,
    stores: &mut Vec<Sp>,
) -> Result<Evaluated, Memory>
    requires query { Fits stored.now.schema.shapes (query_of query.now) }
    requires stores { length stores.old.items ≡ 48 }
    ensures stores { AreStoresAfter Sp.blocks Sp.faults Sp.puts stores.old.items stores.new.items }
    ensures answer { AreTold Sp.blocks stores.old.items → IfOk result (IsAnswer (answer stored.now.tables (query_of query.now))) }
    ensures printable { IfOk result IsPrintable }
    ensures overflow { AreTold Sp.blocks stores.old.items → IfOk result (PutAtLeast (sum_by Sp.puts stores.old.items) (sum_by Sp.puts stores.new.items)
        (blocks_alone stored.now.tables (query_of query.now))) }
    ensures not_stopped { IfOk result IsNotStopped }
    ensures spill { result ≡ Ok Evaluated.StoreFailed → AnyRose Sp.faults stores.old.items stores.new.items }
{
    let mut pool = Pool::new(alloc, FRAMES, 1)?;
    let region = pool.grant(1);
    let mut stop = NeverStop::new();
    let (region, evaluated) = evaluate(rt, alloc, stored, query, region, 1, 1, stores, &mut stop);
    pool.give_back(region);
    evaluated
}
