//! The queries over the tables of the server, and how one is run.
ghost use Rattle.std.specs.Prelude.{◌≡◌, ◌≤◌, ℕ, length, true};
ghost use Rattle.pdq_edge.specs.Causes.{Rose};
ghost use Rattle.pdq_model.specs.Shares.{owners_for};
ghost use Rattle.pdq_query.specs.Queries.{query_of};
ghost use Rattle.pdq_exec.specs.Runs.{AnyRose};
ghost use Rattle.pdq_serve.specs.Outcomes.{HasFailed, IsAnswered};
ghost use Rattle.pdq_serve.specs.Questions.{all_tell, expects, IsQuestion};

use crate::outcomes::{Outcome, outcome_of};
use pdq_answer::evaluate;
use pdq_edge::{Spill, Stop};
use pdq_frame::Region;
use pdq_query::Query;
use pdq_table::Stored;
use std::alloc::Global;
use std::thread::Threads;

/// A query over the tables of the server, and the number of fragments that it submits.
#[derive(Drop)]
pub(crate) struct Question {
    pub query: Query,
    pub frags: u32,
}

/// How many partition owners a query of this effective priority has, with so many scan threads.
fn owners_for(priority: u32, scans: u32) -> u32
    ensures value { result ≡ owners_for priority scans }
{
    if priority >= 2 { scans } else { 1 }
}

/// Runs a query within its grant, of so many scan threads and this effective priority. The region comes back with its frames, and the 48 stores stand
/// in their places, whatever the query comes to.
pub(crate) fn run_question<R: Threads + Sync, Sp: Spill + Send, St: Stop>(
    rt: &R,
    alloc: Global,
    stored: &Stored,
    question: &Question,
    region: Region,
    scans: u32,
    priority: u32,
    stores: &mut Vec<Sp>,
    stop: &mut St,
) -> (Region, Outcome)
    requires question { IsQuestion stored.now question.now }
    requires scans { (1 ≤ scans) × (scans ≤ 16) }
    requires region { 32 ≤ region.frames }
    requires stores { length stores.old.items ≡ 48 }
    ensures region { result.0.frames ≡ region.frames }
    ensures stores { length stores.new.items ≡ 48 }
    ensures tell { all_tell Sp.blocks stores.old.items ≡ true → all_tell Sp.blocks stores.new.items ≡ true }
    ensures answer { IsAnswered (expects Sp.blocks stores.old.items stored.now (query_of question.now.query)) result.1 }
    ensures stop_kept { St.keeps stop.old stop.new }
    ensures stopped { (step : ℕ) → result.1 ≡ Outcome.Stopped step → Rose (St.told stop.old) (St.told stop.new) × (step ≡ St.last stop.new) }
    ensures failed { HasFailed result.1 → AnyRose Sp.faults stores.old.items stores.new.items }
{
    let owners = owners_for(priority, scans);
    let (region, run) = evaluate(
        rt,
        alloc,
        stored,
        &question.query,
        region,
        scans,
        owners,
        stores,
        stop,
    );
    let outcome = outcome_of(alloc, run);
    (region, outcome)
}
