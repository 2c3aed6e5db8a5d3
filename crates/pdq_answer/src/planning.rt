//! The plan of a query over stored tables.
ghost use Rattle.std.specs.Prelude.{◌≡◌, ◌<◌, All, IfOk, length, map};
ghost use Rattle.pdq_query.specs.Fits.{Fits};
ghost use Rattle.pdq_query.specs.Queries.{query_of};
ghost use Rattle.pdq_table.specs.Storing.{rows_of};
ghost use Rattle.pdq_prune.specs.Elimination.{AreFragments, fragments_left};
ghost use Rattle.pdq_exec.specs.Runs.{KeepsEnough};

use pdq_base::Memory;
use pdq_plan::{Plan, plan};
use pdq_prune::{left, left_fragments_hold_the_rows};
use pdq_query::Query;
use pdq_table::Stored;
use std::alloc::Global;

// How many rows each of these tables has.
fn sizes_of(alloc: Global, stored: &Stored, tables: &[u32]) -> Result<Vec<u32>, Memory>
    requires tables { All (λ t. t < length stored.now.schema.shapes) tables.now }
    ensures sizes { IfOk result (λ sizes. sizes.items ≡ map (rows_of stored.now) tables.now) }
{
    let mut sizes = Vec::new(alloc);
    for table in tables {
        sizes.push(stored.rows(*table)).map_err(|_| Memory)?;
    }
    Ok(sizes)
}

// The plan with these fragments alone, which hold each row that meets the filters.
fn narrowed(stored: &Stored, plan: Plan, left: Vec<Vec<u32>>) -> Plan
    requires query { Fits stored.now.schema.shapes plan.query }
    requires left { map (λ places. places.items) left.items ≡ fragments_left stored.now.schema plan.query }
    requires fragments { AreFragments stored.now.schema plan.query (map (λ places. places.items) left.items) }
    ensures query { result.query ≡ plan.query }
    ensures sizes { result.sizes ≡ plan.sizes }
    ensures left { KeepsEnough stored.now result }
{
    let _dict = stored.dict();
    left_fragments_hold_the_rows();
    plan.with_left(left)
}

/// The plan of a query over stored tables. It reads only fragments that can hold a row of the answer.
///
/// # Errors
/// `Memory` where it is wanting.
pub(crate) fn plan_of(alloc: Global, stored: &Stored, query: &Query) -> Result<Plan, Memory>
    requires query { Fits stored.now.schema.shapes (query_of query.now) }
    ensures query { IfOk result (λ plan. plan.query ≡ query_of query.now) }
    ensures sizes { IfOk result (λ plan. plan.sizes ≡ map (rows_of stored.now) query.now.tables.items) }
    ensures left { IfOk result (KeepsEnough stored.now) }
{
    let sizes = sizes_of(alloc, stored, &query.tables)?;
    let left = left(alloc, stored, query)?;
    let plan = plan(alloc, query, &sizes)?;
    Ok(narrowed(stored, plan, left))
}
