//! The reply to what is asked.
ghost use Rattle.std.specs.Prelude.{◌≡◌, IfOk, vec_len};
ghost use Rattle.pdq_exec.specs.Runs.{AreStoresAfter};
ghost use Rattle.pdq_query.specs.Fits.{Fits};
ghost use Rattle.pdq_query.specs.Queries.{query_of};
ghost use Rattle.pdq_answer.specs.Evaluations.{IsPrintable};
ghost use Rattle.pdq_ask.specs.Alone.{IsNotStopped};
ghost use Rattle.pdqd.specs.Ask.{IsAskable, output_of, question_of};
ghost use Rattle.pdqd.specs.Replying.{evaluated_output};
ghost use Rattle.pdqd.specs.Stores.{IsReplyTo, stores_view};

use crate::asking::Asked;
use pdq_answer::{Evaluated, add_evaluated};
use pdq_ask::answer_alone;
use pdq_base::Memory;
use pdq_edge::Spill;
use pdq_sql::Query;
use pdq_table::Stored;
use std::alloc::Global;
use std::thread::Threads;

/// The status of a question that is answered.
const ANSWERED: u8 = 0;

/// The status of a question, or of a table, that is refused.
const REFUSED: u8 = 65;

/// The status of a question at which a store failed.
const STORE_FAILED: u8 = 70;

/// What a question is answered, and the status that tells of it.
#[derive(Drop)]
pub(crate) struct Reply {
    pub(crate) text: Vec<u8>,
    pub(crate) status: u8,
}

/// The reply that tells what a query came to.
fn reply_of(alloc: Global, evaluated: &Evaluated) -> Result<Reply, Memory>
    requires printable { IsPrintable evaluated.now }
    requires not_stopped { IsNotStopped evaluated.now }
    ensures reply { IfOk result (λ r. output_of r ≡ evaluated_output evaluated.now) }
{
    let mut text = Vec::new(alloc);
    add_evaluated(alloc, &mut text, evaluated)?;
    let status = match evaluated {
        Evaluated::Rows(_) => ANSWERED,
        Evaluated::TooManyRows => REFUSED,
        Evaluated::StoreFailed => STORE_FAILED,
        Evaluated::Stopped(_) => unreachable!(),
    };
    Ok(Reply { text, status })
}

/// The reply to a query over stored tables.
fn reply_to_query<R: Threads + Sync, Sp: Spill + Send>(
    rt: &R,
    alloc: Global,
    stored: &Stored,
    query: &Query,
    stores: &mut Vec<Sp>,
) -> Result<Reply, Memory>
    requires query { Fits stored.now.schema.shapes (query_of query.now) }
    requires stores { vec_len stores.old ≡ 48 }
    ensures reply { IfOk result (λ r. IsReplyTo (stores_view Sp.blocks Sp.faults Sp.puts stores.old.items) (stores_view Sp.blocks Sp.faults Sp.puts stores.new.items)
        (Ok (record { tables = stored.now.tables; query = query_of query.now })) (output_of r)) }
    ensures stores { AreStoresAfter Sp.blocks Sp.faults Sp.puts stores.old.items stores.new.items }
{
    let evaluated = answer_alone(rt, alloc, stored, query, stores)?;
    reply_of(alloc, &evaluated)
}

/// The reply to what is asked. The 48 stores stand in their places, whatever the answer.
///
/// # Errors
/// `Memory` where it is wanting.
pub(crate) fn reply_to<R: Threads + Sync, Sp: Spill + Send>(
    rt: &R,
    alloc: Global,
    asked: Asked,
    stores: &mut Vec<Sp>,
) -> Result<Reply, Memory>
    requires askable { IsAskable asked }
    requires stores { vec_len stores.old ≡ 48 }
    ensures reply { IfOk result (λ r. IsReplyTo (stores_view Sp.blocks Sp.faults Sp.puts stores.old.items) (stores_view Sp.blocks Sp.faults Sp.puts stores.new.items)
        (question_of asked) (output_of r)) }
    ensures stores { AreStoresAfter Sp.blocks Sp.faults Sp.puts stores.old.items stores.new.items }
{
    match asked {
        Asked::Question { stored, query } => reply_to_query(rt, alloc, &stored, &query, stores),
        Asked::Refused(text) => Ok(Reply {
            text,
            status: REFUSED,
        }),
    }
}
