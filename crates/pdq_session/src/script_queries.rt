//! The lines QUERY and RUN: queries are submitted with their text, and run within their grant.
ghost use Rattle.std.specs.Prelude.{◌≡◌, ◌*◌, ◌≤◌, ◌++◌, false, true, Ok, Err, Some, IfOk, IsTrue, OnErr, OnOk, length, not};
ghost use Rattle.pdq_model.specs.declared.events.Event.TheVariants.{Collect};
ghost use Rattle.pdq_model.specs.History.{may_collect};
ghost use Rattle.pdq_model.specs.Shares.{owners_for};
ghost use Rattle.pdq_model.specs.Step.{decide};
ghost use Rattle.pdq_gate.specs.Queries.{holder_of, session_of, MayFinish};
ghost use Rattle.pdq_query.specs.Fits.{Fits};
ghost use Rattle.pdq_query.specs.Queries.{query_of};
ghost use Rattle.pdq_exec.specs.Runs.{AnyRose, AreStoresAfter};
ghost use Rattle.pdq_answer.specs.Evaluations.{IsPrintable};
ghost use Rattle.pdq_session.specs.ScriptLines.{has_rows, is_store_failure, outcome_told, Begins, CameTo, MadeFirst, RanLine, RanQuery};
ghost use Rattle.pdq_session.specs.ScriptStates.{asked_of, script_state, shapes_asked, IsReady, IsTrusted, KeepsTables};
ghost use Rattle.pdq_session.specs.ScriptSteps.{collect_step, end_step, outcome_of, query_step, run_step};

use crate::script_commands::{finish, own_refusal};
use crate::script_lines::ScriptLine;
use crate::script_sessions::{ScriptSessions, schema_of};
use pdq_answer::{Evaluated, add_evaluated, evaluate};
use pdq_base::Memory;
use pdq_edge::{NeverStop, Spill};
use pdq_frame::Region;
use pdq_gate::{Collected, Manager, Submitted};
use pdq_model::How;
use pdq_query::Query;
use pdq_reply::{
    Refusal, add_admits, add_cancelled, add_done, add_failed, add_placed, add_refusal,
};
use pdq_table::Stored;
use std::alloc::{AllocError, Global};
use std::thread::Threads;

/// Submits a query of the current session, and keeps its text.
pub(crate) fn place_query(
    alloc: Global,
    manager: &mut Manager,
    sessions: &mut ScriptSessions,
    replies: &mut Vec<u8>,
    query: Query,
) -> Result<(), AllocError>
    requires ready { IsReady (script_state manager.old sessions.old) }
    requires fits { Fits (shapes_asked (asked_of sessions.old.stored)) (query_of query) }
    ensures replies { OnOk result (replies.new.items ≡ replies.old.items ++ (query_step (script_state manager.old sessions.old) (Ok (query_of query))).text) }
    ensures state { OnOk result (script_state manager.new sessions.new ≡ (query_step (script_state manager.old sessions.old) (Ok (query_of query))).state) }
    ensures entries { OnErr result (Begins (query_step (script_state manager.old sessions.old) (Ok (query_of query))).state.history manager.new.history) }
    ensures kept { KeepsTables sessions.old sessions.new }
    ensures opening { manager.new.opening ≡ manager.old.opening }
{
    let Ok(frags) = sessions.widest(alloc, &query) else {
        return Err(AllocError);
    };
    let priority = sessions.priority();
    match manager.submit(sessions.current(), priority, frags) {
        Ok(
            Submitted::Placed {
                id,
                step,
                priority,
                gate,
            },
        ) => {
            sessions.keep_text(id, query)?;
            add_placed(alloc, replies, id, step, priority, gate)?;
            add_admits(alloc, replies, manager.admitted())
        }
        Err(refused) => add_refusal(alloc, replies, Refusal::Manager(refused.why), refused.step),
    }
}

// The partition owners of a query of this effective priority with so many scan threads.
fn owners_for(priority: u32, scans: u32) -> u32
    ensures value { result ≡ owners_for priority scans }
{
    if priority >= 2 { scans } else { 1 }
}

// Whether a query came to rows.
fn has_rows(evaluated: &Evaluated) -> bool
    ensures value { result ≡ has_rows evaluated.now }
{
    match evaluated {
        Evaluated::Rows(_) => true,
        _ => false,
    }
}

// Whether a store failed while a query ran.
fn is_store_failure(evaluated: &Evaluated) -> bool
    ensures value { result ≡ is_store_failure evaluated.now }
{
    match evaluated {
        Evaluated::StoreFailed => true,
        _ => false,
    }
}

// Adds what a query came to.
fn add_outcome(
    alloc: Global,
    replies: &mut Vec<u8>,
    evaluated: &Evaluated,
) -> Result<(), AllocError>
    requires printable { IsPrintable evaluated.now }
    ensures text { OnOk result (replies.new.items ≡ replies.old.items ++ (outcome_told evaluated.now).text) }
{
    match add_evaluated(alloc, replies, evaluated) {
        Ok(()) => Ok(()),
        Err(Memory) => Err(AllocError),
    }
}

/// Ends a query that came to rows.
fn end_done(
    alloc: Global,
    manager: &mut Manager,
    sessions: &ScriptSessions,
    replies: &mut Vec<u8>,
    id: u32,
    region: Region,
    evaluated: &Evaluated,
) -> Result<(), AllocError>
    requires may { MayFinish manager.old.state id region.frames }
    requires holder { holder_of manager.old.state id ≡ sessions.now.current }
    requires printable { IsPrintable evaluated.now }
    requires rows { has_rows evaluated.now ≡ true }
    ensures replies { OnOk result (replies.new.items ≡ replies.old.items ++ (end_step (script_state manager.old sessions.now) id (outcome_told evaluated.now)).text) }
    ensures state { script_state manager.new sessions.now ≡ (end_step (script_state manager.old sessions.now) id (outcome_told evaluated.now)).state }
    ensures opening { manager.new.opening ≡ manager.old.opening }
{
    let step = manager.finish(id, region, How::Done);
    add_outcome(alloc, replies, evaluated)?;
    add_done(alloc, replies, id, step)?;
    add_admits(alloc, replies, manager.admitted())
}

/// Ends a query that came to no rows.
fn end_failed(
    alloc: Global,
    manager: &mut Manager,
    sessions: &ScriptSessions,
    replies: &mut Vec<u8>,
    id: u32,
    region: Region,
    evaluated: &Evaluated,
) -> Result<(), AllocError>
    requires may { MayFinish manager.old.state id region.frames }
    requires holder { holder_of manager.old.state id ≡ sessions.now.current }
    requires printable { IsPrintable evaluated.now }
    requires none { has_rows evaluated.now ≡ false }
    ensures replies { OnOk result (replies.new.items ≡ replies.old.items ++ (end_step (script_state manager.old sessions.now) id (outcome_told evaluated.now)).text) }
    ensures state { script_state manager.new sessions.now ≡ (end_step (script_state manager.old sessions.now) id (outcome_told evaluated.now)).state }
    ensures opening { manager.new.opening ≡ manager.old.opening }
{
    let step = manager.finish(id, region, How::Failed);
    add_outcome(alloc, replies, evaluated)?;
    add_failed(alloc, replies, id, step)?;
    add_admits(alloc, replies, manager.admitted())
}

/// Ends a query that was run, by what it came to. Tells whether a store failed.
fn end_run(
    alloc: Global,
    manager: &mut Manager,
    sessions: &ScriptSessions,
    replies: &mut Vec<u8>,
    id: u32,
    region: Region,
    evaluated: &Evaluated,
) -> Result<bool, AllocError>
    requires may { MayFinish manager.old.state id region.frames }
    requires holder { holder_of manager.old.state id ≡ sessions.now.current }
    requires printable { IsPrintable evaluated.now }
    ensures replies { OnOk result (replies.new.items ≡ replies.old.items ++ (end_step (script_state manager.old sessions.now) id (outcome_told evaluated.now)).text) }
    ensures failed { IfOk result (λ failed. failed ≡ is_store_failure evaluated.now) }
    ensures state { script_state manager.new sessions.now ≡ (end_step (script_state manager.old sessions.now) id (outcome_told evaluated.now)).state }
    ensures opening { manager.new.opening ≡ manager.old.opening }
{
    if has_rows(evaluated) {
        end_done(alloc, manager, sessions, replies, id, region, evaluated)?;
    } else {
        end_failed(alloc, manager, sessions, replies, id, region, evaluated)?;
    }
    Ok(is_store_failure(evaluated))
}

/// Runs a granted query within its region, and ends it. Tells whether a store failed.
///
/// # Errors
/// `AllocError` where memory is wanting; the query has ended, as failed where it was wanting before the query came to anything.
fn run_granted<R: Threads + Sync, Sp: Spill + Send>(
    rt: &R,
    alloc: Global,
    manager: &mut Manager,
    sessions: &ScriptSessions,
    replies: &mut Vec<u8>,
    id: u32,
    stored: &Stored,
    query: &Query,
    region: Region,
    scans: u32,
    priority: u32,
    stores: &mut Vec<Sp>,
) -> Result<bool, AllocError>
    requires may { MayFinish manager.old.state id region.frames }
    requires holder { holder_of manager.old.state id ≡ sessions.now.current }
    requires scans { (1 ≤ scans) × (scans ≤ 16) }
    requires region { 32 ≤ region.frames }
    requires tables { sessions.now.stored ≡ Some stored.now }
    requires fits { Fits (shapes_asked (asked_of sessions.now.stored)) (query_of query.now) }
    requires stores { length stores.old.items ≡ 48 }
    ensures came { IfOk result (CameTo (IsTrusted sessions.now.stored Sp.blocks stores.old.items) (script_state manager.old sessions.now) (script_state manager.new sessions.now) replies.old.items replies.new.items id (query_of query.now)) }
    ensures made { IsTrusted sessions.now.stored Sp.blocks stores.old.items → OnErr result (MadeFirst (end_step (script_state manager.old sessions.now) id (outcome_of (asked_of sessions.now.stored) (query_of query.now) false)).state.history manager.new.history) }
    ensures stores { AreStoresAfter Sp.blocks Sp.faults Sp.puts stores.old.items stores.new.items }
    ensures failed { result ≡ Ok true → AnyRose Sp.faults stores.old.items stores.new.items }
    ensures opening { manager.new.opening ≡ manager.old.opening }
{
    let _schema = schema_of(stored);
    let owners = owners_for(priority, scans);
    let mut never = NeverStop::new();
    let (region, evaluated) = evaluate(
        rt, alloc, stored, query, region, scans, owners, stores, &mut never,
    );
    match evaluated {
        Ok(evaluated) => end_run(alloc, manager, sessions, replies, id, region, &evaluated),
        Err(Memory) => {
            manager.finish(id, region, How::Failed);
            Err(AllocError)
        }
    }
}

/// Collects a query of the current session, and runs it where it is granted and was not cancelled. Tells whether a store failed.
fn collect_query<R: Threads + Sync, Sp: Spill + Send>(
    rt: &R,
    alloc: Global,
    manager: &mut Manager,
    sessions: &ScriptSessions,
    replies: &mut Vec<u8>,
    id: u32,
    stored: &Stored,
    query: &Query,
    stores: &mut Vec<Sp>,
) -> Result<bool, AllocError>
    requires may { IsTrue (may_collect manager.old.state (session_of manager.old.state id) id) }
    requires own { session_of manager.old.state id ≡ sessions.now.current }
    requires tables { sessions.now.stored ≡ Some stored.now }
    requires fits { Fits (shapes_asked (asked_of sessions.now.stored)) (query_of query.now) }
    requires stores { length stores.old.items ≡ 48 }
    ensures ran { IfOk result (RanQuery (IsTrusted sessions.now.stored Sp.blocks stores.old.items) (script_state manager.old sessions.now) (script_state manager.new sessions.now) replies.old.items replies.new.items id (query_of query.now)) }
    ensures made { IsTrusted sessions.now.stored Sp.blocks stores.old.items → OnErr result (MadeFirst (collect_step (script_state manager.old sessions.now) id (outcome_of (asked_of sessions.now.stored) (query_of query.now) false) (decide manager.old.state sessions.now.current (Collect id))).state.history manager.new.history) }
    ensures stores { AreStoresAfter Sp.blocks Sp.faults Sp.puts stores.old.items stores.new.items }
    ensures failed { result ≡ Ok true → AnyRose Sp.faults stores.old.items stores.new.items }
    ensures opening { manager.new.opening ≡ manager.old.opening }
{
    match manager.collect(id) {
        Collected::Granted {
            region,
            quanta: _,
            scans,
            priority,
            flagged,
            step: _,
        } => match flagged {
            None => run_granted(
                rt, alloc, manager, sessions, replies, id, stored, query, region, scans, priority,
                stores,
            ),
            Some(by) => {
                finish(alloc, manager, sessions, replies, id, region, Some(by))?;
                Ok(false)
            }
        },
        Collected::Waiting { gate: _, step } => {
            add_refusal(alloc, replies, Refusal::NotNow, step)?;
            Ok(false)
        }
        Collected::Cancelled { by, step } => {
            add_cancelled(alloc, replies, id, step, by)?;
            Ok(false)
        }
    }
}

/// Runs a query of the current session: a claim has nothing to run. Tells whether a store failed.
pub(crate) fn run_query<R: Threads + Sync, Sp: Spill + Send>(
    rt: &R,
    alloc: Global,
    manager: &mut Manager,
    sessions: &ScriptSessions,
    replies: &mut Vec<u8>,
    id: u32,
    stores: &mut Vec<Sp>,
) -> Result<bool, AllocError>
    requires ready { IsReady (script_state manager.old sessions.now) }
    requires stores { length stores.old.items ≡ 48 }
    ensures ran { IsTrusted sessions.now.stored Sp.blocks stores.old.items → IfOk result (RanLine (script_state manager.old sessions.now) (script_state manager.new sessions.now) replies.old.items replies.new.items (ScriptLine.Run id)) }
    ensures made { IsTrusted sessions.now.stored Sp.blocks stores.old.items → OnErr result (MadeFirst (run_step (script_state manager.old sessions.now) false id).state.history manager.new.history) }
    ensures ready { OnOk result (IsReady (script_state manager.new sessions.now)) }
    ensures stores { AreStoresAfter Sp.blocks Sp.faults Sp.puts stores.old.items stores.new.items }
    ensures failed { result ≡ Ok true → AnyRose Sp.faults stores.old.items stores.new.items }
    ensures opening { manager.new.opening ≡ manager.old.opening }
{
    if let Some(refusal) = own_refusal(manager, sessions.current(), id) {
        add_refusal(alloc, replies, refusal, manager.step())?;
        return Ok(false);
    }
    let Some(query) = sessions.text(id) else {
        add_refusal(alloc, replies, Refusal::NotNow, manager.step())?;
        return Ok(false);
    };
    let Some(stored) = sessions.stored() else {
        unreachable!();
    };
    collect_query(
        rt, alloc, manager, sessions, replies, id, stored, query, stores,
    )
}
