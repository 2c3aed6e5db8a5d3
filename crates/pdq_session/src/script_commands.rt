//! The commands of a script, which act on the manager and on the sessions of the script.
ghost use Rattle.std.specs.Prelude.{◌≡◌, ◌≤◌, ◌++◌, false, Ok, IfNone, IsTrue, OnErr, OnOk};
ghost use Rattle.pdq_model.specs.declared.events.Event.TheVariants.{Collect};
ghost use Rattle.pdq_model.specs.Step.{decide, is_open};
ghost use Rattle.pdq_model.specs.History.{may_collect, MayClose};
ghost use Rattle.pdq_gate.specs.Answers.{answer_of_cancelled, answer_of_changed};
ghost use Rattle.pdq_gate.specs.Changes.{setting_of};
ghost use Rattle.pdq_gate.specs.Queries.{holder_of, session_of, MayFinish};
ghost use Rattle.pdq_sql.specs.Commands.{command_of};
ghost use Rattle.pdq_reply.specs.Changes.{IsAskedFor};
ghost use Rattle.pdq_session.specs.Commands.{AsksNoTable};
ghost use Rattle.pdq_reply.specs.Changes.{level_priority};
ghost use Rattle.pdq_session.specs.ScriptLines.{Begins};
ghost use Rattle.pdq_session.specs.ScriptStates.{script_state, KeepsTexts};
ghost use Rattle.pdq_session.specs.ScriptSteps.{cancel_step, cancel_text, change_step, change_text, claim_step, close_refusal, close_step, collect_step, done_step, finish_step, not_run, onmode_step, onstat_step, open_step, own_refusal, set_step, submit_step, use_step};
ghost use Rattle.pdq_session.specs.ScriptTranscript.{command_step};

use crate::script_sessions::ScriptSessions;
use pdq_base::Memory;
use pdq_frame::Region;
use pdq_gate::{Cancelled, Change, Changed, Collected, Manager, Status, Submitted};
use pdq_model::{How, Why};
use pdq_reply::{
    Refusal, add_admits, add_cancelled, add_changed, add_chosen, add_closed, add_done, add_flagged,
    add_pending, add_placed, add_priority, add_refusal, add_session, add_stopped, add_withdrawn,
    change_for,
};
use pdq_sql::{Command, Letter, Level};
use pdq_stat::onstat_text;
use std::alloc::{AllocError, Global};

/// Sets the priority of the current session.
fn set_priority(
    alloc: Global,
    manager: &Manager,
    sessions: &mut ScriptSessions,
    replies: &mut Vec<u8>,
    level: Level,
) -> Result<(), AllocError>
    ensures replies { OnOk result (replies.new.items ≡ replies.old.items ++ (set_step (script_state manager.now sessions.old) (level_priority sessions.old.opening level)).text) }
    ensures state { script_state manager.now sessions.new ≡ (set_step (script_state manager.now sessions.old) (level_priority sessions.old.opening level)).state }
    ensures kept { KeepsTexts sessions.old sessions.new }
{
    let priority = sessions.asked(level);
    if priority > 100 {
        return add_refusal(alloc, replies, Refusal::OutOfRange, manager.step());
    }
    sessions.set_priority(priority);
    add_priority(alloc, replies, priority)
}

/// Submits a query of the current session.
fn submit(
    alloc: Global,
    manager: &mut Manager,
    sessions: &ScriptSessions,
    replies: &mut Vec<u8>,
    priority: u32,
    frags: u32,
) -> Result<(), AllocError>
    requires session { IsTrue (is_open manager.old.state sessions.now.current) }
    requires priority { priority ≤ 100 }
    requires some_frags { 1 ≤ frags }
    requires frags { frags ≤ 16 }
    ensures replies { OnOk result (replies.new.items ≡ replies.old.items ++ (submit_step (script_state manager.old sessions.now) priority frags).text) }
    ensures state { script_state manager.new sessions.now ≡ (submit_step (script_state manager.old sessions.now) priority frags).state }
    ensures opening { manager.new.opening ≡ manager.old.opening }
{
    match manager.submit(sessions.current(), priority, frags) {
        Ok(
            Submitted::Placed {
                id,
                step,
                priority,
                gate,
            },
        ) => {
            add_placed(alloc, replies, id, step, priority, gate)?;
            add_admits(alloc, replies, manager.admitted())
        }
        Err(refused) => add_refusal(alloc, replies, Refusal::Manager(refused.why), refused.step),
    }
}

/// Submits a query without a text.
fn claim(
    alloc: Global,
    manager: &mut Manager,
    sessions: &ScriptSessions,
    replies: &mut Vec<u8>,
    priority: u32,
    frags: u32,
) -> Result<(), AllocError>
    requires session { IsTrue (is_open manager.old.state sessions.now.current) }
    ensures replies { OnOk result (replies.new.items ≡ replies.old.items ++ (claim_step (script_state manager.old sessions.now) priority frags).text) }
    ensures state { script_state manager.new sessions.now ≡ (claim_step (script_state manager.old sessions.now) priority frags).state }
    ensures opening { manager.new.opening ≡ manager.old.opening }
{
    if priority <= 100 && 1 <= frags && frags <= 16 {
        submit(alloc, manager, sessions, replies, priority, frags)
    } else {
        add_refusal(alloc, replies, Refusal::OutOfRange, manager.step())
    }
}

// Adds the reply to a cancellation.
fn add_cancellation(
    alloc: Global,
    replies: &mut Vec<u8>,
    id: u32,
    told: Cancelled,
) -> Result<(), AllocError>
    ensures text { OnOk result (replies.new.items ≡ replies.old.items ++ cancel_text id (answer_of_cancelled (Ok told)) told.step) }
{
    if told.active {
        add_flagged(alloc, replies, id, told.step)
    } else {
        add_withdrawn(alloc, replies, id, told.step)
    }
}

/// Cancels a query.
fn cancel(
    alloc: Global,
    manager: &mut Manager,
    sessions: &ScriptSessions,
    replies: &mut Vec<u8>,
    id: u32,
) -> Result<(), AllocError>
    requires session { IsTrue (is_open manager.old.state sessions.now.current) }
    ensures replies { OnOk result (replies.new.items ≡ replies.old.items ++ (cancel_step (script_state manager.old sessions.now) id).text) }
    ensures state { script_state manager.new sessions.now ≡ (cancel_step (script_state manager.old sessions.now) id).state }
    ensures opening { manager.new.opening ≡ manager.old.opening }
{
    match manager.cancel(sessions.current(), id) {
        Ok(cancelled) => {
            add_cancellation(alloc, replies, id, cancelled)?;
            add_admits(alloc, replies, manager.admitted())
        }
        Err(refused) => add_refusal(alloc, replies, Refusal::Manager(refused.why), refused.step),
    }
}

// Adds the reply to a change.
fn add_change(alloc: Global, replies: &mut Vec<u8>, told: Changed) -> Result<(), AllocError>
    ensures text { OnOk result (replies.new.items ≡ replies.old.items ++ change_text (answer_of_changed (Ok told)) told.step) }
{
    if told.pending {
        add_pending(alloc, replies, told.step)
    } else {
        add_changed(alloc, replies, told.step)
    }
}

/// Answers a change of a parameter, which comes with the pool that it asks for.
fn answer_change(
    alloc: Global,
    manager: &mut Manager,
    sessions: &ScriptSessions,
    replies: &mut Vec<u8>,
    change: Change,
) -> Result<(), AllocError>
    requires session { IsTrue (is_open manager.old.state sessions.now.current) }
    requires pool { IsAskedFor manager.old.state sessions.now.current change }
    ensures replies { OnOk result (replies.new.items ≡ replies.old.items ++ (change_step (script_state manager.old sessions.now) (setting_of change)).text) }
    ensures state { script_state manager.new sessions.now ≡ (change_step (script_state manager.old sessions.now) (setting_of change)).state }
    ensures opening { manager.new.opening ≡ manager.old.opening }
{
    match manager.onmode(sessions.current(), change) {
        Ok(changed) => {
            add_change(alloc, replies, changed)?;
            add_admits(alloc, replies, manager.admitted())
        }
        Err(refused) => add_refusal(alloc, replies, Refusal::Manager(refused.why), refused.step),
    }
}

/// Changes a parameter of the manager. The pool that the change asks for is made first.
fn onmode(
    alloc: Global,
    manager: &mut Manager,
    sessions: &ScriptSessions,
    replies: &mut Vec<u8>,
    letter: Letter,
    value: u32,
) -> Result<(), AllocError>
    requires session { IsTrue (is_open manager.old.state sessions.now.current) }
    ensures replies { OnOk result (replies.new.items ≡ replies.old.items ++ (onmode_step (script_state manager.old sessions.now) letter value).text) }
    ensures state { OnOk result (script_state manager.new sessions.now ≡ (onmode_step (script_state manager.old sessions.now) letter value).state) }
    ensures entries { OnErr result (Begins (onmode_step (script_state manager.old sessions.now) letter value).state.history manager.new.history) }
    ensures opening { manager.new.opening ≡ manager.old.opening }
{
    let change = change_for(alloc, manager, sessions.current(), letter, value)?;
    answer_change(alloc, manager, sessions, replies, change)
}

/// Shows the status of the manager.
fn onstat(
    alloc: Global,
    manager: &Manager,
    sessions: &ScriptSessions,
    replies: &mut Vec<u8>,
) -> Result<(), AllocError>
    ensures replies { OnOk result (replies.new.items ≡ replies.old.items ++ (onstat_step (script_state manager.now sessions.now)).text) }
{
    let Ok(mut status) = Status::new(alloc) else {
        return Err(AllocError);
    };
    manager.status(&mut status);
    match onstat_text(&status, replies) {
        Ok(()) => Ok(()),
        Err(Memory) => Err(AllocError),
    }
}

/// Opens a session and makes it the current one.
fn open_session(
    alloc: Global,
    manager: &mut Manager,
    sessions: &mut ScriptSessions,
    replies: &mut Vec<u8>,
    admin: bool,
) -> Result<(), AllocError>
    ensures replies { OnOk result (replies.new.items ≡ replies.old.items ++ (open_step (script_state manager.old sessions.old) admin).text) }
    ensures state { OnOk result (script_state manager.new sessions.new ≡ (open_step (script_state manager.old sessions.old) admin).state) }
    ensures entries { OnErr result (manager.new.history ≡ (open_step (script_state manager.old sessions.old) admin).state.history) }
    ensures kept { KeepsTexts sessions.old sessions.new }
    ensures opening { manager.new.opening ≡ manager.old.opening }
{
    match manager.open_session(admin) {
        Ok(opened) => {
            sessions.open(opened.session)?;
            add_session(alloc, replies, opened.session, admin, opened.step)
        }
        Err(refused) => add_refusal(alloc, replies, Refusal::Manager(refused.why), refused.step),
    }
}

/// Makes a session the current one.
fn use_session(
    alloc: Global,
    manager: &Manager,
    sessions: &mut ScriptSessions,
    replies: &mut Vec<u8>,
    session: u32,
) -> Result<(), AllocError>
    ensures replies { OnOk result (replies.new.items ≡ replies.old.items ++ (use_step (script_state manager.now sessions.old) session).text) }
    ensures state { script_state manager.now sessions.new ≡ (use_step (script_state manager.now sessions.old) session).state }
    ensures kept { KeepsTexts sessions.old sessions.new }
{
    if manager.is_open(session) {
        sessions.choose(session);
        add_chosen(alloc, replies, session)
    } else {
        add_refusal(alloc, replies, Refusal::NoSession, manager.step())
    }
}

// Why a session is not closed.
fn close_refusal(manager: &Manager, current: u32, session: u32) -> Option<Refusal>
    ensures value { result ≡ close_refusal manager.now.state current session }
    ensures may { IfNone result (MayClose manager.now.state session) }
{
    if !manager.is_open(session) {
        Some(Refusal::NoSession)
    } else if session == current || !manager.may_close(session) {
        Some(Refusal::NotNow)
    } else {
        None
    }
}

/// Closes a session other than the current one.
fn close_session(
    alloc: Global,
    manager: &mut Manager,
    sessions: &ScriptSessions,
    replies: &mut Vec<u8>,
    session: u32,
) -> Result<(), AllocError>
    ensures replies { OnOk result (replies.new.items ≡ replies.old.items ++ (close_step (script_state manager.old sessions.now) session).text) }
    ensures state { script_state manager.new sessions.now ≡ (close_step (script_state manager.old sessions.now) session).state }
    ensures opening { manager.new.opening ≡ manager.old.opening }
{
    match close_refusal(manager, sessions.current(), session) {
        Some(refusal) => add_refusal(alloc, replies, refusal, manager.step()),
        None => {
            let step = manager.close_session(session);
            add_closed(alloc, replies, session, step)
        }
    }
}

/// Ends a collected query that was not run: as stopped, where it was cancelled at the step `flagged`.
pub(crate) fn finish(
    alloc: Global,
    manager: &mut Manager,
    sessions: &ScriptSessions,
    replies: &mut Vec<u8>,
    id: u32,
    region: Region,
    flagged: Option<u64>,
) -> Result<(), AllocError>
    requires may { MayFinish manager.old.state id region.frames }
    requires holder { holder_of manager.old.state id ≡ sessions.now.current }
    ensures replies { OnOk result (replies.new.items ≡ replies.old.items ++ (finish_step (script_state manager.old sessions.now) id not_run flagged).text) }
    ensures state { script_state manager.new sessions.now ≡ (finish_step (script_state manager.old sessions.now) id not_run flagged).state }
    ensures opening { manager.new.opening ≡ manager.old.opening }
{
    match flagged {
        None => {
            let step = manager.finish(id, region, How::Done);
            add_done(alloc, replies, id, step)?;
            add_admits(alloc, replies, manager.admitted())
        }
        Some(by) => {
            let step = manager.finish(id, region, How::Stopped);
            add_stopped(alloc, replies, id, step, by)?;
            add_admits(alloc, replies, manager.admitted())
        }
    }
}

/// Why a query cannot be collected by this session.
pub(crate) fn own_refusal(manager: &Manager, current: u32, id: u32) -> Option<Refusal>
    ensures value { result ≡ own_refusal manager.now.state current id }
    ensures may { IfNone result (IsTrue (may_collect manager.now.state (session_of manager.now.state id) id)) }
    ensures own { IfNone result (session_of manager.now.state id ≡ current) }
{
    if !manager.may_collect(id) {
        Some(Refusal::Manager(Why::NoSuchQuery))
    } else if manager.owner(id).unwrap_or(0) != current {
        Some(Refusal::Manager(Why::NotAllowed))
    } else {
        None
    }
}

/// Collects a query of the current session and ends it.
fn collect(
    alloc: Global,
    manager: &mut Manager,
    sessions: &ScriptSessions,
    replies: &mut Vec<u8>,
    id: u32,
) -> Result<(), AllocError>
    requires may { IsTrue (may_collect manager.old.state (session_of manager.old.state id) id) }
    requires own { session_of manager.old.state id ≡ sessions.now.current }
    ensures replies { OnOk result (replies.new.items ≡ replies.old.items ++ (collect_step (script_state manager.old sessions.now) id not_run (decide manager.old.state sessions.now.current (Collect id))).text) }
    ensures state { script_state manager.new sessions.now ≡ (collect_step (script_state manager.old sessions.now) id not_run (decide manager.old.state sessions.now.current (Collect id))).state }
    ensures opening { manager.new.opening ≡ manager.old.opening }
{
    match manager.collect(id) {
        Collected::Granted {
            region,
            quanta: _,
            scans: _,
            priority: _,
            flagged,
            step: _,
        } => finish(alloc, manager, sessions, replies, id, region, flagged),
        Collected::Waiting { gate: _, step } => add_refusal(alloc, replies, Refusal::NotNow, step),
        Collected::Cancelled { by, step } => add_cancelled(alloc, replies, id, step, by),
    }
}

/// Collects and ends a query without running it.
fn done(
    alloc: Global,
    manager: &mut Manager,
    sessions: &ScriptSessions,
    replies: &mut Vec<u8>,
    id: u32,
) -> Result<(), AllocError>
    ensures replies { OnOk result (replies.new.items ≡ replies.old.items ++ (done_step (script_state manager.old sessions.now) id).text) }
    ensures state { script_state manager.new sessions.now ≡ (done_step (script_state manager.old sessions.now) id).state }
    ensures opening { manager.new.opening ≡ manager.old.opening }
{
    match own_refusal(manager, sessions.current(), id) {
        Some(refusal) => add_refusal(alloc, replies, refusal, manager.step()),
        None => collect(alloc, manager, sessions, replies, id),
    }
}

/// Runs a command that asks no table.
#[tactic(auto, unfolding(crate::specs::ScriptTranscript::command_step))]
pub(crate) fn run_command(
    alloc: Global,
    manager: &mut Manager,
    sessions: &mut ScriptSessions,
    replies: &mut Vec<u8>,
    command: Command,
) -> Result<(), AllocError>
    requires asks { AsksNoTable (command_of command) }
    requires session { IsTrue (is_open manager.old.state sessions.old.current) }
    ensures replies { OnOk result (replies.new.items ≡ replies.old.items ++ (command_step (script_state manager.old sessions.old) false (command_of command)).text) }
    ensures state { OnOk result (script_state manager.new sessions.new ≡ (command_step (script_state manager.old sessions.old) false (command_of command)).state) }
    ensures entries { OnErr result (Begins (command_step (script_state manager.old sessions.old) false (command_of command)).state.history manager.new.history) }
    ensures kept { KeepsTexts sessions.old sessions.new }
    ensures opening { manager.new.opening ≡ manager.old.opening }
{
    match command {
        Command::SetPriority(level) => set_priority(alloc, manager, sessions, replies, level),
        Command::Query(_) => unreachable!(),
        Command::Cancel(id) => cancel(alloc, manager, sessions, replies, id),
        Command::Onstat => onstat(alloc, manager, sessions, replies),
        Command::Onmode { letter, value } => {
            onmode(alloc, manager, sessions, replies, letter, value)
        }
        Command::Claim { priority, frags } => {
            claim(alloc, manager, sessions, replies, priority, frags)
        }
        Command::Run(_) => unreachable!(),
        Command::Done(id) => done(alloc, manager, sessions, replies, id),
        Command::OpenSession { admin } => open_session(alloc, manager, sessions, replies, admin),
        Command::Choose(session) => use_session(alloc, manager, sessions, replies, session),
        Command::CloseSession(session) => {
            close_session(alloc, manager, sessions, replies, session)
        }
        Command::Hello => Ok(()),
        Command::Admin => Ok(()),
        Command::Quit => Ok(()),
        Command::Shutdown => Ok(()),
    }
}
