//! The blocks of the status text.
ghost use Rattle.std.specs.Prelude.{◌≡◌, ◌++◌, ◌*◌, ◌-◌, OnOk, OnErr, flat_map, sum_by};
ghost use mathlib.Core.List.{IsPrefix};
ghost use Rattle.pdq_model.specs.Configuration.{quantum_kb, unused_kb};
ghost use Rattle.pdq_stat.specs.StatusText.{active_row, active_text, change_text, free_quanta, free_scans, gates_text, head_text, memory_text, pending_text, queries_text, queued_at, ready_row, ready_text, scans_text, settings_text, status_text};

use crate::cells::{add_memory_line, add_named, add_number_line, add_row};
use pdq_base::Memory;
use pdq_gate::{ActiveRow, Config, Status, WaitingRow};
use std::alloc::AllocError;

/// The places of a label, empty.
const NO_LABEL: &str = "            ";

fn quantum_kb(config: &Config) -> u32
    ensures value { result ≡ quantum_kb config.now }
{
    let total = config.total_kb();
    let frames = config.frames_per_quantum();
    prove!(frames <= total / 4);
    4 * frames
}

/// The memory that no quantum has, in KB.
#[tactic(auto, using(crate::proofs::Shown::quanta_within))]
fn unused_kb(config: &Config) -> u32
    ensures value { result ≡ unused_kb config.now }
{
    config.total_kb() - config.max_queries() * quantum_kb(config)
}

#[tactic(auto, unfolding(crate::specs::StatusText::head_text))]
fn add_head(to: &mut Vec<u8>, step: u64) -> Result<(), AllocError>
    ensures text { OnOk result (to.new.items ≡ to.old.items ++ head_text step) }
    ensures kept { OnErr result (IsPrefix to.old.items to.new.items) }
{
    add_number_line(to, "STEP ", step)?;
    to.extend_from_slice(b"Memory Grant Manager (MGM)\n")
}

#[tactic(auto, unfolding(crate::specs::StatusText::settings_text))]
fn add_settings(to: &mut Vec<u8>, config: &Config) -> Result<(), AllocError>
    ensures text { OnOk result (to.new.items ≡ to.old.items ++ settings_text config.now) }
    ensures kept { OnErr result (IsPrefix to.old.items to.new.items) }
{
    add_number_line(to, "MAX_PDQPRIORITY: ", u64::from(config.max_priority()))?;
    add_number_line(to, "DS_MAX_QUERIES: ", u64::from(config.max_queries()))?;
    add_number_line(to, "DS_MAX_SCANS: ", u64::from(config.max_scans()))?;
    add_memory_line(to, "DS_TOTAL_MEMORY: ", u64::from(config.total_kb()))?;
    add_memory_line(to, "DS_NONPDQ_QUERY_MEM: ", u64::from(config.nonpdq_kb()))?;
    add_memory_line(to, "Unused: ", u64::from(unused_kb(config)))?;
    Ok(())
}

#[tactic(auto, unfolding(crate::specs::StatusText::change_text))]
fn add_change(
    to: &mut Vec<u8>,
    total_kb: u32,
    max_queries: u32,
    max_scans: u32,
) -> Result<(), AllocError>
    ensures text { OnOk result (to.new.items ≡
        to.old.items ++ change_text total_kb max_queries max_scans) }
    ensures kept { OnErr result (IsPrefix to.old.items to.new.items) }
{
    add_named(to, "Pending: DS_TOTAL_MEMORY ", u64::from(total_kb))?;
    add_named(to, " DS_MAX_QUERIES ", u64::from(max_queries))?;
    add_named(to, " DS_MAX_SCANS ", u64::from(max_scans))?;
    to.extend_from_slice(b"\n")?;
    Ok(())
}

#[tactic(auto, using(crate::proofs::Shown::pending_text_some))]
fn add_pending(to: &mut Vec<u8>, status: &Status) -> Result<(), AllocError>
    ensures text { OnOk result (to.new.items ≡ to.old.items ++ pending_text status.now.pending) }
    ensures kept { OnErr result (IsPrefix to.old.items to.new.items) }
{
    match status.pending() {
        Some((memory, queries, scans)) => add_change(to, memory, queries, scans),
        None => to.extend_from_slice(b"Pending: none\n"),
    }
}

/// The quanta that are not reserved for active queries.
#[tactic(auto, unfolding(crate::specs::StatusText::free_quanta))]
fn free_quanta(status: &Status) -> u32
    ensures value { result ≡ free_quanta status.now }
{
    let mut free = status.now().max_queries();
    for query in status.active() {
        free = free.saturating_sub(query.quanta);
    }
    free
}

/// The scan threads that active queries do not use.
#[tactic(auto, unfolding(crate::specs::StatusText::free_scans))]
fn free_scans(status: &Status) -> u32
    ensures value { result ≡ free_scans status.now }
{
    let mut free = status.now().max_scans();
    for query in status.active() {
        free = free.saturating_sub(query.scans);
    }
    free
}

#[tactic(auto, unfolding(crate::specs::StatusText::queries_text))]
fn add_queries(to: &mut Vec<u8>, status: &Status) -> Result<(), AllocError>
    ensures text { OnOk result (to.new.items ≡ to.old.items ++ queries_text status.now) }
    ensures kept { OnErr result (IsPrefix to.old.items to.new.items) }
{
    let active = status.active().len() as u64;
    let ready = status.waiting().len() as u64;
    let maximum = u64::from(status.now().max_queries());
    to.extend_from_slice(b"Queries:          Active       Ready     Maximum\n")?;
    add_row(to, NO_LABEL, &[active, ready, maximum])?;
    Ok(())
}

#[tactic(auto, unfolding(crate::specs::StatusText::memory_text))]
fn add_memory(to: &mut Vec<u8>, status: &Status) -> Result<(), AllocError>
    ensures text { OnOk result (to.new.items ≡ to.old.items ++ memory_text status.now) }
    ensures kept { OnErr result (IsPrefix to.old.items to.new.items) }
{
    let config = status.now();
    let quantum = u64::from(quantum_kb(config));
    let total = u64::from(config.max_queries()) * quantum;
    let free = u64::from(free_quanta(status)) * quantum;
    to.extend_from_slice(b"Memory:            Total        Free     Quantum\n")?;
    add_row(to, NO_LABEL, &[total, free, quantum])?;
    Ok(())
}

#[tactic(auto, unfolding(crate::specs::StatusText::scans_text))]
fn add_scans(to: &mut Vec<u8>, status: &Status) -> Result<(), AllocError>
    ensures text { OnOk result (to.new.items ≡ to.old.items ++ scans_text status.now) }
    ensures kept { OnErr result (IsPrefix to.old.items to.new.items) }
{
    let total = u64::from(status.now().max_scans());
    let free = u64::from(free_scans(status));
    to.extend_from_slice(b"Scans:             Total        Free     Quantum\n")?;
    add_row(to, NO_LABEL, &[total, free, 1])?;
    Ok(())
}

/// How many queries wait at this gate.
fn queued_at(waiting: &[WaitingRow], gate: u32) -> u64
    ensures value { result ≡ queued_at waiting.now gate }
{
    waiting.iter().filter(|row| row.gate == gate).count() as u64
}

#[tactic(auto, unfolding(crate::specs::StatusText::gates_text))]
fn add_gates(to: &mut Vec<u8>, waiting: &[WaitingRow]) -> Result<(), AllocError>
    ensures text { OnOk result (to.new.items ≡ to.old.items ++ gates_text waiting.now) }
    ensures kept { OnErr result (IsPrefix to.old.items to.new.items) }
{
    let memory = queued_at(waiting, 1);
    let scans = queued_at(waiting, 2);
    let priority = queued_at(waiting, 3);
    let queries = queued_at(waiting, 4);
    let reinit = queued_at(waiting, 5);
    to.extend_from_slice(
        b"Load:           1 Memory     2 Scans  3 Priority   4 Queries    5 Reinit\n",
    )?;
    add_row(
        to,
        "Queued:     ",
        &[memory, scans, priority, queries, reinit],
    )?;
    Ok(())
}

#[tactic(auto, unfolding(crate::specs::StatusText::active_row))]
fn add_active_row(to: &mut Vec<u8>, row: &ActiveRow, quantum: u32) -> Result<(), AllocError>
    ensures text { OnOk result (to.new.items ≡ to.old.items ++ active_row quantum row.now) }
    ensures kept { OnErr result (IsPrefix to.old.items to.new.items) }
{
    let (session, id) = (u64::from(row.session), u64::from(row.id));
    let priority = u64::from(row.priority);
    let memory = u64::from(row.quanta) * u64::from(quantum);
    let scans = u64::from(row.scans);
    add_row(to, "", &[session, id, priority, memory, scans])
}

fn add_active_rows(to: &mut Vec<u8>, rows: &[ActiveRow], quantum: u32) -> Result<(), AllocError>
    ensures text { OnOk result (to.new.items ≡
        to.old.items ++ flat_map (active_row quantum) rows.now) }
    ensures kept { OnErr result (IsPrefix to.old.items to.new.items) }
{
    for row in rows {
        add_active_row(to, row, quantum)?;
    }
    Ok(())
}

#[tactic(auto, unfolding(crate::specs::StatusText::active_text))]
fn add_active(to: &mut Vec<u8>, config: &Config, rows: &[ActiveRow]) -> Result<(), AllocError>
    ensures text { OnOk result (to.new.items ≡ to.old.items ++ active_text config.now rows.now) }
    ensures kept { OnErr result (IsPrefix to.old.items to.new.items) }
{
    add_number_line(to, "Active queries: ", rows.len() as u64)?;
    if rows.is_empty() {
        return Ok(());
    }
    to.extend_from_slice(b"     Session       Query    Priority      Memory       Scans\n")?;
    add_active_rows(to, rows, quantum_kb(config))?;
    Ok(())
}

#[tactic(auto, unfolding(crate::specs::StatusText::ready_row))]
fn add_ready_row(to: &mut Vec<u8>, row: &WaitingRow) -> Result<(), AllocError>
    ensures text { OnOk result (to.new.items ≡ to.old.items ++ ready_row row.now) }
    ensures kept { OnErr result (IsPrefix to.old.items to.new.items) }
{
    let values = [row.session, row.id, row.priority, row.overtaken, row.gate];
    add_row(to, "", &values.map(u64::from))
}

fn add_ready_rows(to: &mut Vec<u8>, rows: &[WaitingRow]) -> Result<(), AllocError>
    ensures text { OnOk result (to.new.items ≡ to.old.items ++ flat_map ready_row rows.now) }
    ensures kept { OnErr result (IsPrefix to.old.items to.new.items) }
{
    for row in rows {
        add_ready_row(to, row)?;
    }
    Ok(())
}

#[tactic(auto, unfolding(crate::specs::StatusText::ready_text))]
fn add_ready(to: &mut Vec<u8>, rows: &[WaitingRow]) -> Result<(), AllocError>
    ensures text { OnOk result (to.new.items ≡ to.old.items ++ ready_text rows.now) }
    ensures kept { OnErr result (IsPrefix to.old.items to.new.items) }
{
    add_number_line(to, "Ready queries: ", rows.len() as u64)?;
    if rows.is_empty() {
        return Ok(());
    }
    to.extend_from_slice(b"     Session       Query    Priority   Overtaken        Gate\n")?;
    add_ready_rows(to, rows)?;
    Ok(())
}

/// Adds the step, the title, the configuration and the change that waits.
fn add_configuration(to: &mut Vec<u8>, status: &Status) -> Result<(), AllocError>
    ensures text { OnOk result (to.new.items ≡ to.old.items
        ++ (head_text status.now.step ++ settings_text status.now.config
        ++ pending_text status.now.pending)) }
    ensures kept { OnErr result (IsPrefix to.old.items to.new.items) }
{
    add_head(to, status.step())?;
    add_settings(to, status.now())?;
    add_pending(to, status)
}

/// Adds what is in use and what is free, and how many queries wait at each gate.
fn add_usage(to: &mut Vec<u8>, status: &Status) -> Result<(), AllocError>
    ensures text { OnOk result (to.new.items ≡ to.old.items
        ++ (queries_text status.now ++ memory_text status.now ++ scans_text status.now
        ++ gates_text status.now.waiting)) }
    ensures kept { OnErr result (IsPrefix to.old.items to.new.items) }
{
    add_queries(to, status)?;
    add_memory(to, status)?;
    add_scans(to, status)?;
    add_gates(to, status.waiting())
}

#[tactic(auto, unfolding(crate::specs::StatusText::status_text))]
fn add_status(to: &mut Vec<u8>, status: &Status) -> Result<(), AllocError>
    ensures text { OnOk result (to.new.items ≡ to.old.items ++ status_text status.now) }
    ensures kept { OnErr result (IsPrefix to.old.items to.new.items) }
{
    add_configuration(to, status)?;
    add_usage(to, status)?;
    add_active(to, status.now(), status.active())?;
    add_ready(to, status.waiting())?;
    Ok(())
}

/// Adds the text of `ONSTAT -g mgm` of this status behind what stands there.
///
/// # Errors
/// `Memory` where it is wanting; what stood there is then as it was.
pub fn onstat_text(status: &Status, to: &mut Vec<u8>) -> Result<(), Memory>
    ensures text { OnOk result (to.new.items ≡ to.old.items ++ status_text status.now) }
    ensures unchanged { OnErr result (to.new.items ≡ to.old.items) }
{
    let length = to.len();
    match add_status(to, status) {
        Ok(()) => Ok(()),
        Err(_) => {
            to.truncate(length);
            Err(Memory)
        }
    }
}
