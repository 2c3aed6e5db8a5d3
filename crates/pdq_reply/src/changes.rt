//! The changes that ONMODE asks for, with the pools that they need.
ghost use Rattle.std.specs.Prelude.{◌≡◌, ◌≤◌, ◌*◌, IfOk, IfSome, is_some};
ghost use Rattle.pdq_model.specs.Configuration.{configuration, is_valid};
ghost use Rattle.pdq_gate.specs.Changes.{setting_of};
ghost use Rattle.pdq_reply.specs.Changes.{letter_setting};
ghost use Rattle.pdq_reply.specs.Changes.{checked_target, pending_numbers, pool_for, pool_made, with_letter, IsAskedFor, IsOfSize};

use pdq_frame::Pool;
use pdq_gate::{Change, Config, Manager, Status};
use pdq_sql::Letter;
use std::alloc::{AllocError, Global};

// The configuration of these numbers, where it is valid.
fn checked(m: u32, t: u32, q: u32, s: u32, n: u32) -> Option<Config>
    ensures test { is_some result ≡ is_valid (configuration m t q s n) }
    ensures value { IfSome result (λ c. c ≡ configuration m t q s n) }
{
    Config::check(m, t, q, s, n)
}

// The configuration of these numbers with the one that the letter sets, where it is valid.
fn checked_with(
    letter: Letter,
    value: u32,
    m: u32,
    t: u32,
    q: u32,
    s: u32,
    n: u32,
) -> Option<Config>
    ensures test { is_some result ≡ is_valid (with_letter letter value (configuration m t q s n)) }
    ensures value { IfSome result (λ c. c ≡ with_letter letter value (configuration m t q s n)) }
{
    match letter {
        Letter::D => checked(value, t, q, s, n),
        Letter::M => checked(m, value, q, s, n),
        Letter::Q => checked(m, t, value, s, n),
        Letter::S => checked(m, t, q, value, n),
        Letter::N => checked(m, t, q, s, value),
    }
}

// The three numbers that can be pending: those of the pending change, or the present ones where none is pending.
fn pending_or_present(status: &Status) -> (u32, u32, u32)
    ensures value { result ≡ pending_numbers status.now }
{
    let now = status.now();
    let present = (now.total_kb(), now.max_queries(), now.max_scans());
    status.pending().unwrap_or(present)
}

// The configuration that a change asks for; None where it is not valid.
fn target(manager: &Manager, status: &mut Status, letter: Letter, value: u32) -> Option<Config>
    ensures value { result ≡ checked_target manager.now.state (letter_setting letter value) }
{
    manager.status(status);
    let now = status.now();
    let pending = pending_or_present(status);
    checked_with(
        letter,
        value,
        now.max_priority(),
        pending.0,
        pending.1,
        pending.2,
        now.nonpdq_kb(),
    )
}

// A pool with all its quanta.
fn whole_pool(alloc: Global, frames_per_quantum: u32, quanta: u32) -> Result<Pool, AllocError>
    requires some { 1 ≤ frames_per_quantum }
    requires most { frames_per_quantum * quanta ≤ 262144 }
    ensures size { IfOk result (λ pool. IsOfSize pool (record { quanta = quanta; frames = frames_per_quantum })) }
{
    match Pool::new(alloc, frames_per_quantum, quanta) {
        Ok(pool) => Ok(pool),
        Err(_) => Err(AllocError),
    }
}

// The pool that a configuration asks for; one without quanta where there is none.
fn pool_for(alloc: Global, target: Option<Config>) -> Result<Pool, AllocError>
    ensures size { IfOk result (λ pool. IsOfSize pool (pool_for target)) }
{
    match target {
        Some(config) => whole_pool(alloc, config.frames_per_quantum(), config.max_queries()),
        None => whole_pool(alloc, 1, 0),
    }
}

// The pool that comes with a change by this session.
fn pool_made(
    alloc: Global,
    manager: &Manager,
    session: u32,
    letter: Letter,
    value: u32,
) -> Result<Pool, AllocError>
    ensures size { IfOk result (λ pool. IsOfSize pool (pool_made manager.now.state session (letter_setting letter value))) }
{
    if !manager.is_admin(session) {
        return pool_for(alloc, None);
    }
    let Ok(mut status) = Status::new(alloc) else {
        return Err(AllocError);
    };
    let target = target(manager, &mut status, letter, value);
    pool_for(alloc, target)
}

/// The change that ONMODE asks for in this session. Where the session may not change anything, or the configuration so changed
/// is not valid, the pool that comes with it has no quanta.
///
/// # Errors
/// `AllocError` where memory is wanting.
pub fn change_for(
    alloc: Global,
    manager: &Manager,
    session: u32,
    letter: Letter,
    value: u32,
) -> Result<Change, AllocError>
    ensures setting { IfOk result (λ change. setting_of change ≡ letter_setting letter value) }
    ensures answer { IfOk result (λ change. IsAskedFor manager.now.state session change) }
{
    match letter {
        Letter::D => Ok(Change::MaxPriority(value)),
        Letter::S => Ok(Change::MaxScans(value)),
        Letter::N => Ok(Change::NonPdq(value)),
        Letter::M => {
            let pool = pool_made(alloc, manager, session, letter, value)?;
            Ok(Change::TotalMemory(value, pool))
        }
        Letter::Q => {
            let pool = pool_made(alloc, manager, session, letter, value)?;
            Ok(Change::MaxQueries(value, pool))
        }
    }
}
