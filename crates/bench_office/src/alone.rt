//! Queries on a manager that one thread has to itself.
use crate::shared::{Load, new_pool, rate, turns_of};
use pdq_gate::{Collected, How, Manager, Submitted};
use std::alloc::Global;
use std::io;
use std::time::{Clock, Duration, Instant};

/// Submits a query of the session, collects and finishes it. False where one of these is refused.
fn one_query(manager: &mut Manager, session: u32) -> bool {
    if !manager.is_open(session) {
        return false;
    }
    let Ok(
        Submitted::Placed {
            id,
            step: _,
            priority: _,
            gate: _,
        },
    ) = manager.submit(session, 1, 1)
    else {
        return false;
    };
    if !manager.may_collect(id) {
        return false;
    }
    match manager.collect(id) {
        Collected::Granted {
            region,
            quanta: _,
            scans: _,
            priority: _,
            flagged: _,
            step: _,
        } => {
            let _ = manager.finish(id, region, How::Done);
            true
        }
        Collected::Waiting { gate: _, step: _ } => false,
        Collected::Cancelled { by: _, step: _ } => false,
    }
}

/// Makes so many queries in a session, or as many as are not refused.
fn make_queries(manager: &mut Manager, queries: u32) {
    let Ok(opened) = manager.open_session(false) else {
        return;
    };
    for _ in 0..queries {
        if !one_query(manager, opened.session) {
            return;
        }
    }
}

/// The time of the queries of all threads.
fn timed<R: Clock>(rt: &R, manager: &mut Manager, load: &Load) -> io::Result<Duration> {
    let start = Instant::now(rt)?;
    make_queries(
        manager,
        load.queries.saturating_mul(u32::from(load.threads)),
    );
    start.elapsed(rt)
}

/// Turns a second. 0 where there is no memory for the manager.
pub fn turns_a_second<R: Clock>(rt: &R, alloc: Global, load: &Load) -> io::Result<u128> {
    let Some((config, pool)) = new_pool(alloc) else {
        return Ok(0);
    };
    let Ok(mut manager) = Manager::new(alloc, config, pool) else {
        return Ok(0);
    };
    let spent = timed(rt, &mut manager, load);
    Ok(rate(turns_of(manager), spent?))
}
