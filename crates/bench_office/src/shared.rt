//! Queries of threads that share a manager.
ghost use Rattle.std.specs.Prelude.{◌≡◌, All, IfOk, IfSome, MatchOption, None, [], ◌∷◌, true};
ghost use Rattle.pdq_gate.specs.Invariant.{IsWholePool};
ghost use Rattle.pdq_office.specs.Passes.{lock_at, lock_in, known, IsHeld, IsOpen, IsTicket, Unfinished};

use pdq_frame::{Pool, Region};
use pdq_office::{Config, Got, Grant, Held, How, Manager, Office, Pass, Ticket};
use std::alloc::{AllocError, Global};
use std::io;
use std::sync::Wait;
use std::thread::{Threads, map_vec};
use std::time::{Clock, Duration, Instant};

/// How many threads make how many queries each.
#[derive(Drop)]
pub struct Load {
    pub threads: u8,
    pub queries: u32,
}

/// Turns a second.
pub fn rate(turns: u64, spent: Duration) -> u128 {
    u128::from(turns) * 1_000_000 / spent.as_micros().max(1)
}

/// How many turns of a manager made an entry.
pub fn turns_of(manager: Manager) -> u64 {
    let turns = manager.step();
    drop(manager.end());
    turns
}

/// The configuration of a manager of 4,000 KB in ten quanta, and its pool. None where there is no memory for it.
pub fn new_pool(alloc: Global) -> Option<(Config, Pool)>
    ensures whole { IfSome result (λ made. IsWholePool made.0 made.1) }
{
    let config = Config::check(100, 4000, 10, 100, 128)?;
    match Pool::new(alloc, 100, 10) {
        Ok(pool) => Some((config, pool)),
        Err(_) => None,
    }
}

/// Collects the one query of a pass until it is active: what is held, and its region. None where it was cancelled.
fn collected<R: Wait>(
    rt: &R,
    office: &Office,
    pass: &mut Pass,
    ticket: Ticket,
) -> Option<(Held, Region)>
    requires lock { lock_at pass.old ≡ lock_in office.now }
    requires in_session { IsOpen pass.old }
    requires ticket { IsTicket pass.old ticket }
    requires only { Unfinished pass.old (ticket.id ∷ []) }
    ensures lock { (lock_at pass.new ≡ lock_in office.now) × (pass.new.session ≡ pass.old.session) }
    ensures got { MatchOption result (Unfinished pass.new []) (λ got. IsHeld pass.new got.0 × (got.1.frames ≡ got.0.frames) × Unfinished pass.new (got.0.id ∷ [])) }
{
    let mut waiting = ticket;
    for _ in rt.forever() {
        match office.collect(rt, pass, waiting) {
            Got::Granted(held, grant) => {
                let Grant {
                    region,
                    quanta: _,
                    scans: _,
                    priority: _,
                    flagged: _,
                    step: _,
                } = grant;
                return Some((held, region));
            }
            Got::Waiting(ticket, _gate, _step) => waiting = ticket,
            Got::Cancelled { by: _, step: _ } => return None,
        }
    }
    unreachable!()
}

/// One query of a pass that has no other: it is submitted, collected and finished.
fn one_query<R: Wait>(rt: &R, office: &Office, pass: &mut Pass)
    requires lock { lock_at pass.old ≡ lock_in office.now }
    requires in_session { IsOpen pass.old }
    requires finished { Unfinished pass.old [] }
    ensures lock { (lock_at pass.new ≡ lock_in office.now) × (pass.new.session ≡ pass.old.session) }
    ensures finished { Unfinished pass.new [] }
{
    let Ok(sent) = office.submit(rt, pass, 1, 1) else {
        return;
    };
    let (ticket, _placed) = sent.parts();
    if let Some((held, region)) = collected(rt, office, pass, ticket) {
        let _ = office.finish(rt, pass, held, region, How::Done);
    }
}

/// Makes so many queries in a new session of the pass, and closes it.
fn make_queries<R: Wait>(rt: &R, office: &Office, mut pass: Pass, queries: u32) -> Pass
    requires lock { lock_at pass ≡ lock_in office.now }
    requires none { pass.session ≡ None }
    ensures lock { (lock_at result ≡ lock_in office.now) × (result.session ≡ None) }
{
    let Ok(_opened) = office.open_session(rt, &mut pass, false) else {
        return pass;
    };
    for _ in 0..queries {
        one_query(rt, office, &mut pass);
    }
    let _ = office.close_session(rt, &mut pass);
    pass
}

/// Splits passes off the first one.
fn split_off(
    alloc: Global,
    office: &Office,
    first: &mut Pass,
    number: u8,
) -> Result<Vec<Pass>, AllocError>
    requires first { (lock_at first.old ≡ lock_in office.now) × ((known first.old).is_first ≡ true) }
    ensures first { lock_at first.new ≡ lock_in office.now }
    ensures split { IfOk result (λ passes. All (λ p. (lock_at p ≡ lock_in office.now) × (p.session ≡ None)) passes.items) }
{
    let mut passes = Vec::new(alloc);
    for _ in 0..number {
        passes.push(office.split(first))?;
    }
    Ok(passes)
}

/// Brings the passes back to the first one.
fn meet_all(office: &Office, first: &mut Pass, passes: Vec<Pass>)
    requires first { lock_at first.old ≡ lock_in office.now }
    requires back { All (λ p. (lock_at p ≡ lock_in office.now) × (p.session ≡ None)) passes.items }
    ensures first { lock_at first.new ≡ lock_in office.now }
{
    for pass in passes {
        office.meet(first, pass);
    }
}

/// The time in which each thread makes its queries.
fn timed<R: Threads + Wait + Clock + Sync>(
    rt: &R,
    alloc: Global,
    office: &Office,
    first: &mut Pass,
    load: &Load,
) -> io::Result<Duration>
    requires first { (lock_at first.old ≡ lock_in office.now) × ((known first.old).is_first ≡ true) }
    ensures first { lock_at first.new ≡ lock_in office.now }
{
    let passes = split_off(alloc, office, first, load.threads)?;
    let queries = load.queries;
    let start = Instant::now(rt)?;
    let passes = map_vec(rt, passes, &|pass| make_queries(rt, office, pass, queries))?;
    let spent = start.elapsed(rt)?;
    meet_all(office, first, passes);
    Ok(spent)
}

/// Turns a second of all threads. 0 where there is no memory for the office.
pub fn turns_a_second<R: Threads + Wait + Clock + Sync>(
    rt: &R,
    alloc: Global,
    load: &Load,
) -> io::Result<u128> {
    let Some((config, pool)) = new_pool(alloc) else {
        return Ok(0);
    };
    let Ok((office, mut first)) = Office::new(alloc, config, pool) else {
        return Ok(0);
    };
    let spent = timed(rt, alloc, &office, &mut first, load);
    let turns = match office.close(first) {
        Ok(manager) => turns_of(manager),
        Err(Some(manager)) => turns_of(manager),
        Err(None) => 0,
    };
    Ok(rate(turns, spent?))
}
