//! Passes of one office: their calls in one thread, and eight threads that share it.
ghost use Rattle.std.specs.Prelude.{◌≡◌, ◌≤◌, ◌≢◌, All, IfOk, None, Some, [], true};
ghost use Rattle.pdq_office.specs.Passes.{lock_at, lock_in, known, Adds, AddsNone, Ends, IsHeld, IsOpen, IsTicket, Keeps, KeepsBut, Unfinished};

use crate::{
    Cancelled, Change, Changed, Config, Got, Grant, Held, How, Office, Opened, Pass, Placed,
    Refused, Status, Ticket,
};
use pdq_frame::{Pool, Region};
use pdq_gate::{Entry, Event, Reply, Why};
use std::alloc::{AllocError, Global};
use std::process::Abort;
use std::sync::Wait;
use std::thread::{Threads, map_vec};

// An office of 4,000 KB, ten queries and 100 scan threads.
fn made(rt: &impl Abort, alloc: Global) -> (Office, Pass)
    ensures lock { lock_at result.1 ≡ lock_in result.0 }
    ensures first { ((known result.1).is_first ≡ true) × (result.1.session ≡ None) }
{
    let config = Config::check(100, 4000, 10, 100, 128).expect(rt, "a valid configuration");
    let Ok(pool) = Pool::new(alloc, 100, 10) else {
        panic!(rt; "ample memory");
    };
    match Office::new(alloc, config, pool) {
        Ok(made) => made,
        Err(_) => panic!(rt; "ample memory"),
    }
}

// The pass opens a session.
fn begins<R: Abort + Wait>(rt: &R, office: &Office, pass: &mut Pass, admin: bool) -> Opened
    requires lock { lock_at pass.old ≡ lock_in office.now }
    requires none { pass.old.session ≡ None }
    ensures lock { lock_at pass.new ≡ lock_in office.now }
    ensures session { pass.new.session ≡ Some result.session }
    ensures finished { Unfinished pass.new [] }
{
    match office.open_session(rt, pass, admin) {
        Ok(opened) => opened,
        Err(_) => panic!(rt; "a session"),
    }
}

// Submits a query of one fragment, which is placed so.
fn claims<R: Abort + Wait>(
    rt: &R,
    office: &Office,
    pass: &mut Pass,
    priority: u32,
    told: Placed,
) -> Ticket
    requires lock { lock_at pass.old ≡ lock_in office.now }
    requires in_session { IsOpen pass.old }
    requires percent { priority ≤ 100 }
    ensures lock { (lock_at pass.new ≡ lock_in office.now) × (pass.new.session ≡ pass.old.session) }
    ensures ticket { (result.id ≡ told.id) × IsTicket pass.new result }
    ensures keeps { Keeps pass.old pass.new }
{
    match office.submit(rt, pass, priority, 1) {
        Ok(sent) => {
            let (ticket, placed) = sent.parts();
            assert_eq!(rt; placed, told);
            assert!(rt; ticket.id == told.id);
            ticket
        }
        Err(_) => panic!(rt; "a query"),
    }
}

// Collects a query that still waits, at this gate.
fn waits<R: Abort + Wait>(
    rt: &R,
    office: &Office,
    pass: &mut Pass,
    ticket: Ticket,
    told: (u32, u64),
) -> Ticket
    requires lock { lock_at pass.old ≡ lock_in office.now }
    requires in_session { IsOpen pass.old }
    requires ticket { IsTicket pass.old ticket }
    ensures lock { (lock_at pass.new ≡ lock_in office.now) × (pass.new.session ≡ pass.old.session) }
    ensures ticket { (result.id ≡ ticket.id) × IsTicket pass.new result }
    ensures keeps { KeepsBut ticket.id pass.old pass.new }
{
    match office.collect(rt, pass, ticket) {
        Got::Waiting(ticket, gate, step) => {
            assert_eq!(rt; (gate, step), told);
            ticket
        }
        _other => panic!(rt; "it waits"),
    }
}

// Collects an active query: what it is granted, beside its region.
fn granted<R: Abort + Wait>(
    rt: &R,
    office: &Office,
    pass: &mut Pass,
    ticket: Ticket,
    told: (u32, u32, u32, Option<u64>, u64),
) -> (Held, Region)
    requires lock { lock_at pass.old ≡ lock_in office.now }
    requires in_session { IsOpen pass.old }
    requires ticket { IsTicket pass.old ticket }
    ensures lock { (lock_at pass.new ≡ lock_in office.now) × (pass.new.session ≡ pass.old.session) }
    ensures held { (result.0.id ≡ ticket.id) × (result.1.frames ≡ result.0.frames) × IsHeld pass.new result.0 }
    ensures keeps { KeepsBut ticket.id pass.old pass.new }
    ensures none { AddsNone pass.old pass.new }
{
    match office.collect(rt, pass, ticket) {
        Got::Granted(held, grant) => {
            let Grant {
                region,
                quanta,
                scans,
                priority,
                flagged,
                step,
            } = grant;
            assert_eq!(rt; (quanta, scans, priority, flagged, step), told);
            (held, region)
        }
        _other => panic!(rt; "it is active"),
    }
}

// Collects a query that was withdrawn at the first step.
fn withdrawn<R: Abort + Wait>(
    rt: &R,
    office: &Office,
    pass: &mut Pass,
    ticket: Ticket,
    told: (u64, u64),
)
    requires lock { lock_at pass.old ≡ lock_in office.now }
    requires in_session { IsOpen pass.old }
    requires ticket { IsTicket pass.old ticket }
    ensures lock { lock_at pass.new ≡ lock_in office.now }
    ensures first { (known pass.new).is_first ≡ (known pass.old).is_first }
{
    match office.collect(rt, pass, ticket) {
        Got::Cancelled { by, step } => assert_eq!(rt; (by, step), told),
        _other => panic!(rt; "it was withdrawn"),
    }
}

// A session without a query of its own cancels, and is answered so.
fn cancels<R: Abort + Wait>(
    rt: &R,
    office: &Office,
    pass: &mut Pass,
    id: u32,
    told: Result<Cancelled, Refused>,
)
    requires lock { lock_at pass.old ≡ lock_in office.now }
    requires in_session { IsOpen pass.old }
    requires finished { Unfinished pass.old [] }
    ensures lock { (lock_at pass.new ≡ lock_in office.now) × (pass.new.session ≡ pass.old.session) }
    ensures finished { Unfinished pass.new [] }
{
    assert_eq!(rt; office.cancel(rt, pass, id), told);
}

fn placed(id: u32, step: u64, priority: u32, gate: u32) -> Placed
    ensures id { result.id ≡ id }
{
    Placed {
        id,
        step,
        priority,
        gate,
    }
}

fn refused(why: Why, step: u64) -> Result<Cancelled, Refused> {
    Err(Refused { why, step })
}

fn cancelled(active: bool, step: u64) -> Result<Cancelled, Refused> {
    Ok(Cancelled { active, step })
}

// A query of 1,000 frames that was cancelled while it was active is collected, flagged, and finished.
fn stops<R: Abort + Wait>(rt: &R, office: &Office, pass: &mut Pass, ticket: Ticket)
    requires lock { lock_at pass.old ≡ lock_in office.now }
    requires in_session { IsOpen pass.old }
    requires ticket { IsTicket pass.old ticket }
    ensures lock { (lock_at pass.new ≡ lock_in office.now) × (pass.new.session ≡ pass.old.session) }
    ensures keeps { KeepsBut ticket.id pass.old pass.new }
{
    let (held, region) = granted(rt, office, pass, ticket, (10, 1, 100, Some(6), 7));
    assert_eq!(rt; region.frames(), 1000);
    assert_eq!(rt; office.flagged(rt, pass, &held), Some(6));
    assert_eq!(rt; office.finish(rt, pass, held, region, How::Stopped), 8);
}

// One pass claims, collects and finishes, the other, an administrator's, cancels.
#[test]
fn one_claims_and_another_cancels(rt: HostRuntime) {
    let (office, mut first) = made(&rt, rt.alloc());
    let mut second = office.split(&mut first);
    let one = begins(&rt, &office, &mut first, false);
    assert_eq!(rt; (one.session, one.step), (1, 1));
    let two = begins(&rt, &office, &mut second, true);
    assert_eq!(rt; (two.session, two.step), (2, 2));
    let large = claims(&rt, &office, &mut first, 100, placed(1, 3, 100, 0));
    let small = claims(&rt, &office, &mut first, 50, placed(2, 4, 50, 1));
    let small = waits(&rt, &office, &mut first, small, (1, 4));
    let already = Why::AlreadyCancelled;
    cancels(&rt, &office, &mut second, 2, cancelled(false, 5));
    cancels(&rt, &office, &mut second, 2, refused(already, 5));
    cancels(&rt, &office, &mut second, 1, cancelled(true, 6));
    cancels(&rt, &office, &mut second, 1, refused(already, 6));
    stops(&rt, &office, &mut first, large);
    cancels(&rt, &office, &mut second, 1, refused(Why::NoSuchQuery, 8));
    withdrawn(&rt, &office, &mut first, small, (5, 9));
    assert_eq!(rt; office.close_session(&rt, &mut second), 10);
    office.meet(&mut first, second);
    assert_eq!(rt; office.step(&rt, &mut first), 10);
    let manager = match office.close(first) {
        Ok(manager) => manager,
        Err(_manager) => panic!(rt; "the office closes"),
    };
    assert_eq!(rt; manager.entries().len(), 10);
    assert_eq!(rt; manager.end().quanta(), 10);
}

// A change by an administrator's pass, and what its looks show.
#[test]
fn a_pass_looks_and_changes(rt: HostRuntime) {
    let (office, mut pass) = made(&rt, rt.alloc());
    let Ok(mut status) = Status::new(rt.alloc()) else {
        panic!(rt; "ample memory");
    };
    office.look(&rt, &mut pass, &mut status);
    assert_eq!(rt; (status.step(), status.now().nonpdq_kb()), (0, 128));
    let _ = begins(&rt, &office, &mut pass, true);
    let changed = Changed {
        pending: false,
        step: 2,
    };
    let change = Change::NonPdq(1000);
    assert!(rt; office.onmode(&rt, &mut pass, change) == Ok(changed));
    assert!(rt; office.look_as(&rt, &mut pass, &mut status));
    assert_eq!(rt; (status.step(), status.now().nonpdq_kb()), (2, 1000));
    assert_eq!(rt; office.step(&rt, &mut pass), 2);
    match office.close(pass) {
        Ok(manager) => assert_eq!(rt; manager.end().quanta(), 10),
        Err(_manager) => panic!(rt; "the office closes"),
    }
}

// One query of a pass that has no other, from its submission to its end. Eight at once have room in the office.
fn one_query<R: Abort + Wait>(rt: &R, office: &Office, pass: &mut Pass)
    requires lock { lock_at pass.old ≡ lock_in office.now }
    requires in_session { IsOpen pass.old }
    requires finished { Unfinished pass.old [] }
    ensures lock { (lock_at pass.new ≡ lock_in office.now) × (pass.new.session ≡ pass.old.session) }
    ensures finished { Unfinished pass.new [] }
{
    let Ok(sent) = office.submit(rt, pass, 10, 2) else {
        panic!(rt; "a query");
    };
    let (ticket, _placed) = sent.parts();
    let (held, region) = match office.collect(rt, pass, ticket) {
        Got::Granted(held, grant) => {
            let Grant {
                region,
                quanta: _,
                scans: _,
                priority: _,
                flagged: _,
                step: _,
            } = grant;
            (held, region)
        }
        _other => panic!(rt; "it is active"),
    };
    let _ = office.finish(rt, pass, held, region, How::Done);
}

// Fifty queries of a new session of the pass, one after another.
fn fifty_queries<R: Abort + Wait>(rt: &R, office: &Office, mut pass: Pass) -> Pass
    requires lock { lock_at pass ≡ lock_in office.now }
    requires none { pass.session ≡ None }
    ensures lock { (lock_at result ≡ lock_in office.now) × (result.session ≡ None) }
{
    let _ = begins(rt, office, &mut pass, false);
    for _ in 0..50 {
        one_query(rt, office, &mut pass);
    }
    let _ = office.close_session(rt, &mut pass);
    pass
}

// Splits off so many passes.
fn split_off(
    alloc: Global,
    office: &Office,
    first: &mut Pass,
    count: usize,
) -> Result<Vec<Pass>, AllocError>
    requires first { (lock_at first.old ≡ lock_in office.now) × ((known first.old).is_first ≡ true) }
    ensures first { lock_at first.new ≡ lock_in office.now }
    ensures split { IfOk result (λ passes. All (λ p. (lock_at p ≡ lock_in office.now) × (p.session ≡ None)) passes.items) }
{
    let mut passes = Vec::new(alloc);
    for _ in 0..count {
        passes.push(office.split(first))?;
    }
    Ok(passes)
}

// Each pass makes its queries in a thread of its own.
fn query_in_threads<R: Abort + Threads + Wait + Sync>(
    rt: &R,
    office: &Office,
    passes: Vec<Pass>,
) -> Result<Vec<Pass>, AllocError>
    requires split { All (λ p. (lock_at p ≡ lock_in office.now) × (p.session ≡ None)) passes.items }
    ensures back { IfOk result (λ made. All (λ p. (lock_at p ≡ lock_in office.now) × (p.session ≡ None)) made.items) }
{
    map_vec(rt, passes, &|pass| fifty_queries(rt, office, pass))
}

// The passes come back to the first one.
fn meet_all(office: &Office, first: &mut Pass, passes: Vec<Pass>)
    requires first { lock_at first.old ≡ lock_in office.now }
    requires back { All (λ p. (lock_at p ≡ lock_in office.now) × (p.session ≡ None)) passes.items }
    ensures first { lock_at first.new ≡ lock_in office.now }
{
    for pass in passes {
        office.meet(first, pass);
    }
}

// Where a session stands when a journal is replayed: its query that was submitted last, and whether it was collected.
#[derive(Clone, Copy)]
struct Standing {
    query: u32,
    collected: bool,
}

// How many sessions were opened and queries submitted, and where each session stands; query 0 is none.
#[derive(Drop)]
struct Replay {
    opened: u32,
    submitted: u32,
    sessions: [Standing; 9],
}

// Whether the entry is one that the rules allow here, where each query has one quantum and two scan threads and is admitted at once.
fn replays(replay: &mut Replay, entry: &Entry) -> bool {
    let number = entry.session as usize;
    if number >= 9 {
        return false;
    }
    let standing = replay.sessions[number];
    let idle = Standing {
        query: 0,
        collected: false,
    };
    match (entry.event, entry.reply) {
        (Event::OpenSession { admin: false }, Reply::Opened { session }) => {
            replay.opened = replay.opened.saturating_add(1);
            session == replay.opened && session == entry.session
        }
        (
            Event::Submit {
                priority: 10,
                frags: 2,
            },
            Reply::Placed {
                id,
                priority: 10,
                gate: 0,
            },
        ) => {
            replay.submitted = replay.submitted.saturating_add(1);
            replay.sessions[number] = Standing {
                query: id,
                collected: false,
            };
            standing.query == 0 && id == replay.submitted
        }
        (
            Event::Collect { id },
            Reply::Granted {
                quanta: 1,
                scans: 2,
                priority: 10,
                flagged: None,
            },
        ) => {
            replay.sessions[number] = Standing {
                query: id,
                collected: true,
            };
            standing.query == id && !standing.collected
        }
        (Event::Finish { id, how: How::Done }, Reply::Finished) => {
            replay.sessions[number] = idle;
            standing.query == id && standing.collected
        }
        (Event::CloseSession, Reply::Closed) => standing.query == 0,
        _ => false,
    }
}

// Whether each entry is one that the rules allow after those before it.
fn is_replayed(entries: &[Entry]) -> bool {
    let idle = Standing {
        query: 0,
        collected: false,
    };
    let mut replay = Replay {
        opened: 0,
        submitted: 0,
        sessions: [idle; 9],
    };
    let mut all = true;
    for entry in entries {
        all = replays(&mut replay, entry) && all;
    }
    all && replay.opened == 8 && replay.submitted == 400
}

#[test]
fn eight_threads_make_one_legal_history(rt: HostRuntime) {
    let (office, mut first) = made(&rt, rt.alloc());
    let Ok(passes) = split_off(rt.alloc(), &office, &mut first, 8) else {
        panic!(rt; "ample memory");
    };
    let Ok(made) = query_in_threads(&rt, &office, passes) else {
        panic!(rt; "ample memory");
    };
    meet_all(&office, &mut first, made);
    let manager = match office.close(first) {
        Ok(manager) => manager,
        Err(_manager) => panic!(rt; "the office closes"),
    };
    assert_eq!(rt; manager.entries().len(), 1216);
    assert!(rt; is_replayed(manager.entries()));
    assert_eq!(rt; manager.end().quanta(), 10);
}
