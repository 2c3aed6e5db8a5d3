//! Turns at the ticket lock, and turns at a mutex.
ghost use Rattle.std.specs.Prelude.{◌≡◌, ◌+◌, ◌*◌, ◌<◌, ◌^◌, ◌++◌, [], ◌∷◌, true, All, IfOk};
ghost use Rattle.pdq_turn.specs.Pass.{IsFree, lock_id, lock_of, view_of};

use pdq_turn::{Journaled, Pass, Turnstile};
use std::alloc::{AllocError, Global};
use std::sync::{Mutex, Wait};
use std::thread::Threads;
use std::time::{Clock, Duration, Instant};
use std::{io, thread};

/// How many threads make how many turns each, on how many numbers.
#[derive(Drop)]
pub struct Load {
    pub threads: u8,
    pub turns: u32,
    pub length: u64,
}

/// What a turn works on: numbers that wait, of which the least is next. It has no entries.
#[derive(Drop)]
struct Line {
    numbers: Vec<u64>,
}

impl Line {
    fn new(alloc: Global, length: u64) -> Result<Line, AllocError> {
        let mut numbers = Vec::new(alloc);
        for number in 0..length {
            numbers.push(number)?;
        }
        Ok(Line { numbers })
    }

    /// The work of one turn: finds the least number, as the manager finds the head of its queue, and puts a later one in its place.
    fn serve(&mut self) {
        let length = self.numbers.len() as u64;
        if let Some(least) = self.numbers.iter_mut().min() {
            *least = least.wrapping_add(length);
        }
    }
}

impl Journaled for Line {
    type Entry = ();

    type Origin = ();

    ghost journal = { λ _. [] };

    ghost party = { λ _. 0 };

    ghost origin = { λ _. tt };

    fn entries(&self) -> &[()] {
        &[]
    }
}

/// Makes turns at the lock.
fn take_turns<R: Wait>(
    rt: &R,
    lock: &Turnstile<Line>,
    mut pass: Pass<Line>,
    turns: u32,
) -> Pass<Line>
    requires free { (lock_of pass ≡ lock_id lock.now) × IsFree pass }
    ensures free { (lock_of result ≡ lock_id lock.now) × IsFree result }
{
    for _ in 0..turns {
        let mut line = lock.take(rt, &mut pass);
        line.serve();
        lock.give(&mut pass, line);
    }
    pass
}

/// Makes turns at the mutex.
fn lock_turns<R: Wait>(rt: &R, line: &Mutex<Line>, turns: u32) {
    for _ in 0..turns {
        line.lock(rt).serve();
    }
}

/// Turns a second of all threads.
fn rate(load: &Load, spent: Duration) -> u128 {
    u128::from(load.threads) * u128::from(load.turns) * 1_000_000 / spent.as_micros().max(1)
}

/// Splits passes off the first one.
fn split_off(
    alloc: Global,
    lock: &Turnstile<Line>,
    first: &mut Pass<Line>,
    number: u8,
) -> Result<Vec<Pass<Line>>, AllocError>
    requires first { (lock_of first.old ≡ lock_id lock.now) × IsFree first.old × ((view_of first.old).is_first ≡ true) }
    ensures free { IfOk result (λ passes. All (λ p. (lock_of p ≡ lock_id lock.now) × IsFree p) passes.items) }
{
    let mut passes = Vec::new(alloc);
    for _ in 0..number {
        passes.push(lock.split(first))?;
    }
    Ok(passes)
}

/// Turns a second at the ticket lock. 0 where there is no memory for it.
pub fn at_the_lock<R: Threads + Wait + Clock + Sync>(
    rt: &R,
    alloc: Global,
    load: &Load,
) -> io::Result<u128> {
    let Ok((lock, mut first)) = Turnstile::new(alloc, Line::new(alloc, load.length)?) else {
        return Ok(0);
    };
    let passes = split_off(alloc, &lock, &mut first, load.threads)?;
    let turns = load.turns;
    let start = Instant::now(rt)?;
    thread::map_vec(rt, passes, &|pass| take_turns(rt, &lock, pass, turns))?;
    Ok(rate(load, start.elapsed(rt)?))
}

/// Turns a second at the mutex.
pub fn at_the_mutex<R: Threads + Wait + Clock + Sync>(
    rt: &R,
    alloc: Global,
    load: &Load,
) -> io::Result<u128> {
    let line = Mutex::new(Line::new(alloc, load.length)?);
    let threads = usize::from(load.threads);
    let turns = load.turns;
    let start = Instant::now(rt)?;
    thread::map_indices(rt, alloc, threads, &|_| lock_turns(rt, &line, turns))?;
    Ok(rate(load, start.elapsed(rt)?))
}
