//! Threads on one lock: what no clause says is that they come to their ends, and how their entries fall. And each call in one thread.
ghost use Rattle.std.specs.Prelude.{◌≡◌, ◌≢◌, All, ℕ, ◌+◌, ◌<◌, true, false, [], ◌∷◌, ◌++◌, map, length, IfOk, IfSome, IsTrue};
ghost use mathlib.Core.List.{IsPrefix};
ghost use Rattle.pdq_turn.specs.LockRule.{first_view, is_among};
ghost use Rattle.std.specs.Arc.{arc_value};
ghost use Rattle.pdq_turn.specs.Pass.{lock_of, lock_id, view_of, IsFree};

use crate::{Journaled, Pass, Turnstile};
use std::alloc::{AllocError, Global};
use std::process::Abort;
use std::snapshot::Snapshot;
use std::sync::{Arc, Wait};
use std::test::*;
use std::thread::{Promise, Threads, join, map_vec, spawn_with};

// Numbers that parties entered, each as (party, number).
#[derive(Drop)]
struct Tally {
    rows: Vec<(u32, u32)>,
}

impl Journaled for Tally {
    type Entry = (u32, u32);

    type Origin = ();

    ghost journal = { λ t. t.rows.items };

    ghost party = { λ e. e.0 };

    ghost origin = { λ _. tt };

    fn entries(&self) -> &[(u32, u32)] {
        self.rows.as_slice()
    }
}

// Whether the party has no entry.
fn is_new(rows: &[(u32, u32)], party: u32) -> bool
    ensures all { IsTrue result → All (λ e. e.0 ≢ party) rows.now }
{
    rows.iter().all(|row| row.0 != party)
}

// Enters the number 1 for a new party.
fn begin<R: Wait>(rt: &R, lock: &Turnstile<Tally>, pass: &mut Pass<Tally>, party: u32) -> bool
    requires free { (lock_of pass.old ≡ lock_id lock.now) × IsFree pass.old }
    ensures free { (lock_of pass.new ≡ lock_id lock.now) × IsFree pass.new }
    ensures family { ((view_of pass.new).is_first ≡ (view_of pass.old).is_first) × ((view_of pass.new).given ≡ (view_of pass.old).given) }
    ensures entered { IsTrue result → is_among party (view_of pass.new).parties ≡ true }
{
    let mut tally = lock.take(rt, pass);
    if !is_new(tally.rows.as_slice(), party) {
        lock.give(pass, tally);
        return false;
    }
    let entered = tally.rows.push((party, 1)).is_ok();
    lock.give(pass, tally);
    entered
}

// Enters one number more for a party of the pass.
fn go_on<R: Wait>(
    rt: &R,
    lock: &Turnstile<Tally>,
    pass: &mut Pass<Tally>,
    party: u32,
    number: u32,
) -> bool
    requires free { (lock_of pass.old ≡ lock_id lock.now) × IsFree pass.old × (is_among party (view_of pass.old).parties ≡ true) }
    ensures free { (lock_of pass.new ≡ lock_id lock.now) × IsFree pass.new × (is_among party (view_of pass.new).parties ≡ true) }
    ensures family { ((view_of pass.new).is_first ≡ (view_of pass.old).is_first) × ((view_of pass.new).given ≡ (view_of pass.old).given) }
{
    let mut tally = lock.take(rt, pass);
    let entered = tally.rows.push((party, number)).is_ok();
    lock.give(pass, tally);
    entered
}

// Enters the numbers from 1 to the last for a new party, in a turn each.
fn enter_all<R: Wait>(
    rt: &R,
    lock: &Turnstile<Tally>,
    mut pass: Pass<Tally>,
    party: u32,
    last: u32,
) -> (Pass<Tally>, bool)
    requires free { (lock_of pass ≡ lock_id lock.now) × IsFree pass }
    ensures free { (lock_of result.0 ≡ lock_id lock.now) × IsFree result.0 }
    ensures family { ((view_of result.0).is_first ≡ (view_of pass).is_first) × ((view_of result.0).given ≡ (view_of pass).given) }
{
    if !begin(rt, lock, &mut pass, party) {
        return (pass, false);
    }
    for number in 1..last {
        if !go_on(rt, lock, &mut pass, party, number + 1) {
            return (pass, false);
        }
    }
    (pass, true)
}

// A lock around a tally with no entries.
fn made<R: Abort>(rt: &R, alloc: Global) -> (Turnstile<Tally>, Pass<Tally>)
    ensures first { (lock_of result.1 ≡ lock_id result.0) × (view_of result.1 ≡ first_view tt []) × IsFree result.1 }
{
    match Turnstile::new(
        alloc,
        Tally {
            rows: Vec::new(alloc),
        },
    ) {
        Ok(made) => made,
        Err(_) => panic!(rt; "memory"),
    }
}

// Whether the numbers of each party below the last stand in the tally as 1, 2, .. in order.
fn is_in_order(tally: &Tally, parties: u32, numbers: u32) -> bool {
    (1..parties).all(|party| {
        let own = tally.rows.iter().filter(|row| row.0 == party);
        own.map(|row| row.1).eq(1..numbers)
    })
}

#[test]
fn two_threads_make_one_history(rt: HostRuntime) -> Result<(), Fail> {
    let (lock, mut pass) = made(&rt, rt.alloc());
    let other = lock.split(&mut pass);
    let shared = &lock;
    let (a, b) = join(
        &rt,
        || enter_all(&rt, shared, pass, 1, 200),
        || enter_all(&rt, shared, other, 2, 200),
    );
    let (mut pass, first) = a;
    let (other, second) = b;
    assert!(rt; first && second);
    lock.meet(&mut pass, other);
    let Ok(tally) = lock.close(pass) else {
        unreachable!()
    };
    assert_eq!(rt; tally.rows.len(), 400);
    assert!(rt; is_in_order(&tally, 3, 201));
    Ok(())
}

// Splits off a pass for each of the parties from 1 on.
fn split_off(
    alloc: Global,
    lock: &Turnstile<Tally>,
    first: &mut Pass<Tally>,
    parties: u32,
) -> Result<Vec<(Pass<Tally>, u32)>, AllocError>
    requires first { (lock_of first.old ≡ lock_id lock.now) × IsFree first.old × ((view_of first.old).is_first ≡ true) }
    ensures first { (lock_of first.new ≡ lock_id lock.now) × IsFree first.new }
    ensures free { IfOk result (λ passes. All (λ p. (lock_of p.0 ≡ lock_id lock.now) × IsFree p.0) passes.items) }
{
    let mut passes = Vec::new(alloc);
    for party in 1..parties {
        passes.push((lock.split(first), party))?;
    }
    Ok(passes)
}

// Joins passes that come back to the first one. False where one of them did not enter all its numbers.
fn meet_all(
    lock: &Turnstile<Tally>,
    first: &mut Pass<Tally>,
    passes: Vec<(Pass<Tally>, bool)>,
) -> bool
    requires first { (lock_of first.old ≡ lock_id lock.now) × IsFree first.old }
    requires free { All (λ p. (lock_of p.0 ≡ lock_id lock.now) × IsFree p.0) passes.items }
    ensures first { (lock_of first.new ≡ lock_id lock.now) × IsFree first.new }
{
    let mut all = true;
    for (pass, entered) in passes {
        lock.meet(first, pass);
        all = all && entered;
    }
    all
}

// Lets each pass enter its numbers in a thread of its own.
fn enter_in_threads<R: Threads + Wait + Sync>(
    rt: &R,
    lock: &Turnstile<Tally>,
    passes: Vec<(Pass<Tally>, u32)>,
    last: u32,
) -> Result<Vec<(Pass<Tally>, bool)>, AllocError>
    requires free { All (λ p. (lock_of p.0 ≡ lock_id lock.now) × IsFree p.0) passes.items }
    ensures free { IfOk result (λ made. All (λ p. (lock_of p.0 ≡ lock_id lock.now) × IsFree p.0) made.items) }
{
    map_vec(
        rt,
        passes,
        &|(pass, party)| enter_all(rt, lock, pass, party, last),
    )
}

#[test]
fn eight_threads_make_one_history(rt: HostRuntime) -> Result<(), Fail> {
    let (lock, mut first) = made(&rt, rt.alloc());
    let passes = split_off(rt.alloc(), &lock, &mut first, 9)?;
    let made = enter_in_threads(&rt, &lock, passes, 50)?;
    assert!(rt; meet_all(&lock, &mut first, made));
    let Ok(tally) = lock.close(first) else {
        panic!(rt; "a ticket is out")
    };
    assert_eq!(rt; tally.rows.len(), 400);
    assert!(rt; is_in_order(&tally, 9, 51));
    Ok(())
}

// A pass is split, the other makes the entry (2, 1), and they meet: the first has then seen a history that goes on from what it had seen, and has
// the entry. The party 2 makes no further one.
fn split_and_meet<R: Wait>(rt: &R, lock: &Turnstile<Tally>, pass: &mut Pass<Tally>) -> bool
    requires first { (lock_of pass.old ≡ lock_id lock.now) × IsFree pass.old × ((view_of pass.old).is_first ≡ true) }
    ensures free { (lock_of pass.new ≡ lock_id lock.now) × IsFree pass.new × ((view_of pass.new).is_first ≡ true) }
    ensures given { (view_of pass.new).given ≡ (view_of pass.old).given }
    ensures own { ((view_of pass.new).parties ≡ (view_of pass.old).parties) × ((view_of pass.new).mine ≡ (view_of pass.old).mine) }
    ensures seen { IsPrefix (view_of pass.old).seen (view_of pass.new).seen }
    ensures ended { IsTrue result → is_among 2 (view_of pass.new).ended ≡ true }
{
    let mut other = lock.split(pass);
    let entered = begin(rt, lock, &mut other, 2);
    lock.meet(pass, other);
    entered
}

// A turn that makes no entry: how many entries there are.
fn count<R: Wait>(rt: &R, lock: &Turnstile<Tally>, pass: &mut Pass<Tally>) -> usize
    requires free { (lock_of pass.old ≡ lock_id lock.now) × IsFree pass.old }
    ensures free { (lock_of pass.new ≡ lock_id lock.now) × IsFree pass.new × ((view_of pass.new).is_first ≡ (view_of pass.old).is_first) × ((view_of pass.new).given ≡ (view_of pass.old).given) }
    ensures own { ((view_of pass.new).parties ≡ (view_of pass.old).parties) × ((view_of pass.new).mine ≡ (view_of pass.old).mine) }
    ensures count { result ≡ length (view_of pass.new).seen }
    ensures seen { IsPrefix (view_of pass.old).seen (view_of pass.new).seen }
{
    let tally = lock.take(rt, pass);
    let count = tally.rows.len();
    lock.give(pass, tally);
    count
}

#[test]
fn one_pass_is_split_and_met(rt: HostRuntime) -> Result<(), Fail> {
    let (lock, mut pass) = made(&rt, rt.alloc());
    assert_eq!(rt; count(&rt, &lock, &mut pass), 0);
    assert!(rt; split_and_meet(&rt, &lock, &mut pass));
    assert_eq!(rt; count(&rt, &lock, &mut pass), 1);
    assert!(rt; begin(&rt, &lock, &mut pass, 1));
    let Ok(tally) = lock.close(pass) else {
        unreachable!()
    };
    assert_eq!(rt; tally.rows.as_slice(), [(2, 1), (1, 1)].as_slice());
    Ok(())
}

#[test]
fn a_lock_is_closed_with_a_ticket_out(rt: HostRuntime) -> Result<(), Fail> {
    let (lock, mut pass) = made(&rt, rt.alloc());
    let mut other = lock.split(&mut pass);
    let _tally = lock.take(&rt, &mut other);
    assert!(rt; matches!(lock.close(pass), Err(None)));
    let (lock, mut pass) = made(&rt, rt.alloc());
    let mut other = lock.split(&mut pass);
    lock.draw(&rt, &mut other.seat);
    assert!(rt; matches!(lock.close(pass), Err(Some(_))));
    Ok(())
}

#[derive(Drop)]
struct OfLock(Snapshot<Pass<Tally>>);

impl Promise<(Pass<Tally>, bool)> for OfLock {
    ghost kept_by = { λ p r. (lock_of r.0 ≡ lock_of p.0.value) × IsFree r.0 };
}

#[test]
fn a_pass_comes_back(rt: HostRuntime) -> Result<(), Fail> {
    let (lock, mut pass) = made(&rt, rt.alloc());
    let other = lock.split(&mut pass);
    let shared = Arc::new(rt.alloc(), lock)?;
    let theirs = Arc::try_clone(&shared)?;
    let promise = OfLock(Snapshot::of(&other));
    let child = spawn_with(
        &rt,
        promise,
        move || -> (Pass<Tally>, bool)
            requires free { (lock_of other ≡ lock_id (arc_value theirs)) × IsFree other }
            ensures free { (lock_of result.0 ≡ lock_of other) × IsFree result.0 }
        { enter_all(&rt, &theirs, other, 2, 20) },
    )?;
    let (mut pass, first) = enter_all(&rt, &shared, pass, 1, 20);
    let (other, second) = child.join(&rt);
    shared.meet(&mut pass, other);
    assert!(rt; first && second);
    Ok(())
}
