//! A granted query is run, finished, and told of.
ghost use Rattle.std.specs.Prelude.{◌≡◌, ◌≤◌, ◌++◌, ℕ, Option, List, IsOk, Some, None, length, true};
ghost use Rattle.pdq_query.specs.Queries.{query_of};
ghost use Rattle.pdq_office.specs.Passes.{lock_in, lock_at, known, Follows, IsHeld, IsOpen};
ghost use Rattle.pdq_serve.specs.Query.{IsFlag, WasRun};
ghost use Rattle.pdq_serve.specs.Outcomes.{IsOutcome, outcome_text};
ghost use Rattle.pdq_talk.specs.Writing.{Wrote, last_text};
ghost use Rattle.pdq_talk.specs.Lines.{Expected, ran_text};
ghost use Rattle.pdq_serve.specs.Questions.{all_tell, expects, IsQuestion};

use crate::ends::ShutRight;
use crate::outcomes::{Outcome, how_of, ran_of};
use crate::questions::{Question, run_question};
use pdq_edge::{Bell, Sink, Spill, Stop};
use pdq_frame::Region;
use pdq_office::{Held, Office, Pass};
use pdq_table::Stored;
use pdq_talk::{Break, Evaluated, Ran, evaluated_bytes, last_bytes, put, tell};
use std::alloc::Global;
use std::marker::Model;
use std::sync::Wait;
use std::thread::Threads;

/// A query that runs: it is stopped once another session has cancelled it.
struct Watch<'a, R: Wait> {
    rt: &'a R,
    office: &'a Office,
    pass: Pass,
    held: Held,
    asked: u64,
    told: u64,
    last: u64,
}

impl<'a, R: Wait> Model for Watch<'a, R> {
    ghost use Rattle.pdq_serve.specs.Watching.{WatchView, IsWatching};
    ghost use Rattle.pdq_office.specs.Passes.{lock_in};

    ghost Value = { WatchView };

    ghost view = { λ w. record { office = lock_in w.office.now; pass = w.pass; held = w.held; asked = w.asked; told = w.told; last = w.last } };

    ghost invariant = { λ w. IsWatching (lock_in w.office.now) w.pass w.held w.told w.last };
}

impl<'a, R: Wait> Stop for Watch<'a, R> {
    ghost use Rattle.pdq_serve.specs.Watching.{Watches};
    ghost use Rattle.pdq_serve.specs.Watched.{watches_same, watches_on};

    ghost asked = { λ w. w.asked };

    ghost told = { λ w. w.told };

    ghost last = { λ w. w.last };

    ghost keeps = { Watches };

    fn stopped(&mut self) -> Option<u64> {
        self.asked = self.asked.saturating_add(1);
        let flagged = self.office.flagged(self.rt, &mut self.pass, &self.held);
        if let Some(step) = flagged {
            self.told = self.told.saturating_add(1);
            self.last = step;
        }
        flagged
    }

    ghost keeps_same = { watches_same };

    ghost keeps_on = { watches_on };
}

/// Runs a granted query that was not flagged when it was granted.
fn evaluate<R: Threads + Wait + Sync, Sp: Spill + Send>(
    rt: &R,
    alloc: Global,
    office: &Office,
    pass: Pass,
    held: Held,
    region: Region,
    scans: u32,
    priority: u32,
    stored: &Stored,
    question: &Question,
    stores: &mut Vec<Sp>,
) -> (Pass, Held, Region, Outcome)
    requires lock { lock_at pass ≡ lock_in office.now }
    requires opens { IsOpen pass }
    requires held { IsHeld pass held }
    requires scans { (1 ≤ scans) × (scans ≤ 16) }
    requires region { 32 ≤ region.frames }
    requires question { IsQuestion stored.now question.now }
    requires stores { length stores.old.items ≡ 48 }
    ensures follows { Follows pass result.0 }
    ensures held { result.1 ≡ held }
    ensures region { result.2.frames ≡ region.frames }
    ensures outcome { IsOutcome (known result.0).seen held.id (expects Sp.blocks stores.old.items stored.now (query_of question.now.query)) None result.3 }
    ensures stores { length stores.new.items ≡ 48 }
    ensures tell { all_tell Sp.blocks stores.old.items ≡ true → all_tell Sp.blocks stores.new.items ≡ true }
{
    let mut watch = Watch {
        rt,
        office,
        pass,
        held,
        asked: 0,
        told: 0,
        last: 0,
    };
    let (region, outcome) = run_question(
        rt, alloc, stored, question, region, scans, priority, stores, &mut watch,
    );
    let Watch {
        rt: _,
        office: _,
        pass,
        held,
        asked: _,
        told: _,
        last: _,
    } = watch;
    (pass, held, region, outcome)
}

/// Finishes a granted query.
fn end_granted<R: Wait>(
    rt: &R,
    office: &Office,
    pass: &mut Pass,
    held: Held,
    region: Region,
    outcome: Outcome,
) -> Ran
    requires lock { lock_at pass.old ≡ lock_in office.now }
    requires opens { IsOpen pass.old }
    requires held { IsHeld pass.old held }
    requires region { region.frames ≡ held.frames }
    ensures run { (answer : Expected) (flag : Option ℕ) → IsOutcome (known pass.old).seen held.id answer flag outcome → WasRun pass.old pass.new held.id answer flag result }
    ensures text { outcome_text outcome ++ last_text held.id result ≡ ran_text held.id result }
{
    let how = how_of(&outcome);
    let step = office.finish(rt, pass, held, region, how);
    ran_of(outcome, step)
}

/// What becomes of a granted query: it is stopped where it was flagged, and runs where all its lines were written.
fn come_out<R: Threads + Wait + Sync, Sp: Spill + Send>(
    rt: &R,
    alloc: Global,
    office: &Office,
    pass: Pass,
    held: Held,
    region: Region,
    scans: u32,
    priority: u32,
    flagged: Option<u64>,
    is_told: bool,
    stored: &Stored,
    question: &Question,
    stores: &mut Vec<Sp>,
) -> (Pass, Held, Region, Outcome)
    requires lock { lock_at pass ≡ lock_in office.now }
    requires opens { IsOpen pass }
    requires held { IsHeld pass held }
    requires scans { (1 ≤ scans) × (scans ≤ 16) }
    requires region { 32 ≤ region.frames }
    requires flag { IsFlag (known pass).seen held.id flagged }
    requires question { IsQuestion stored.now question.now }
    requires stores { length stores.old.items ≡ 48 }
    ensures follows { Follows pass result.0 }
    ensures held { result.1 ≡ held }
    ensures region { result.2.frames ≡ region.frames }
    ensures outcome { IsOutcome (known result.0).seen held.id (expects Sp.blocks stores.old.items stored.now (query_of question.now.query)) flagged result.3 }
    ensures stores { length stores.new.items ≡ 48 }
    ensures tell { all_tell Sp.blocks stores.old.items ≡ true → all_tell Sp.blocks stores.new.items ≡ true }
{
    match flagged {
        Some(by) => (pass, held, region, Outcome::Stopped(by)),
        None => {
            if is_told {
                evaluate(
                    rt, alloc, office, pass, held, region, scans, priority, stored, question,
                    stores,
                )
            } else {
                (pass, held, region, Outcome::Ended(Evaluated::NoMemory))
            }
        }
    }
}

/// Writes the lines before the end of a granted query.
fn put_outcome<Si: Sink>(
    sink: &mut Si,
    told: Result<(), Break>,
    outcome: &Outcome,
) -> Result<(), Break>
    ensures wrote { (before : Option (List ℕ)) (faults : ℕ) (so_far : List ℕ) → Wrote before (Si.written sink.old) faults (Si.faults sink.old) told so_far
        → Wrote before (Si.written sink.new) faults (Si.faults sink.new) result (so_far ++ outcome_text outcome.now) }
    ensures kept { IsOk result → IsOk told }
{
    match outcome {
        Outcome::Ended(evaluated) => put(sink, told, evaluated_bytes(evaluated)),
        Outcome::Stopped(_) => told,
    }
}

/// Runs a granted query, tells of it and finishes it.
pub(crate) fn run_granted<R: Threads + Wait + Sync, Sp: Spill + Send, Si: Sink, B: Bell<ShutRight>>(
    rt: &R,
    alloc: Global,
    office: &Office,
    pass: Pass,
    id: u32,
    held: Held,
    region: Region,
    scans: u32,
    priority: u32,
    flagged: Option<u64>,
    stored: &Stored,
    question: &Question,
    stores: &mut Vec<Sp>,
    sink: &mut Si,
    told: Result<(), Break>,
    bell: &B,
) -> (Pass, Ran, Result<(), Break>)
    requires lock { lock_at pass ≡ lock_in office.now }
    requires opens { IsOpen pass }
    requires id { held.id ≡ id }
    requires held { IsHeld pass held }
    requires frames { held.frames ≡ region.frames }
    requires scans { (1 ≤ scans) × (scans ≤ 16) }
    requires region { 32 ≤ region.frames }
    requires flag { IsFlag (known pass).seen id flagged }
    requires question { IsQuestion stored.now question.now }
    requires stores { length stores.old.items ≡ 48 }
    ensures run { WasRun pass result.0 id (expects Sp.blocks stores.old.items stored.now (query_of question.now.query)) flagged result.1 }
    ensures wrote { (before : Option (List ℕ)) (faults : ℕ) (so_far : List ℕ) → Wrote before (Si.written sink.old) faults (Si.faults sink.old) told so_far
        → Wrote before (Si.written sink.new) faults (Si.faults sink.new) result.2 (so_far ++ ran_text id result.1) }
    ensures kept { IsOk result.2 → IsOk told }
    ensures stores { length stores.new.items ≡ 48 }
    ensures tell { all_tell Sp.blocks stores.old.items ≡ true → all_tell Sp.blocks stores.new.items ≡ true }
{
    let is_told = told.is_ok();
    let (mut pass, held, region, outcome) = come_out(
        rt, alloc, office, pass, held, region, scans, priority, flagged, is_told, stored, question,
        stores,
    );
    let told = put_outcome(sink, told, &outcome);
    let ran = end_granted(rt, office, &mut pass, held, region, outcome);
    bell.ring();
    let told = tell(sink, told, last_bytes(alloc, id, &ran));
    (pass, ran, told)
}
