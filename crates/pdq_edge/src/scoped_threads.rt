ghost use Rattle.std.specs.Prelude.{◌≡◌, ◌≤◌, ◌↔◌, ◌∷◌, IfOk, IfSome, IsErrOf, IsNone, IsSome, OnOk, [], length};
ghost use Rattle.pdq_edge.specs.Bytes.{told_count};
ghost use Rattle.pdq_edge.specs.Causes.{Rose};
ghost use Rattle.pdq_edge.specs.Jobs.{IsCounted, ThreadJobs, job_gathered, job_started, no_jobs};

use crate::{Job, StartFault};
use std::alloc::Global;
use std::collections::VecDeque;
use std::marker::Model;
use std::snapshot::Snapshot;
use std::sync::atomic::AtomicBool;
use std::sync::atomic::Ordering::SeqCst;
use std::sync::{Arc, Wait};
use std::thread::{Promise, PromisedHandle, Scope, Threads};

/// That what a job ends with has the mark of the job.
#[derive(Drop)]
pub(crate) struct MarkOf<J: Job>(Snapshot<J>);

impl<J: Job> Promise<J::Out> for MarkOf<J> {
    ghost kept_by = { λ p out. J.mark_of out ≡ J.mark p.0.value };
}

/// A job that was started: the thread that runs it, until that is joined, and from then on what the job ended with.
#[derive(Drop)]
pub(crate) struct JobThread<J: Job> {
    job: Snapshot<J>,
    thread: Option<PromisedHandle<J::Out, MarkOf<J>>>,
    ended: Arc<AtomicBool, Global>,
    out: Option<J::Out>,
}

impl<J: Job> Model for JobThread<J> {
    ghost use Rattle.std.specs.Prelude.{◌≡◌, ℕ, List, IsNone, IsSome};
    ghost use Rattle.std.specs.Option.{ForSome};

    ghost Value = { List ℕ };

    ghost view = { λ t. J.mark t.job.value };

    ghost invariant = { λ t. (ForSome t.thread (λ h. J.mark h.promise.0.value ≡ J.mark t.job.value)) × (ForSome t.out (λ out. J.mark_of out ≡ J.mark t.job.value)) × (IsNone t.out → IsSome t.thread) };
}

/// A thread of the scope that runs the job.
fn thread_of<'s, E, R: Threads + Wait + Sync, J: Job + 's>(
    rt: &'s R,
    alloc: Global,
    scope: &'s Scope<'s, E>,
    job: J,
) -> Result<JobThread<J>, StartFault>
where
    J::Out: 's,
    ensures mark { IfOk result (λ thread. thread ≡ J.mark job) }
{
    let ended = Arc::new(alloc, AtomicBool::new(false)).map_err(|_| StartFault::Memory)?;
    let tells = Arc::try_clone(&ended).map_err(|_| StartFault::Memory)?;
    let of = Snapshot::of(&job);
    let promise = MarkOf(Snapshot::of(&job));
    let run = move || {
        let out = job.run(rt);
        tells.store(true, SeqCst);
        out
    };
    match scope.spawn_with(promise, run) {
        Ok(thread) => Ok(JobThread {
            job: of,
            thread: Some(thread),
            ended,
            out: None,
        }),
        Err(_) => Err(StartFault::Failed),
    }
}

impl<J: Job> JobThread<J> {
    /// Joins the thread if its job has ended, and answers whether it has.
    fn join_if_ended<R: Threads>(&mut self, rt: &R) -> bool
        ensures same { self.new ≡ self.old }
    {
        if !self.ended.load(SeqCst) {
            return false;
        }
        if let Some(thread) = self.thread.take() {
            self.out = Some(thread.join(rt));
        }
        true
    }
}

/// Joins the thread at a place if its job has ended. False where it runs on.
fn join_at<R: Threads, J: Job>(rt: &R, threads: &mut VecDeque<JobThread<J>>, place: usize) -> bool
    ensures same { threads.new.items ≡ threads.old.items }
{
    match threads.get_mut(place) {
        Some(thread) => thread.join_if_ended(rt),
        None => true,
    }
}

/// Goes over the numbers of the jobs that are not known to have ended, joins the threads of those that have, and takes
/// their numbers out. The first thread has the number `first`.
fn join_ended<R: Threads, J: Job>(
    rt: &R,
    threads: &mut VecDeque<JobThread<J>>,
    unended: &mut VecDeque<u64>,
    first: u64,
)
    ensures same { threads.new.items ≡ threads.old.items }
{
    'numbers: for _ in 0..unended.len() {
        let Some(number) = unended.pop_front() else {
            return;
        };
        if first <= number && !join_at(rt, threads, (number - first) as usize) {
            let _ = unended.push_back(number);
        }
    }
}

/// Runs each job in a thread of its own, within a scope. A start joins the threads whose jobs have ended, and keeps
/// what they ended with until it is gathered.
///
/// A crate above writes the `impl Spawner` for its own job, of these calls: a method of a trait starts no thread with a
/// job of which nothing but a bound is known.
pub struct ScopedThreads<'s, E, R, J: Job> {
    rt: &'s R,
    alloc: Global,
    scope: &'s Scope<'s, E>,
    threads: VecDeque<JobThread<J>>,
    unended: VecDeque<u64>,
    started: u64,
    gathered: u64,
    faults: u64,
}

impl<'s, E, R, J: Job> Model for ScopedThreads<'s, E, R, J> {
    ghost use Rattle.std.specs.Prelude.{length};
    ghost use Rattle.pdq_edge.specs.Jobs.{IsCounted, ThreadJobs};

    ghost Value = { ThreadJobs };

    ghost view = { λ s. record { jobs = record { started = s.started; gathered = s.gathered; marks = s.threads.items }; faults = s.faults } };

    ghost invariant = { λ s. IsCounted s.started s.gathered (length s.threads.items) };
}

impl<'s, E, R, J: Job> Drop for ScopedThreads<'s, E, R, J> {
    // Threads that were not joined are joined by their scope.
    fn drop(self) {
        let ScopedThreads {
            rt: _,
            alloc: _,
            scope: _,
            threads: _,
            unended: _,
            started: _,
            gathered: _,
            faults: _,
        } = self;
    }
}

impl<'s, E, R: Threads + Wait + Sync, J: Job + 's> ScopedThreads<'s, E, R, J>
where
    J::Out: 's,
{
    /// No job was started yet.
    pub fn new(rt: &'s R, alloc: Global, scope: &'s Scope<'s, E>) -> Self
        ensures fresh { result ≡ record { jobs = no_jobs; faults = 0 } }
    {
        ScopedThreads {
            rt,
            alloc,
            scope,
            threads: VecDeque::new(alloc),
            unended: VecDeque::new(alloc),
            started: 0,
            gathered: 0,
            faults: 0,
        }
    }

    /// Starts a thread that runs the job. Where it fails the job is dropped. Failed comes where no thread can be made.
    pub fn begin(&mut self, job: J) -> Result<(), StartFault>
        ensures ok { OnOk result (self.new ≡ record { jobs = job_started self.old.jobs (J.mark job); faults = self.old.faults }) }
        ensures failed { IsErrOf result StartFault.Failed → self.new ≡ record { jobs = self.old.jobs; faults = told_count self.old.faults 1 } }
        ensures memory { IsErrOf result StartFault.Memory → self.new ≡ self.old }
        ensures later { self.old.faults ≤ self.new.faults }
        ensures rose { IsErrOf result StartFault.Failed → Rose self.old.faults self.new.faults }
    {
        let (number, faults) = (self.started, self.faults);
        join_ended(self.rt, &mut self.threads, &mut self.unended, self.gathered);
        if self.threads.reserve(1).is_err() || self.unended.reserve(1).is_err() {
            return Err(StartFault::Memory);
        }
        match thread_of(self.rt, self.alloc, self.scope, job) {
            Ok(thread) => {
                self.threads.push_back_reserved(thread);
                self.unended.push_back_reserved(number);
                self.started = number.saturating_add(1);
                Ok(())
            }
            Err(StartFault::Failed) => {
                self.faults = faults.saturating_add(1);
                Err(StartFault::Failed)
            }
            Err(StartFault::Memory) => Err(StartFault::Memory),
        }
    }
}

impl<'s, E, R: Threads, J: Job + 's> ScopedThreads<'s, E, R, J>
where
    J::Out: 's,
{
    /// Waits for the job that was started first among those not gathered, and gives what it ended with.
    pub fn join_first(&mut self) -> Option<J::Out>
        ensures first { IfSome result (λ out. self.old.jobs.marks ≡ J.mark_of out ∷ self.new.jobs.marks) }
        ensures some { IsSome result → self.new.jobs ≡ job_gathered self.old.jobs self.new.jobs.marks }
        ensures none { IsNone result ↔ (self.old.jobs.marks ≡ []) }
        ensures none_same { IsNone result → self.new.jobs ≡ self.old.jobs }
        ensures counted { IsCounted self.old.jobs.started self.old.jobs.gathered (length self.old.jobs.marks) }
        ensures faults { self.new.faults ≡ self.old.faults }
    {
        let JobThread {
            job: _,
            thread,
            ended: _,
            out,
        } = self.threads.pop_front()?;
        self.gathered = self.gathered.saturating_add(1);
        match (out, thread) {
            (Some(out), _) => Some(out),
            (None, Some(thread)) => Some(thread.join(self.rt)),
            (None, None) => unreachable!(),
        }
    }
}
