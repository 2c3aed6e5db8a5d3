ghost use Rattle.std.specs.Prelude.{◌≡◌, ◌≤◌, ◌↔◌, ◌++◌, ◌∷◌, Contains, IfSome, IsErrOf, IsNone, OnErr, OnOk, [], length};
ghost use Rattle.pdq_edge.specs.Bytes.{told_count};
ghost use Rattle.pdq_edge.specs.Causes.{Rose};
ghost use Rattle.pdq_edge.specs.Jobs.{IsCounted, no_jobs};
ghost use Rattle.std.specs.Thread.{IsSync};

use crate::calls::FailingCalls;
use crate::{Job, Spawner, StartFault};
use std::alloc::Global;
use std::collections::VecDeque;
use std::marker::Model;
use std::sync::Wait;
use std::thread::Threads;

/// Runs each job to its end when it is started, and never fails but for want of memory.
#[derive(Drop)]
pub struct SureInTurn<'a, R, J: Job> {
    rt: &'a R,
    ended: VecDeque<J::Out>,
    started: u64,
    gathered: u64,
}

impl<'a, R, J: Job> Model for SureInTurn<'a, R, J> {
    ghost use Rattle.std.specs.Prelude.{length, map};
    ghost use Rattle.pdq_edge.specs.Jobs.{IsCounted, Jobs};

    ghost Value = { Jobs };

    ghost view = { λ s. record { started = s.started; gathered = s.gathered; marks = map J.mark_of s.ended.items } };

    ghost invariant = { λ s. IsCounted s.started s.gathered (length s.ended.items) };
}

impl<'a, R: Threads + Wait + Sync, J: Job> SureInTurn<'a, R, J> {
    /// No job was started yet.
    pub fn new(rt: &'a R, alloc: Global) -> Self
        ensures fresh { result ≡ no_jobs }
        ensures ready { ⟦<SureInTurn<'a, R, J> as Spawner<J>>⟧.ready result }
    {
        SureInTurn {
            rt,
            ended: VecDeque::new(alloc),
            started: 0,
            gathered: 0,
        }
    }
}

impl<'a, R: Threads + Wait + Sync, J: Job> Spawner<J> for SureInTurn<'a, R, J> {
    ghost started = { λ s. s.started };

    ghost gathered = { λ s. s.gathered };

    ghost marks = { λ s. s.marks };

    ghost faults = { λ s. 0 };

    ghost ready = { λ s. IsSync R.row };

    fn start(&mut self, job: J) -> Result<(), StartFault> {
        if self.ended.reserve(1).is_err() {
            return Err(StartFault::Memory);
        }
        let Ok(()) = self.ended.push_back(job.run(self.rt)) else {
            unreachable!()
        };
        self.started = self.started.saturating_add(1);
        Ok(())
    }

    fn gather(&mut self) -> Option<J::Out> {
        let out = self.ended.pop_front()?;
        self.gathered = self.gathered.saturating_add(1);
        Some(out)
    }
}

/// Runs each job to its end when it is started. Of the starts those with the listed numbers fail, counted from 0.
#[derive(Drop)]
pub struct InTurn<'a, R, J: Job> {
    spawner: SureInTurn<'a, R, J>,
    calls: FailingCalls,
}

impl<'a, R, J: Job> Model for InTurn<'a, R, J> {
    ghost use Rattle.pdq_edge.specs.Jobs.{FailingJobs};

    ghost Value = { FailingJobs };

    ghost view = { λ s. record { jobs = s.spawner; calls = s.calls } };
}

impl<'a, R: Threads + Wait + Sync, J: Job> InTurn<'a, R, J> {
    /// No job was started yet.
    pub fn new(rt: &'a R, alloc: Global, fails: Vec<u64>) -> Self
        ensures fresh { result ≡ record { jobs = no_jobs; calls = record { made = 0; fails = fails.items; faults = 0 } } }
        ensures ready { ⟦<InTurn<'a, R, J> as Spawner<J>>⟧.ready result }
    {
        InTurn {
            spawner: SureInTurn::new(rt, alloc),
            calls: FailingCalls::new(fails),
        }
    }
}

impl<'a, R: Threads + Wait + Sync, J: Job> Spawner<J> for InTurn<'a, R, J> {
    ghost started = { λ s. s.jobs.started };

    ghost gathered = { λ s. s.jobs.gathered };

    ghost marks = { λ s. s.jobs.marks };

    ghost faults = { λ s. s.calls.faults };

    ghost ready = { λ s. IsSync R.row };

    /// Fails exactly at the listed calls.
    fn start(&mut self, job: J) -> Result<(), StartFault>
        requires ready { IsSync R.row }
        ensures ready { IsSync R.row }
        ensures listed { IsErrOf result StartFault.Failed ↔ Contains self.old.calls.fails self.old.calls.made }
        ensures made { self.new.calls.made ≡ told_count self.old.calls.made 1 }
        ensures fails { self.new.calls.fails ≡ self.old.calls.fails }
        ensures started { OnOk result (self.new.jobs.started ≡ told_count self.old.jobs.started 1) }
        ensures marks { OnOk result (self.new.jobs.marks ≡ self.old.jobs.marks ++ J.mark job ∷ []) }
        ensures gathered { self.new.jobs.gathered ≡ self.old.jobs.gathered }
        ensures err_started { OnErr result (self.new.jobs.started ≡ self.old.jobs.started) }
        ensures err_marks { OnErr result (self.new.jobs.marks ≡ self.old.jobs.marks) }
        ensures later { self.old.calls.faults ≤ self.new.calls.faults }
        ensures failed { IsErrOf result StartFault.Failed → Rose self.old.calls.faults self.new.calls.faults }
        ensures memory { IsErrOf result StartFault.Memory → self.new.calls.faults ≡ self.old.calls.faults }
        ensures ok { OnOk result (self.new.calls.faults ≡ self.old.calls.faults) }
    {
        if self.calls.fails() {
            self.calls.fault();
            return Err(StartFault::Failed);
        }
        self.spawner.start(job)
    }

    /// Is no call that may fail.
    fn gather(&mut self) -> Option<J::Out>
        ensures first { IfSome result (λ out. self.old.jobs.marks ≡ J.mark_of out ∷ self.new.jobs.marks) }
        ensures gathered { IfSome result (λ _. self.new.jobs.gathered ≡ told_count self.old.jobs.gathered 1) }
        ensures started { self.new.jobs.started ≡ self.old.jobs.started }
        ensures none { IsNone result ↔ (self.old.jobs.marks ≡ []) }
        ensures none_marks { IsNone result → self.new.jobs.marks ≡ self.old.jobs.marks }
        ensures none_gathered { IsNone result → self.new.jobs.gathered ≡ self.old.jobs.gathered }
        ensures counted { IsCounted self.old.jobs.started self.old.jobs.gathered (length self.old.jobs.marks) }
        ensures calls { self.new.calls ≡ self.old.calls }
    {
        self.spawner.gather()
    }
}
