ghost use Rattle.std.specs.Prelude.{◌≡◌, ◌≤◌, ◌↔◌, ◌++◌, ◌∷◌, [], ℕ, List, IsErrOf, IsNone, IfSome, OnOk, OnErr, length};
ghost use Rattle.pdq_edge.specs.Bytes.{told_count};
ghost use Rattle.pdq_edge.specs.Causes.{Rose};
ghost use Rattle.pdq_edge.specs.Jobs.{IsCounted};
ghost use Rattle.std.specs.Thread.{IsSync};

use std::sync::Wait;
use std::thread::Threads;

/// Why a job was not started.
#[derive(Clone, Copy, Debug, PartialEq, Eq)]
pub enum StartFault {
    /// The outside failed; the count of faults rose.
    Failed,
    /// Want of memory.
    Memory,
}

/// What runs beside the others, once.
pub trait Job: Send + Drop {
    /// What it ends with.
    type Out: Send + Drop;

    // A mark that the job and what it ends with have in common, as plain numbers.
    ghost mark: { Self → List ℕ };

    // The mark of the job that ended with this.
    ghost mark_of: { Self.Out → List ℕ };

    /// Runs to its end.
    fn run<R: Threads + Wait + Sync>(self, rt: &R) -> Self::Out
        requires sync { IsSync R.row }
        ensures mark { mark_of result ≡ mark self };
}

/// Runs jobs, and gathers what they end with.
pub trait Spawner<J: Job> {
    // How many jobs were started, and how many of them were gathered.
    ghost started: { Self → ℕ };

    ghost gathered: { Self → ℕ };

    // The marks of those that were started and not yet gathered, in order.
    ghost marks: { Self → List (List ℕ) };

    // How often it has failed.
    ghost faults: { Self → ℕ };

    // Whether what a job is handed may be shared with it.
    ghost ready: { Self → Type 0 };

    /// Starts a job. Where it fails the job is dropped.
    fn start(&mut self, job: J) -> Result<(), StartFault>
        requires ready { ready self.old }
        ensures ready { ready self.new }
        ensures started { OnOk result (started self.new ≡ told_count (started self.old) 1) }
        ensures marks { OnOk result (marks self.new ≡ marks self.old ++ J.mark job ∷ []) }
        ensures gathered { gathered self.new ≡ gathered self.old }
        ensures err_started { OnErr result (started self.new ≡ started self.old) }
        ensures err_marks { OnErr result (marks self.new ≡ marks self.old) }
        ensures later { faults self.old ≤ faults self.new }
        ensures failed { IsErrOf result StartFault.Failed → Rose (faults self.old) (faults self.new) }
        ensures memory { IsErrOf result StartFault.Memory → faults self.new ≡ faults self.old }
        ensures ok { OnOk result (faults self.new ≡ faults self.old) };

    /// Waits for the job that was started first among those not gathered, and gives what it ended with. None where
    /// there is none.
    fn gather(&mut self) -> Option<J::Out>
        ensures first { IfSome result (λ out. marks self.old ≡ J.mark_of out ∷ marks self.new) }
        ensures gathered { IfSome result (λ _. gathered self.new ≡ told_count (gathered self.old) 1) }
        ensures started { started self.new ≡ started self.old }
        ensures none { IsNone result ↔ (marks self.old ≡ []) }
        ensures none_marks { IsNone result → marks self.new ≡ marks self.old }
        ensures none_gathered { IsNone result → gathered self.new ≡ gathered self.old }
        ensures counted { IsCounted (started self.old) (gathered self.old) (length (marks self.old)) }
        ensures same { faults self.new ≡ faults self.old };
}
