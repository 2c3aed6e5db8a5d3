ghost use Rattle.std.specs.Prelude.{◌≡◌, ◌≤◌, None, Some, if◌then◌else◌};
ghost use Rattle.pdq_edge.specs.Bytes.{told_count};
ghost use Rattle.pdq_edge.specs.Stops.{after_question, is_due};

use crate::Stop;
use std::marker::Model;

/// Never tells a step.
#[derive(Drop)]
pub struct NeverStop {
    asked: u64,
}

impl Model for NeverStop {
    ghost use Rattle.std.specs.Prelude.{ℕ};

    ghost Value = { ℕ };

    ghost view = { λ s. s.asked };
}

impl NeverStop {
    /// A flag that is never raised, and was not asked yet.
    pub fn new() -> Self
        ensures asked { result ≡ 0 }
    {
        NeverStop { asked: 0 }
    }
}

impl Stop for NeverStop {
    ghost use Rattle.std.specs.Prelude.{◌≤◌};
    ghost use Rattle.std.proofs.Common.{le_refl, le_trans};

    ghost asked = { λ s. s };

    ghost told = { λ s. 0 };

    ghost last = { λ s. 0 };

    ghost keeps = { λ s t. s ≤ t };

    /// Answers None.
    fn stopped(&mut self) -> Option<u64>
        ensures never { result ≡ None }
        ensures asked { self.new ≡ told_count self.old 1 }
        ensures asked_later { self.old ≤ self.new }
    {
        self.asked = self.asked.saturating_add(1);
        None
    }

    ghost keeps_same = { λ s. le_refl s };

    ghost keeps_on = { λ a b c. λ p q. le_trans {n = a} {m = b} {k = c} p q };
}

/// Tells a step to each question but the first few.
#[derive(Drop)]
pub struct StopAfter {
    asked: u64,
    told: u64,
    questions: u64,
    step: u64,
}

impl Model for StopAfter {
    ghost use Rattle.pdq_edge.specs.Stops.{Flag};

    ghost Value = { Flag };

    ghost view = { λ s. record { questions = s.questions; step = s.step; asked = s.asked; told = s.told } };
}

impl StopAfter {
    /// A flag that answers None to so many questions, and then always tells this step.
    pub fn new(questions: u64, step: u64) -> Self
        ensures fresh { result ≡ record { questions = questions; step = step; asked = 0; told = 0 } }
    {
        StopAfter {
            asked: 0,
            told: 0,
            questions,
            step,
        }
    }
}

impl Stop for StopAfter {
    ghost use Rattle.std.specs.Prelude.{◌≤◌};
    ghost use Rattle.std.proofs.Common.{le_refl, le_trans};

    ghost asked = { λ s. s.asked };

    ghost told = { λ s. s.told };

    ghost last = { λ s. s.step };

    ghost keeps = { λ s t. s.asked ≤ t.asked };

    /// Tells the step once so many questions were asked.
    fn stopped(&mut self) -> Option<u64>
        ensures tells { result ≡ (if is_due self.old then Some self.old.step else None) }
        ensures after { self.new ≡ after_question self.old }
        ensures asked_later { self.old.asked ≤ self.new.asked }
        ensures told_later { self.old.told ≤ self.new.told }
    {
        let asked = self.asked;
        self.asked = asked.saturating_add(1);
        if asked < self.questions {
            return None;
        }
        self.told = self.told.saturating_add(1);
        Some(self.step)
    }

    ghost keeps_same = { λ s. le_refl s.asked };

    ghost keeps_on = { λ a b c. λ p q. le_trans {n = a.asked} {m = b.asked} {k = c.asked} p q };
}
