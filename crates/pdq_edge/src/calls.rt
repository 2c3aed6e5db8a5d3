ghost use Rattle.std.specs.Prelude.{◌≡◌, ◌≤◌, ◌↔◌, Contains, IsTrue};

use std::marker::Model;

/// The calls of a form in memory, of which those with the listed numbers fail. Calls are counted from 0.
#[derive(Drop)]
pub(crate) struct FailingCalls {
    made: u64,
    fails: Vec<u64>,
    faults: u64,
}

impl Model for FailingCalls {
    ghost use Rattle.pdq_edge.specs.InMemory.{Calls};

    ghost Value = { Calls };

    ghost view = { λ c. record { made = c.made; fails = c.fails.items; faults = c.faults } };
}

impl FailingCalls {
    ghost use Rattle.pdq_edge.specs.InMemory.{called, faulted};

    /// Calls of which these fail, counted from 0; none was made yet.
    pub fn new(fails: Vec<u64>) -> Self
        ensures calls { result ≡ record { made = 0; fails = fails.items; faults = 0 } }
    {
        FailingCalls {
            made: 0,
            fails,
            faults: 0,
        }
    }

    /// Counts a call, and answers whether it fails.
    pub fn fails(&mut self) -> bool
        ensures listed { IsTrue result ↔ Contains self.old.fails self.old.made }
        ensures calls { self.new ≡ called self.old }
    {
        let call = self.made;
        self.made = call.saturating_add(1);
        self.fails.contains(&call)
    }

    /// Counts a fault.
    pub fn fault(&mut self)
        ensures faults { self.new ≡ faulted self.old }
        ensures later { self.old.faults ≤ self.new.faults }
    {
        self.faults = self.faults.saturating_add(1);
    }
}
