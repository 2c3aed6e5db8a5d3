ghost use Rattle.std.specs.Prelude.{◌≡◌, ◌↔◌, Contains, IfOk, IsErr, IsTrue, Ok, OnErr, OnOk, Some, length};
ghost use Rattle.pdq_edge.specs.Callers.{after_knock, door_answered, door_failed, fresh_door, fresh_queue, is_closed, knock_of};
ghost use Rattle.pdq_edge.specs.Causes.{HasCause};

use crate::calls::FailingCalls;
use crate::{Door, Failed, Knock};
use std::collections::VecDeque;
use std::marker::Model;

/// A door in memory that never fails: these callers come, and then no other.
#[derive(Drop)]
pub struct SureDoor<C> {
    callers: VecDeque<C>,
    given: u64,
    closed: bool,
}

impl<C> Model for SureDoor<C> {
    ghost use Rattle.std.specs.Prelude.{◌≡◌, IsTrue, []};
    ghost use Rattle.pdq_edge.specs.Callers.{Queued};

    ghost Value = { Queued C };

    ghost view = { λ d. record { callers = d.callers.items; given = d.given; closed = d.closed } };

    ghost invariant = { λ d. IsTrue d.closed → d.callers.items ≡ [] };
}

impl<C> SureDoor<C> {
    /// A door of these callers.
    pub fn new(callers: Vec<C>) -> Self
        ensures fresh { result ≡ fresh_queue callers.items }
    {
        SureDoor {
            callers: VecDeque::from(callers),
            given: 0,
            closed: false,
        }
    }
}

impl<C> Door<C> for SureDoor<C> {
    ghost coming = { λ d. Some (length d.callers) };

    ghost given = { λ d. d.given };

    ghost closed = { λ d. d.closed };

    ghost faults = { λ d. 0 };

    /// Gives the callers in order.
    fn next(&mut self) -> Result<Knock<C>, Failed>
        ensures knock { result ≡ Ok (knock_of self.old.callers) }
        ensures after { self.new ≡ after_knock self.old }
        ensures stays { IsTrue self.old.closed → IfOk result (λ knock. IsTrue (is_closed knock)) }
    {
        match self.callers.pop_front() {
            Some(caller) => {
                self.given = self.given.saturating_add(1);
                Ok(Knock::Came(caller))
            }
            None => {
                self.closed = true;
                Ok(Knock::Closed)
            }
        }
    }
}

/// A door in memory, of whose calls those with the listed numbers fail, counted from 0.
#[derive(Drop)]
pub struct MemDoor<C> {
    door: SureDoor<C>,
    calls: FailingCalls,
}

impl<C> Model for MemDoor<C> {
    ghost use Rattle.pdq_edge.specs.Callers.{FailingDoor};

    ghost Value = { FailingDoor C };

    ghost view = { λ d. record { queue = d.door; calls = d.calls } };
}

impl<C> MemDoor<C> {
    /// A door of these callers, whose calls with the numbers in `fails` fail.
    pub fn new(callers: Vec<C>, fails: Vec<u64>) -> Self
        ensures fresh { result ≡ fresh_door callers.items fails.items }
    {
        MemDoor {
            door: SureDoor::new(callers),
            calls: FailingCalls::new(fails),
        }
    }
}

impl<C> Door<C> for MemDoor<C> {
    ghost coming = { λ d. Some (length d.queue.callers) };

    ghost given = { λ d. d.queue.given };

    ghost closed = { λ d. d.queue.closed };

    ghost faults = { λ d. d.calls.faults };

    /// Fails exactly at the listed calls, and else gives the callers in order.
    fn next(&mut self) -> Result<Knock<C>, Failed>
        ensures listed { IsErr result ↔ Contains self.old.calls.fails self.old.calls.made }
        ensures knock { IfOk result (λ knock. knock ≡ knock_of self.old.queue.callers) }
        ensures ok { OnOk result (self.new ≡ door_answered self.old) }
        ensures err { OnErr result (self.new ≡ door_failed self.old) }
        ensures stays { IsTrue self.old.queue.closed → IfOk result (λ knock. IsTrue (is_closed knock)) }
        ensures cause { HasCause self.old.calls.faults self.new.calls.faults result }
    {
        if self.calls.fails() {
            self.calls.fault();
            return Err(Failed);
        }
        self.door.next()
    }
}
