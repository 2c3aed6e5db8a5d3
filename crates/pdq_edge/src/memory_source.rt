ghost use Rattle.std.specs.Prelude.{◌≡◌, ◌<◌, ◌↔◌, Contains, IfOk, IsErr, IsTrue, OnErr, Some, false, length, min, take};
ghost use Rattle.std.specs.Io.{ReadsAtMost};
ghost use Rattle.pdq_edge.specs.Bytes.{Gives};
ghost use Rattle.pdq_edge.specs.Causes.{HasCause};
ghost use Rattle.pdq_edge.specs.InMemory.{source_failed, source_read};

use crate::calls::FailingCalls;
use crate::unread::UnreadBytes;
use crate::{Failed, Source};
use std::marker::Model;

/// A source over bytes in memory that never fails.
#[derive(Drop)]
pub struct SureSource {
    unread: UnreadBytes,
}

impl Model for SureSource {
    ghost use Rattle.pdq_edge.specs.InMemory.{Unread};

    ghost Value = { Unread };

    ghost view = { λ s. s.unread };
}

impl SureSource {
    /// A source of these bytes.
    pub fn new(bytes: Vec<u8>) -> Self
        ensures unread { result ≡ record { left = bytes.items; taken = 0; ended = false } }
    {
        SureSource {
            unread: UnreadBytes::new(bytes),
        }
    }
}

impl Source for SureSource {
    ghost left = { λ s. Some s.left };

    ghost taken = { λ s. s.taken };

    ghost ended = { λ s. s.ended };

    ghost faults = { λ s. 0 };

    fn read(&mut self, into: &mut [u8]) -> Result<usize, Failed> {
        Ok(self.unread.read(into, usize::MAX))
    }
}

/// A source over bytes in memory, of whose reads those with the listed numbers fail. Reads are counted from 0.
#[derive(Drop)]
pub struct MemSource {
    unread: UnreadBytes,
    most: usize,
    calls: FailingCalls,
}

impl Model for MemSource {
    ghost use Rattle.std.specs.Prelude.{◌<◌};
    ghost use Rattle.pdq_edge.specs.InMemory.{FailingSource};

    ghost Value = { FailingSource };

    ghost view = { λ s. record { unread = s.unread; most = s.most; calls = s.calls } };

    ghost invariant = { λ s. 0 < s.most };
}

impl MemSource {
    ghost use Rattle.std.specs.Prelude.{◌≡◌, ◌<◌};
    ghost use Rattle.pdq_edge.specs.InMemory.{fresh_source};

    /// A source of these bytes whose reads with the numbers in `fails` fail.
    pub fn new(bytes: Vec<u8>, fails: Vec<u64>) -> Self
        ensures fresh { result ≡ fresh_source bytes.items fails.items usize.MAX }
    {
        Self::with_most(bytes, fails, usize::MAX)
    }

    /// The same, where one read gives at most `most` bytes, which is not 0.
    pub fn with_most(bytes: Vec<u8>, fails: Vec<u64>, most: usize) -> Self
        requires most { 0 < most }
        ensures fresh { result ≡ fresh_source bytes.items fails.items most }
    {
        MemSource {
            unread: UnreadBytes::new(bytes),
            most,
            calls: FailingCalls::new(fails),
        }
    }
}

impl Source for MemSource {
    ghost left = { λ s. Some s.unread.left };

    ghost taken = { λ s. s.unread.taken };

    ghost ended = { λ s. s.unread.ended };

    ghost faults = { λ s. s.calls.faults };

    /// Fails exactly at the listed calls, and else gives all that there is room for.
    fn read(&mut self, into: &mut [u8]) -> Result<usize, Failed>
        requires room { 0 < length into.old }
        ensures listed { IsErr result ↔ Contains self.old.calls.fails self.old.calls.made }
        ensures bound { ReadsAtMost result into.new }
        ensures count { IfOk result (λ n. n ≡ min (min self.old.most (length into.old)) (length self.old.unread.left)) }
        ensures bytes { IfOk result (λ n. Gives (Some self.old.unread.left) (Some self.new.unread.left) (take n into.new)) }
        ensures stays { IsTrue self.old.unread.ended → IfOk result (λ n. n ≡ 0) }
        ensures ok { IfOk result (λ n. self.new ≡ source_read self.old n) }
        ensures err { OnErr result (self.new ≡ source_failed self.old) }
        ensures cause { HasCause self.old.calls.faults self.new.calls.faults result }
    {
        if self.calls.fails() {
            self.calls.fault();
            return Err(Failed);
        }
        Ok(self.unread.read(into, self.most))
    }
}
