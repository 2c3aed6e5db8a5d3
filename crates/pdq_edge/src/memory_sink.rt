ghost use Rattle.std.specs.Prelude.{◌≡◌, ◌<◌, ◌-◌, ◌↔◌, ◌⊎◌, Contains, IfOk, IfSome, IsErr, Ok, OnErr, OnOk, Some, [], length, min, take};
ghost use Rattle.pdq_edge.specs.Bytes.{Grows};
ghost use Rattle.pdq_edge.specs.Causes.{HasCause};
ghost use Rattle.pdq_edge.specs.InMemory.{Overfills, sink_failed, sink_flushed, sink_written};

use crate::calls::FailingCalls;
use crate::{Failed, Sink};
use pdq_base::Memory;
use std::alloc::Global;
use std::marker::Model;

/// A sink in memory that never fails. Once memory was wanting for a piece, it no longer tells what it holds, and from
/// the next flush on not what it handed on.
#[derive(Drop)]
pub struct SureSink {
    bytes: Vec<u8>,
    wanting: bool,
    flushed: usize,
    flush_wanting: bool,
}

impl Model for SureSink {
    ghost use Rattle.std.specs.Prelude.{◌≤◌, Option, None, Some, take, vec_len, if◌then◌else◌};
    ghost use Rattle.pdq_edge.specs.InMemory.{SinkBytes};

    ghost Value = { SinkBytes };

    ghost view = { λ s. record { written = if s.wanting then None else Some s.bytes.items; flushed = if s.flush_wanting then None else Some (take s.flushed s.bytes.items) } };

    ghost invariant = { λ s. s.flushed ≤ vec_len s.bytes };
}

impl SureSink {
    /// An empty sink.
    pub fn new(alloc: Global) -> Self
        ensures empty { result ≡ record { written = Some []; flushed = Some [] } }
    {
        SureSink {
            bytes: Vec::new(alloc),
            wanting: false,
            flushed: 0,
            flush_wanting: false,
        }
    }

    /// The bytes that it holds, where it tells them.
    pub fn bytes(&self) -> &[u8]
        ensures bytes { IfSome self.now.written (λ bytes. result.now ≡ bytes) }
    {
        &self.bytes
    }
}

impl Sink for SureSink {
    ghost written = { λ s. s.written };

    ghost flushed = { λ s. s.flushed };

    ghost faults = { λ s. 0 };

    /// Takes the whole piece.
    fn write(&mut self, from: &[u8]) -> Result<usize, Failed>
        ensures whole { result ≡ Ok (length from.now) }
        ensures bytes { Grows self.old.written self.new.written from.now }
        ensures flushed { self.new.flushed ≡ self.old.flushed }
    {
        if self.bytes.extend_from_slice(from).is_err() {
            self.wanting = true;
        }
        Ok(from.len())
    }

    fn flush(&mut self) -> Result<(), Failed> {
        self.flushed = self.bytes.len();
        self.flush_wanting = self.wanting;
        Ok(())
    }
}

/// A sink in memory with room for so many bytes, of whose calls those with the listed numbers fail. Writes and
/// flushes are counted together, from 0.
#[derive(Drop)]
pub struct MemSink {
    bytes: Vec<u8>,
    flushed: usize,
    room: usize,
    calls: FailingCalls,
}

impl Model for MemSink {
    ghost use Rattle.std.specs.Prelude.{◌≤◌, take, vec_capacity, vec_len};
    ghost use Rattle.pdq_edge.specs.InMemory.{FailingSink};

    ghost Value = { FailingSink };

    ghost view = { λ s. record { bytes = s.bytes.items; flushed = take s.flushed s.bytes.items; room = s.room; calls = s.calls } };

    ghost invariant = { λ s. (s.room ≤ vec_capacity s.bytes) × (vec_len s.bytes ≤ s.room) × (s.flushed ≤ vec_len s.bytes) };
}

impl MemSink {
    ghost use Rattle.std.specs.Prelude.{◌≡◌, IfOk};
    ghost use Rattle.pdq_edge.specs.InMemory.{fresh_sink};

    /// An empty sink with room for `room` bytes, whose calls with the numbers in `fails` fail. It takes all its
    /// memory here.
    pub fn new(alloc: Global, room: usize, fails: Vec<u64>) -> Result<Self, Memory>
        ensures fresh { IfOk result (λ sink. sink ≡ fresh_sink room fails.items) }
    {
        let bytes = Vec::with_capacity(alloc, room).map_err(|_| Memory)?;
        Ok(MemSink {
            bytes,
            flushed: 0,
            room,
            calls: FailingCalls::new(fails),
        })
    }

    /// The bytes that it holds.
    pub fn bytes(&self) -> &[u8]
        ensures bytes { result.now ≡ self.now.bytes }
    {
        &self.bytes
    }
}

impl Sink for MemSink {
    ghost written = { λ s. Some s.bytes };

    ghost flushed = { λ s. Some s.flushed };

    ghost faults = { λ s. s.calls.faults };

    /// Takes of a piece what fits. Fails exactly at the listed calls, and where a piece has bytes and none fits.
    fn write(&mut self, from: &[u8]) -> Result<usize, Failed>
        ensures listed { IsErr result ↔ (Contains self.old.calls.fails self.old.calls.made ⊎ Overfills self.old from.now) }
        ensures some { 0 < length from.now → IfOk result (λ n. 0 < n) }
        ensures count { IfOk result (λ n. n ≡ min (length from.now) (self.old.room - length self.old.bytes)) }
        ensures ok { IfOk result (λ n. self.new ≡ sink_written self.old (take n from.now)) }
        ensures err { OnErr result (self.new ≡ sink_failed self.old) }
        ensures cause { HasCause self.old.calls.faults self.new.calls.faults result }
    {
        let fits = from.len().min(self.room - self.bytes.len());
        if self.calls.fails() || (fits == 0 && !from.is_empty()) {
            self.calls.fault();
            return Err(Failed);
        }
        match self.bytes.extend_from_slice(&from[..fits]) {
            Ok(()) => Ok(fits),
            Err(_) => unreachable!(),
        }
    }

    /// Fails exactly at the listed calls.
    fn flush(&mut self) -> Result<(), Failed>
        ensures listed { IsErr result ↔ Contains self.old.calls.fails self.old.calls.made }
        ensures ok { OnOk result (self.new ≡ sink_flushed self.old) }
        ensures err { OnErr result (self.new ≡ sink_failed self.old) }
        ensures cause { HasCause self.old.calls.faults self.new.calls.faults result }
    {
        if self.calls.fails() {
            self.calls.fault();
            return Err(Failed);
        }
        self.flushed = self.bytes.len();
        Ok(())
    }
}
