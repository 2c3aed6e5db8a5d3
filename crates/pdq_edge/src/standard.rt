ghost use Rattle.std.specs.Prelude.{◌≡◌, ◌<◌, ◌≤◌, ◌==◌, ◌||◌, IfOk, IsTrue, OnErr, length, false};
ghost use Rattle.std.specs.Io.{ReadsAtMost};
ghost use Rattle.std.specs.Io.KnownBytes.{Keeps, ReadConsumes, WriteAppends};
ghost use Rattle.pdq_edge.specs.Bytes.{told_count};
ghost use Rattle.pdq_edge.specs.Causes.{HasCause, Rose};

use crate::{Failed, Sink, Source};
use std::io::{ErrorKind, Read, Write};
use std::marker::Model;

// How often a call is made that signals interrupt.
const TRIES: u32 = 100;

/// Reads, again where a signal interrupted the read.
pub(crate) fn read_on<R: Read>(inner: &mut R, into: &mut [u8]) -> Result<usize, Failed>
    ensures bound { ReadsAtMost result into.new }
    ensures bytes { ReadConsumes (R.remaining inner.old) (R.remaining inner.new) result into.new }
{
    'tries: for _ in 0..TRIES {
        match inner.read(into) {
            Ok(n) => return Ok(n),
            Err(e) if e.kind() == ErrorKind::Interrupted => {}
            Err(_) => return Err(Failed),
        }
    }
    Err(Failed)
}

/// Writes, again where a signal interrupted the write. That nothing is taken of a piece with bytes is a failure.
fn write_on<W: Write>(inner: &mut W, from: &[u8]) -> Result<usize, Failed>
    ensures some { 0 < length from.now → IfOk result (λ n. 0 < n) }
    ensures bound { IfOk result (λ n. n ≤ length from.now) }
    ensures bytes { WriteAppends (W.contents inner.old) (W.contents inner.new) result from.now }
{
    'tries: for _ in 0..TRIES {
        match inner.write(from) {
            Ok(n) if 0 < n || from.is_empty() => return Ok(n),
            Err(e) if e.kind() == ErrorKind::Interrupted => {}
            _ => return Err(Failed),
        }
    }
    Err(Failed)
}

/// Flushes, again where a signal interrupted that.
fn flush_on<W: Write>(inner: &mut W) -> Result<(), Failed>
    ensures bytes { Keeps (W.contents inner.old) (W.contents inner.new) }
{
    'tries: for _ in 0..TRIES {
        match inner.flush() {
            Ok(()) => return Ok(()),
            Err(e) if e.kind() == ErrorKind::Interrupted => {}
            Err(_) => return Err(Failed),
        }
    }
    Err(Failed)
}

/// A source over a reader of std, as standard input. It tells nothing of its bytes, and does not read again once
/// the reader has answered the end. A read that a signal interrupts is made again, up to 100 times.
#[derive(Drop)]
pub struct Reading<R: Read> {
    inner: R,
    taken: u64,
    ended: bool,
    faults: u64,
}

impl<R: Read> Model for Reading<R> {
    ghost use Rattle.std.specs.Prelude.{IsTrue};
    ghost use Rattle.std.specs.Io.KnownBytes.{IsAtEnd};
    ghost use Rattle.pdq_edge.specs.Standard.{Reader};

    ghost Value = { Reader };

    ghost view = { λ s. record { remaining = R.remaining s.inner; taken = s.taken; ended = s.ended; faults = s.faults } };

    ghost invariant = { λ s. IsTrue s.ended → IsAtEnd (R.remaining s.inner) };
}

impl<R: Read> Reading<R> {
    /// A source over this reader, of which nothing was read yet.
    pub fn new(inner: R) -> Self
        ensures fresh { result ≡ record { remaining = R.remaining inner; taken = 0; ended = false; faults = 0 } }
    {
        Reading {
            inner,
            taken: 0,
            ended: false,
            faults: 0,
        }
    }
}

impl<R: Read> Source for Reading<R> {
    ghost use Rattle.std.specs.Prelude.{None};

    ghost left = { λ s. None };

    ghost taken = { λ s. s.taken };

    ghost ended = { λ s. s.ended };

    ghost faults = { λ s. s.faults };

    /// Gives what the reader gives, and fails only where the reader does.
    fn read(&mut self, into: &mut [u8]) -> Result<usize, Failed>
        requires room { 0 < length into.old }
        ensures bound { ReadsAtMost result into.new }
        ensures given { ReadConsumes self.old.remaining self.new.remaining result into.new }
        ensures taken { IfOk result (λ n. self.new.taken ≡ told_count self.old.taken n) }
        ensures ended { IfOk result (λ n. self.new.ended ≡ (self.old.ended || n == 0)) }
        ensures stays { IsTrue self.old.ended → IfOk result (λ n. n ≡ 0) }
        ensures err_taken { OnErr result (self.new.taken ≡ self.old.taken) }
        ensures err_ended { OnErr result (self.new.ended ≡ self.old.ended) }
        ensures cause { HasCause self.old.faults self.new.faults result }
    {
        let taken = self.taken;
        if self.ended {
            return Ok(0);
        }
        match read_on(&mut self.inner, into) {
            Ok(n) => {
                self.taken = taken.saturating_add(n as u64);
                self.ended = n == 0;
                Ok(n)
            }
            Err(Failed) => {
                self.faults = self.faults.saturating_add(1);
                Err(Failed)
            }
        }
    }
}

/// A sink over a writer of std, as standard output. It tells nothing of its bytes. A writer that takes nothing of a
/// piece with bytes is a fault. A call that a signal interrupts is made again, up to 100 times.
#[derive(Drop)]
pub struct Writing<W: Write> {
    inner: W,
    faults: u64,
}

impl<W: Write> Model for Writing<W> {
    ghost use Rattle.pdq_edge.specs.Standard.{Writer};

    ghost Value = { Writer };

    ghost view = { λ s. record { contents = W.contents s.inner; faults = s.faults } };
}

impl<W: Write> Writing<W> {
    /// A sink over this writer.
    pub fn new(inner: W) -> Self
        ensures fresh { result ≡ record { contents = W.contents inner; faults = 0 } }
    {
        Writing { inner, faults: 0 }
    }

    // Counts a fault.
    fn fault(&mut self) -> Failed
        ensures same { self.new.contents ≡ self.old.contents }
        ensures later { self.old.faults ≤ self.new.faults }
        ensures rose { Rose self.old.faults self.new.faults }
    {
        self.faults = self.faults.saturating_add(1);
        Failed
    }
}

impl<W: Write> Sink for Writing<W> {
    ghost use Rattle.std.specs.Prelude.{None};

    ghost written = { λ s. None };

    ghost flushed = { λ s. None };

    ghost faults = { λ s. s.faults };

    /// The writer takes what is answered, and a write fails only where the writer's does or takes nothing.
    fn write(&mut self, from: &[u8]) -> Result<usize, Failed>
        ensures some { 0 < length from.now → IfOk result (λ n. 0 < n) }
        ensures bound { IfOk result (λ n. n ≤ length from.now) }
        ensures took { WriteAppends self.old.contents self.new.contents result from.now }
        ensures cause { HasCause self.old.faults self.new.faults result }
    {
        match write_on(&mut self.inner, from) {
            Ok(n) => Ok(n),
            Err(Failed) => Err(self.fault()),
        }
    }

    /// Flushes the writer, and fails only where that fails.
    fn flush(&mut self) -> Result<(), Failed>
        ensures kept { Keeps self.old.contents self.new.contents }
        ensures cause { HasCause self.old.faults self.new.faults result }
    {
        match flush_on(&mut self.inner) {
            Ok(()) => Ok(()),
            Err(Failed) => Err(self.fault()),
        }
    }
}
