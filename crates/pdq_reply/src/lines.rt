//! The lines of a source, however its reads cut them.
ghost use Rattle.std.specs.Prelude.{◌≡◌, ◌≢◌, ◌+◌, ◌<◌, ◌≤◌, ◌++◌, [], None, is_some, false, length, vec_len, vec_capacity, take, drop, take_while, IfNone, IfOk, IfSome, IsTrue, OnErr, OnOk};
ghost use Rattle.pdq_edge.specs.Causes.{HasCause, Rose};
ghost use Rattle.pdq_base.specs.Lines.{before_end, without_return};
ghost use Rattle.pdq_reply.specs.Reading.{remaining, Does, IsAtEnd, Reads, ReadsMore, decided};

use pdq_base::{Memory, without_return};
use pdq_edge::{Failed, Source};
use std::alloc::Global;
use std::marker::Model;

// The most bytes before a line end, and the most bytes of an input.
const MOST_LINE: usize = 8192;

const MOST_INPUT: usize = 16777216;

// The most bytes of one read.
const MOST_READ: usize = 8192;

/// What comes of looking for the next line.
#[derive(Clone, Copy, Debug, PartialEq, Eq)]
pub enum LineOutcome {
    /// A line was given.
    Line,
    /// The input has ended, and no line is left.
    End,
    /// 8,193 bytes came without a line end.
    LineTooLong,
    /// Byte 16,777,217 of the input came before the line ended.
    InputTooLong,
    /// The source failed.
    Failed,
}

// How many bytes stand before the first line end.
fn line_len(held: &[u8]) -> usize
    ensures value { result ≡ length (before_end held.now) }
    ensures bound { result ≤ length held.now }
{
    held.iter().take_while(|b| **b != b'\n').count()
}

// What these bytes decide of the next line, where so many bytes of the input stand before it.
fn decided(given: u32, held: &[u8]) -> Option<LineOutcome>
    ensures value { result ≡ decided given held.now }
{
    let count = line_len(held);
    let ended = count < held.len();
    let size = count + usize::from(ended);
    if MOST_INPUT < given as usize + size.min(MOST_LINE + 1) {
        Some(LineOutcome::InputTooLong)
    } else if MOST_LINE < count {
        Some(LineOutcome::LineTooLong)
    } else if ended {
        Some(LineOutcome::Line)
    } else {
        None
    }
}

// Adds bytes that there is room for.
fn add_in_room(bytes: &mut Vec<u8>, more: &[u8])
    requires room { vec_len bytes.old + length more.now ≤ vec_capacity bytes.old }
    ensures items { bytes.new.items ≡ bytes.old.items ++ more.now }
    ensures room { vec_capacity bytes.old ≤ vec_capacity bytes.new }
{
    match bytes.extend_from_slice(more) {
        Ok(()) => {}
        Err(_) => unreachable!(),
    }
}

/// A reader of lines. It counts the bytes that it gives out, against the limits of a line, 8,192 bytes before its
/// line end, and of the input, 16,777,216 bytes.
#[derive(Drop)]
pub struct LineReader {
    // What was taken: the bytes before `at` were given out.
    bytes: Vec<u8>,
    at: usize,
    line: Vec<u8>,
    given: u32,
    last: bool,
}

impl Model for LineReader {
    ghost use Rattle.std.specs.Prelude.{◌≤◌, drop, vec_capacity, vec_len};
    ghost use Rattle.pdq_reply.specs.Reading.{Reader, HasRoom};

    ghost Value = { Reader };

    ghost view = { λ r. record { given = r.given; buffered = drop r.at r.bytes.items; line = r.line.items; last = r.last } };

    ghost invariant = { λ r. HasRoom r.at (vec_len r.bytes) (vec_capacity r.bytes) (vec_capacity r.line) r.given };
}

impl LineReader {
    ghost use Rattle.pdq_reply.specs.Reading.{IsUndecided, Keeps, fresh_reader, given_from};

    /// A reader that took nothing. It takes all its memory here.
    pub fn new(alloc: Global) -> Result<LineReader, Memory>
        ensures fresh { IfOk result (λ reader. reader ≡ fresh_reader) }
    {
        let bytes = Vec::with_capacity(alloc, MOST_LINE + MOST_READ).map_err(|_| Memory)?;
        let line = Vec::with_capacity(alloc, MOST_LINE).map_err(|_| Memory)?;
        Ok(LineReader {
            bytes,
            at: 0,
            line,
            given: 0,
            last: false,
        })
    }

    /// What the line says that was given last, without its line end and one byte 13 before it.
    pub fn line(&self) -> &[u8]
        ensures line { result.now ≡ self.now.line }
    {
        &self.line
    }

    /// Whether the end of the input ended the line that was given last.
    pub fn is_last(&self) -> bool
        ensures last { result ≡ self.now.last }
    {
        self.last
    }

    // The bytes that were taken and not given out.
    fn held(&self) -> &[u8]
        ensures held { result.now ≡ self.now.buffered }
    {
        &self.bytes[self.at..]
    }

    // What they decide of the next line.
    fn decision(&self) -> Option<LineOutcome>
        ensures value { result ≡ decided self.now.given self.now.buffered }
    {
        decided(self.given, self.held())
    }

    // Gives out so many bytes, of which the first `count` are a line.
    fn give(&mut self, count: usize, size: usize)
        requires line { count ≤ size }
        requires held { size ≤ length self.old.buffered }
        requires short { count ≤ 8192 }
        requires early { self.old.given + size ≤ 16777216 }
        ensures given { self.new ≡ given_from self.old count size }
    {
        let held = &self.bytes[self.at..];
        self.line.clear();
        add_in_room(&mut self.line, without_return(&held[..count]));
        self.at += size;
        self.given += size as u32;
        self.last = count == size;
    }

    // Gives the next line, where the bytes at hand have it, or says which limit they pass.
    fn take_held(&mut self) -> Option<LineOutcome>
        ensures none { IfNone result (IsUndecided self.old self.new) }
        ensures was { IfNone result (decided self.old.given self.old.buffered ≡ None) }
        ensures some { IfSome result (λ which. Does which self.old.given self.old.buffered self.new) }
        ensures on { IfSome result (λ which. IsAtEnd which self.new → ⊥) }
        ensures sound { IfSome result (λ which. which ≢ LineOutcome.Failed) }
    {
        let outcome = self.decision();
        if let Some(LineOutcome::Line) = outcome {
            let count = line_len(self.held());
            self.give(count, count + 1);
            return Some(LineOutcome::Line);
        }
        outcome
    }

    // The input has ended: what is left is the last line, where there is something.
    fn take_rest(&mut self) -> LineOutcome
        requires undecided { decided self.old.given self.old.buffered ≡ None }
        ensures does { Does result self.old.given self.old.buffered self.new }
        ensures at_end { IsAtEnd result self.new }
    {
        let count = self.held().len();
        if count == 0 {
            return LineOutcome::End;
        }
        self.give(count, count);
        LineOutcome::Line
    }

    // Reads once.
    fn read_more<So: Source>(&mut self, source: &mut So) -> Result<usize, Failed>
        requires few { length self.old.buffered ≤ 8192 }
        ensures more { IfOk result (λ n. ReadsMore n (So.left source.old) (So.left source.new) (So.taken source.old) (So.taken source.new) self.old self.new) }
        ensures ended { IfOk result (λ n. n ≡ 0 → IsTrue (So.ended source.new)) }
        ensures err { OnErr result (Keeps self.old.given self.old.buffered self.new) }
        ensures err_left { OnErr result (So.left source.new ≡ So.left source.old) }
        ensures err_taken { OnErr result (So.taken source.new ≡ So.taken source.old) }
        ensures cause { HasCause (So.faults source.old) (So.faults source.new) result }
    {
        let mut piece = [0; MOST_READ];
        let n = source.read(&mut piece)?;
        let kept = self.bytes.len() - self.at;
        self.bytes.rotate_left(self.at);
        self.bytes.truncate(kept);
        self.at = 0;
        add_in_room(&mut self.bytes, &piece[..n]);
        Ok(n)
    }

    /// Gives the next line, which `line` then has, and reads as often as it takes. What was taken before a failure is
    /// kept, so that a later call goes on from there.
    pub fn next_line<So: Source>(&mut self, source: &mut So) -> LineOutcome
        ensures reads { Reads result (So.left source.old) (So.left source.new) (So.taken source.old) (So.taken source.new) self.old self.new }
        ensures ended { IsAtEnd result self.new → IsTrue (So.ended source.new) }
        ensures none_left { IsAtEnd result self.new → remaining (So.left source.old) (So.left source.new) ≡ [] }
        ensures undecided { result ≡ LineOutcome.Failed → decided self.new.given self.new.buffered ≡ None }
        ensures sure { result ≡ LineOutcome.Failed → decided self.old.given self.old.buffered ≡ None }
        ensures failed { result ≡ LineOutcome.Failed → Rose (So.faults source.old) (So.faults source.new) }
        ensures passed { result ≢ LineOutcome.Failed → So.faults source.new ≡ So.faults source.old }
    {
        'reads: loop {
            if let Some(outcome) = self.take_held() {
                return outcome;
            }
            let Ok(n) = self.read_more(source) else {
                return LineOutcome::Failed;
            };
            if n == 0 {
                return self.take_rest();
            }
        }
    }

    /// Whether the bytes at hand decide the next line, so that `next_line` does not read.
    pub fn has_line(&self) -> bool
        ensures decided { result ≡ is_some (decided self.now.given self.now.buffered) }
    {
        self.decision().is_some()
    }
}
