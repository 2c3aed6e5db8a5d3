ghost use Rattle.std.specs.Prelude.{◌≡◌, ◌+◌, ◌<◌, ◌≤◌, IsTrue, Some, drop, length, min, take};
ghost use Rattle.pdq_edge.specs.Bytes.{Gives};

use std::marker::Model;

/// Copies what comes next, at most `most` bytes, as far as there is room.
fn copy_next(from: &[u8], at: usize, into: &mut [u8], most: usize) -> usize
    requires within { at ≤ length from.now }
    requires room { 0 < length into.old }
    requires most { 0 < most }
    ensures count { result ≡ min (min most (length into.old)) (length (drop at from.now)) }
    ensures within { at + result ≤ length from.now }
    ensures bytes { Gives (Some (drop at from.now)) (Some (drop (at + result) from.now)) (take result into.new) }
{
    let next = &from[at..];
    let n = most.min(into.len()).min(next.len());
    into[..n].copy_from_slice(&next[..n]);
    n
}

/// Bytes in memory that are read from the front.
#[derive(Drop)]
pub(crate) struct UnreadBytes {
    bytes: Vec<u8>,
    at: usize,
    taken: u64,
    ended: bool,
}

impl Model for UnreadBytes {
    ghost use Rattle.std.specs.Prelude.{◌≡◌, ◌≤◌, IsTrue, drop, length};
    ghost use Rattle.pdq_edge.specs.InMemory.{Unread};

    ghost Value = { Unread };

    ghost view = { λ u. record { left = drop u.at u.bytes.items; taken = u.taken; ended = u.ended } };

    ghost invariant = { λ u. (u.at ≤ length u.bytes.items) × (IsTrue u.ended → u.at ≡ length u.bytes.items) };
}

impl UnreadBytes {
    ghost use Rattle.std.specs.Prelude.{false};
    ghost use Rattle.pdq_edge.specs.InMemory.{after_read};

    /// Bytes of which none was read yet.
    pub fn new(bytes: Vec<u8>) -> Self
        ensures unread { result ≡ record { left = bytes.items; taken = 0; ended = false } }
    {
        UnreadBytes {
            bytes,
            at: 0,
            taken: 0,
            ended: false,
        }
    }

    /// Copies what comes next, at most `most` bytes, as far as there is room.
    pub fn read(&mut self, into: &mut [u8], most: usize) -> usize
        requires room { 0 < length into.old }
        requires most { 0 < most }
        ensures count { result ≡ min (min most (length into.old)) (length self.old.left) }
        ensures bytes { Gives (Some self.old.left) (Some self.new.left) (take result into.new) }
        ensures unread { self.new ≡ after_read self.old result }
        ensures stays { IsTrue self.old.ended → result ≡ 0 }
    {
        let n = copy_next(&self.bytes, self.at, into, most);
        self.at += n;
        self.taken = self.taken.saturating_add(n as u64);
        if n == 0 {
            self.ended = true;
        }
        n
    }
}
