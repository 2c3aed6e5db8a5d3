//! Rows in frames.
ghost use Rattle.std.specs.Prelude.{◌≡◌, ◌+◌, ◌-◌, ◌*◌, ◌/◌, ◌%◌, ◌^◌, ◌<◌, ◌≤◌, length, slice_get, slice_index_or, Some, None, IfSome, MatchOption, true, false};
ghost use Rattle.pdq_frame.specs.Regions.{room, cleared, HasSameShape, with_row, with_words, with_head, with_child, with_side, words_at, link_at, child_at, child_on, half_of, word_of, link_of, word_of_children, children_of};

use crate::slot::Slot;
use crate::stock::Stock;
use std::alloc::Global;
use std::marker::Model;

/// Frames out of a pool, with heads and rows in them. It must be spent: given back to a pool, split, or handed on.
///
/// The first frames hold 512 heads each. A row of `width` words stands with one more word behind it, so each other frame holds
/// 512 / (width + 1) rows. That word has two readings: up to 2^32 it is the row's link, as in a chain; above, it is the row's
/// two children, as in a binary tree. A row with a link has no children, and one with children has no link.
pub struct Region {
    stock: Stock,
    heads: u32,
    width: u32,
    rows_per_frame: u32,
    rows: u32,
}

impl Model for Region {
    ghost use Rattle.std.specs.Prelude.{length};
    ghost use Rattle.pdq_frame.specs.Regions.{RegionView, rows_of, heads_of, all_children, IsRegion};

    ghost Value = { RegionView };

    ghost view = { λ a. record { frames = length a.stock; width = a.width; heads = heads_of a.heads a.stock; rows = rows_of a.heads a.width a.rows a.stock; children = all_children a.heads a.width a.rows a.stock } };

    ghost invariant = { λ a. IsRegion a.heads a.width a.rows_per_frame a.rows a.stock };
}

/// The word that a link is kept as: 0 for none, else the number of the row and 1.
fn word(link: Option<Slot>) -> i64
    ensures value { result ≡ word_of link }
{
    match link {
        None => 0,
        Some(slot) => slot.number as i64 + 1,
    }
}

/// The link that is kept as a word.
fn link(word: i64) -> Option<Slot>
    ensures value { result ≡ link_of word }
{
    if word <= 0 || word > 4294967296 {
        None
    } else {
        Some(Slot {
            number: (word - 1) as u32,
        })
    }
}

/// The half of a word that a child is kept as: 0 for none, else the number of the row and 1.
fn half(child: Option<Slot>) -> u64
    ensures value { result ≡ half_of child }
{
    match child {
        None => 0,
        Some(slot) => slot.number as u64 + 1,
    }
}

/// The word that two children are kept as, which is above each word of a link.
fn children_word(left: Option<Slot>, right: Option<Slot>) -> i64
    requires left { half_of left < 2 ^ 30 }
    requires right { half_of right < 2 ^ 30 }
    ensures value { result ≡ word_of_children (record { left = left; right = right }) }
{
    (4294967297 + half(left) + 4294967296 * half(right)) as i64
}

/// The child to one side that is kept in a word: the right one, or the left.
fn child_in(word: i64, right: bool) -> Option<Slot>
    ensures value { result ≡ child_on (children_of word) right }
{
    if word <= 4294967296 {
        return None;
    }
    let halves = word as u64 - 4294967297;
    let half = if right {
        halves / 4294967296
    } else {
        halves % 4294967296
    };
    if half == 0 {
        None
    } else {
        Some(Slot {
            number: (half - 1) as u32,
        })
    }
}

/// The word of the same children but for the one to this side.
fn word_with_child(word: i64, right: bool, to: Option<Slot>) -> i64
    requires left { half_of (child_on (children_of word) false) < 2 ^ 30 }
    requires right { half_of (child_on (children_of word) true) < 2 ^ 30 }
    requires to { half_of to < 2 ^ 30 }
    ensures value { result ≡ word_of_children (with_side (children_of word) right to) }
{
    if right {
        children_word(child_in(word, false), to)
    } else {
        children_word(to, child_in(word, true))
    }
}

impl Region {
    /// A region of these frames, with no head and no row.
    pub(crate) fn fresh(stock: Stock) -> Region
        requires few { length stock ≤ 262144 }
        ensures value { result ≡ cleared (length stock) 0 511 }
    {
        Region {
            stock,
            heads: 0,
            width: 511,
            rows_per_frame: 1,
            rows: 0,
        }
    }

    /// Where the region's memory came from.
    pub(crate) fn allocator(&self) -> Global {
        self.stock.allocator()
    }

    /// The frames alone.
    pub(crate) fn into_stock(self) -> Stock
        ensures count { length result ≡ self.frames }
        ensures few { length result ≤ 262144 }
    {
        let Region {
            stock,
            heads: _,
            width: _,
            rows_per_frame: _,
            rows: _,
        } = self;
        stock
    }

    /// Makes the first `heads` frames into 512 empty heads each, and the others into room for rows of `width` words. No row stands.
    pub fn reset(&mut self, heads: u32, width: u32)
        requires heads { heads < self.old.frames }
        requires low { 1 ≤ width }
        requires high { width ≤ 511 }
        ensures value { self.new ≡ cleared self.old.frames heads width }
    {
        self.stock.clear_first(heads as usize);
        self.heads = heads;
        self.width = width;
        self.rows_per_frame = 512 / (width + 1);
        self.rows = 0;
    }

    /// The frames of the region.
    pub fn frames(&self) -> u32
        ensures value { result ≡ self.now.frames }
    {
        self.stock.count() as u32
    }

    /// How many more rows can be put.
    pub fn room(&self) -> u64
        ensures value { result ≡ room self.now }
    {
        ((self.stock.count() as u32 - self.heads) * self.rows_per_frame - self.rows) as u64
    }

    /// Puts one more row, with a link to one that stands; None, with nothing changed, exactly where there is no room.
    pub fn put(&mut self, row: &[i64], to: Option<Slot>) -> Option<Slot>
        requires width { length row.now ≡ self.old.width }
        requires stands { IfSome to (λ slot. slot < length self.old.rows) }
        ensures shape { HasSameShape self.old self.new }
        ensures row { MatchOption result ((room self.old ≡ 0) × (self.new ≡ self.old)) (λ slot. (0 < room self.old) × (slot ≡ length self.old.rows) × (self.new ≡ with_row self.old (record { words = row.now; link = to }))) }
    {
        let number = self.rows;
        if (self.stock.count() as u32 - self.heads) * self.rows_per_frame <= number {
            return None;
        }
        let frame = (self.heads + number / self.rows_per_frame) as usize;
        let at = ((number % self.rows_per_frame) * (self.width + 1)) as usize;
        self.stock.store(frame, at, row, word(to));
        self.rows = number + 1;
        Some(Slot { number })
    }

    /// Replaces the words of a row that stands. Its link, or its children, are kept.
    pub fn write(&mut self, slot: Slot, row: &[i64])
        requires stands { slot < length self.old.rows }
        requires width { length row.now ≡ self.old.width }
        ensures value { self.new ≡ with_words self.old slot row.now }
    {
        let frame = (self.heads + slot.number / self.rows_per_frame) as usize;
        let at = ((slot.number % self.rows_per_frame) * (self.width + 1)) as usize;
        self.stock.overwrite(frame, at, row);
    }

    /// The row that was put at this place in order, counted from 0 since `reset`; None where fewer stand.
    pub fn slot(&self, number: u32) -> Option<Slot>
        ensures slot { MatchOption result (length self.now.rows ≤ number) (λ slot. (slot ≡ number) × (number < length self.now.rows)) }
        ensures few { length self.now.rows ≤ 4294967295 }
    {
        if number < self.rows {
            Some(Slot { number })
        } else {
            None
        }
    }

    /// The words of a row that stands, and its link, which leads to an earlier row.
    pub fn read(&self, slot: Slot) -> (&[i64], Option<Slot>)
        requires stands { slot < length self.now.rows }
        ensures row { slice_get self.now.rows slot ≡ Some (record { words = result.0.now; link = result.1 }) }
        ensures width { length result.0.now ≡ self.now.width }
        ensures earlier { IfSome result.1 (λ other. other < slot) }
    {
        let words = self
            .stock
            .frame((self.heads + slot.number / self.rows_per_frame) as usize);
        let at = ((slot.number % self.rows_per_frame) * (self.width + 1)) as usize;
        let end = at + self.width as usize;
        (&words[at..end], link(words[end]))
    }

    /// The row that the head of a bucket leads to, which stands.
    pub fn head(&self, bucket: u32) -> Option<Slot>
        requires bucket { bucket < length self.now.heads }
        ensures head { slice_get self.now.heads bucket ≡ Some result }
        ensures stands { IfSome result (λ slot. slot < length self.now.rows) }
    {
        link(self.stock.frame((bucket / 512) as usize)[(bucket % 512) as usize])
    }

    /// Lets the head of a bucket lead to a row that stands, or to none.
    pub fn set_head(&mut self, bucket: u32, to: Option<Slot>)
        requires bucket { bucket < length self.old.heads }
        requires stands { IfSome to (λ slot. slot < length self.old.rows) }
        ensures value { self.new ≡ with_head self.old bucket to }
    {
        self.stock.store(
            (bucket / 512) as usize,
            (bucket % 512) as usize,
            &[],
            word(to),
        );
    }

    /// The words of a row that stands, and its child to one side: the right one, or the left. A child is a later row that stands.
    pub fn branch(&self, slot: Slot, right: bool) -> (&[i64], Option<Slot>)
        requires stands { slot < length self.now.rows }
        ensures words { result.0.now ≡ words_at self.now slot }
        ensures width { length result.0.now ≡ self.now.width }
        ensures child { result.1 ≡ child_at self.now slot right }
        ensures later { IfSome result.1 (λ other. (slot < other) × (other < length self.now.rows)) }
    {
        let words = self
            .stock
            .frame((self.heads + slot.number / self.rows_per_frame) as usize);
        let at = ((slot.number % self.rows_per_frame) * (self.width + 1)) as usize;
        let end = at + self.width as usize;
        (&words[at..end], child_in(words[end], right))
    }

    /// Gives a row that stands and has no link a child to one side: a later row that stands, or none. The other child is kept.
    pub fn set_child(&mut self, slot: Slot, right: bool, to: Option<Slot>)
        requires stands { slot < length self.old.rows }
        requires alone { link_at self.old slot ≡ None }
        requires later { IfSome to (λ other. (slot < other) × (other < length self.old.rows)) }
        ensures value { self.new ≡ with_child self.old slot right to }
    {
        let frame = (self.heads + slot.number / self.rows_per_frame) as usize;
        let at = ((slot.number % self.rows_per_frame) * (self.width + 1) + self.width) as usize;
        let last = word_with_child(self.stock.frame(frame)[at], right, to);
        self.stock.store(frame, at, &[], last);
    }
}
