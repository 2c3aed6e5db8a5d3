//! Groups in a region, found by their keys.
//!
//! The hash of a key chooses one of the region's heads. Under each head stands a binary tree of groups: a walk begins at the head's row,
//! and at each row with another key it goes on to the left or the right child by the next bit of the hash. A new group becomes the
//! child at which the walk for its key ends. With one frame of heads, however many groups there are, a walk is then as long as the logarithm
//! of the groups under a head.
ghost use Rattle.std.specs.Prelude.{◌≡◌, ℕ, List, ◌+◌, ◌<◌, ◌≤◌, length, take, Some, None, IfSome, slice_index_or, slice_set, IsTrue, ◌↔◌};
ghost use Rattle.pdq_frame.specs.Regions.{Children, child_at, child_on, no_children};
ghost use Rattle.pdq_group.specs.Trees.{further, side, rest, hash_of, bucket_of, AreTrees, Found, Grown, Reaches, words_in, key_at, Added};

use pdq_frame::{Region, Slot};
use pdq_spill::{GROUP_FACTOR, mixed, reduced};

/// The bits of a hash that its reduction to a head leaves over, the first of them on top.
fn further(heads: u32, hash: u64) -> u64
    ensures value { result ≡ further heads hash }
{
    hash.wrapping_mul(heads as u64)
}

/// The side to which the top bit leads: the right one, or the left.
fn side(bits: u64) -> bool
    ensures value { result ≡ side bits }
{
    bits >= 9223372036854775808
}

/// The bits behind the top one. Zeros follow them, so that a walk whose bits are used up goes on to the left.
fn rest(bits: u64) -> u64
    ensures value { result ≡ rest bits }
{
    bits.wrapping_mul(2)
}

/// The hash of a key.
#[tactic(auto, unfolding(crate::specs::Trees::hash_of))]
fn hash_of(key: &[i64]) -> u64
    ensures value { result ≡ hash_of key.now }
{
    let mut hash = 0;
    for word in key {
        hash = mixed(GROUP_FACTOR, hash, *word);
    }
    hash
}

/// Whether the first words of a row are a key.
fn begins_with(row: &[i64], key: &[i64]) -> bool
    requires wide { length key.now ≤ length row.now }
    ensures same { IsTrue result ↔ (take (length key.now) row.now ≡ key.now) }
{
    for (i, word) in key.iter().enumerate() {
        if row[i] != *word {
            return false;
        }
    }
    true
}

/// The group of a key, if there is one.
pub(crate) fn find(region: &Region, heads: u32, key: &[i64]) -> Option<Slot>
    requires heads { length region.now.heads ≡ heads }
    requires some { 0 < heads }
    requires width { length key.now ≤ region.now.width }
    requires trees { AreTrees (length key.now) region.now }
    ensures found { Found (length key.now) region.now key.now result }
{
    let hash = hash_of(key);
    let mut bits = further(heads, hash);
    let mut at = region.head(reduced(heads, hash));
    while let Some(slot) = at {
        let (words, next) = region.branch(slot, side(bits));
        if begins_with(words, key) {
            return Some(slot);
        }
        at = next;
        bits = rest(bits);
    }
    None
}

/// The row at which a walk by these bits ends, and the side to which it has no child.
fn end_of(region: &Region, first: Slot, bits: u64) -> (Slot, bool)
    requires stands { first < length region.now.rows }
    ensures stands { result.0 < length region.now.rows }
    ensures free { child_at region.now result.0 result.1 ≡ None }
    ensures leads { (cs : List Children) → (i : ℕ) → Grown region.now.children cs → child_on (slice_index_or cs result.0 no_children) result.1 ≡ Some i → Reaches cs (Some first) bits i }
{
    let mut at = first;
    let mut left = bits;
    'down: loop {
        let right = side(left);
        let (_, next) = region.branch(at, right);
        match next {
            None => return (at, right),
            Some(child) => {
                at = child;
                left = rest(left);
            }
        }
    }
}

/// Puts a group with a new key; false, with nothing changed, where there is no room.
pub(crate) fn add(region: &mut Region, heads: u32, keys: usize, words: &[i64]) -> bool
    requires heads { length region.old.heads ≡ heads }
    requires some { 0 < heads }
    requires width { length words.now ≡ region.old.width }
    requires keys { keys ≤ length words.now }
    requires trees { AreTrees keys region.old }
    ensures trees { AreTrees keys region.new }
    ensures frames { region.new.frames ≡ region.old.frames }
    ensures width { region.new.width ≡ region.old.width }
    ensures heads { length region.new.heads ≡ length region.old.heads }
    ensures added { Added result region.old region.new words.now }
{
    let hash = hash_of(&words[..keys]);
    let bucket = reduced(heads, hash);
    match region.head(bucket) {
        None => match region.put(words, None) {
            None => false,
            Some(slot) => {
                region.set_head(bucket, Some(slot));
                true
            }
        },
        Some(first) => {
            let (above, right) = end_of(region, first, further(heads, hash));
            match region.put(words, None) {
                None => false,
                Some(slot) => {
                    region.set_child(above, right, Some(slot));
                    true
                }
            }
        }
    }
}

/// Replaces the words of a group that keeps its key.
pub(crate) fn rewrite(region: &mut Region, keys: usize, slot: Slot, words: &[i64])
    requires stands { slot < length region.old.rows }
    requires width { length words.now ≡ region.old.width }
    requires keys { key_at keys region.old.rows slot ≡ take keys words.now }
    requires trees { AreTrees keys region.old }
    ensures trees { AreTrees keys region.new }
    ensures frames { region.new.frames ≡ region.old.frames }
    ensures width { region.new.width ≡ region.old.width }
    ensures heads { length region.new.heads ≡ length region.old.heads }
    ensures words { words_in region.new ≡ slice_set (words_in region.old) slot words.now }
{
    region.write(slot, words);
}
