//! A block of rows, and its layout.
ghost use Rattle.std.specs.Prelude.{◌≡◌, ◌+◌, ◌-◌, ◌*◌, ◌<◌, ◌≤◌, ◌∷◌, ◌++◌, length, List, [], ℤ, slice_get, drop, take, pos, Some, replicate};
ghost use Rattle.pdq_spill.specs.Rows.{rows_of, words_of, AreWords};
ghost use Rattle.pdq_spill.specs.Blocks.{laid_out, words_in, word_of, bytes_of};

use std::marker::Model;

/// The rows of one block, of one width. It is seen as the list of them.
///
/// In a store a block has 4,096 bytes: 512 words of 8 bytes each, the lowest byte first. The first word is the number of rows. The rows follow
/// without gaps, each so many words of two's complement, at most 511 words together; the rest is zero. The layout is our own.
#[derive(Drop)]
pub struct Block {
    words: [i64; 511],
    width: u32,
    rows: u32,
}

impl Model for Block {
    ghost use Rattle.std.specs.Prelude.{ℤ, List, ◌*◌, ◌≤◌};
    ghost use Rattle.pdq_spill.specs.Rows.{rows_of};

    ghost Value = { List (List ℤ) };

    ghost view = { λ b. rows_of b.width b.rows b.words };

    ghost invariant = { λ b. b.rows * b.width ≤ 511 };
}

impl Block {
    /// A block without a row, to read into.
    pub fn new() -> Block
        ensures empty { result ≡ [] }
    {
        Block {
            words: [0; 511],
            width: 1,
            rows: 0,
        }
    }

    /// How many rows it holds.
    pub fn rows(&self) -> u32
        ensures value { result ≡ length self.now }
    {
        self.rows
    }

    /// One of its rows.
    pub fn row(&self, i: u32) -> &[i64]
        requires within { i < length self.now }
        ensures row { slice_get self.now i ≡ Some result.now }
    {
        let at = (i * self.width) as usize;
        &self.words[at..at + self.width as usize]
    }

    /// Reads so many rows of `width` words from a block as it is laid out.
    pub(crate) fn read(&mut self, bytes: &[u8; 4096], width: u32, rows: u32)
        requires fits { rows * width ≤ 511 }
        ensures rows { self.new ≡ rows_of width rows (words_in 511 (drop 8 bytes.now)) }
    {
        read_words(bytes, &mut self.words);
        self.width = width;
        self.rows = rows;
    }
}

/// The words of a block behind the first.
fn read_words(bytes: &[u8; 4096], words: &mut [i64; 511])
    ensures words { words.new ≡ words_in 511 (drop 8 bytes.now) }
{
    for i in 0..511 {
        let at = 8 * i + 8;
        words[i] = i64::from_le_bytes([
            bytes[at],
            bytes[at + 1],
            bytes[at + 2],
            bytes[at + 3],
            bytes[at + 4],
            bytes[at + 5],
            bytes[at + 6],
            bytes[at + 7],
        ]);
    }
}

/// Lays so many rows out as a block: their number, their words, and zeros.
pub(crate) fn laid_out(rows: u32, words: &[i64]) -> [u8; 4096]
    requires fits { length words.now ≤ 511 }
    ensures words { AreWords words.now }
    ensures block { result ≡ bytes_of (pos rows ∷ words.now) ++ replicate (8 * (511 - length words.now)) 0 }
{
    let mut block = [0; 4096];
    block[0..8].copy_from_slice(&(rows as i64).to_le_bytes());
    for (i, word) in words.iter().enumerate() {
        let at = 8 * i + 8;
        block[at..at + 8].copy_from_slice(&word.to_le_bytes());
    }
    block
}
