//! Fragments of tables.
ghost use Rattle.std.specs.Prelude.{◌≡◌, ◌<◌, ◌≤◌, OnOk, Some, ◌==◌, length, slice_get};
ghost use Rattle.pdq_value.specs.PlainTable.{most_rows};
ghost use Rattle.pdq_table.specs.NotedWords.{recoded};
ghost use Rattle.pdq_table.specs.Words.{no_rows, with_row, with_words};

use crate::noted_words::recode_words;
use pdq_base::Memory;
use std::alloc::Global;
use std::marker::Model;

/// The coded rows of a fragment, in the order of the file: one flat list of words, so many for each row. A number is itself, a text
/// is its code in the dictionary of all tables, and Null is the least word, which is neither.
#[derive(Debug, Drop)]
pub struct Fragment {
    words: Vec<i64>,
    width: u32,
    count: u32,
}

impl Model for Fragment {
    ghost use Rattle.pdq_table.specs.Words.{AreWordsOf, FragmentView, fragment_view};

    ghost Value = { FragmentView };

    ghost view = { λ f. fragment_view f.width f.count f.words.items };

    ghost invariant = { λ f. AreWordsOf f.width f.count f.words.items };
}

impl Fragment {
    /// A fragment with no rows, of rows with so many words.
    pub(crate) fn new(alloc: Global, width: u32) -> Fragment
        ensures value { result ≡ no_rows width }
    {
        Fragment {
            words: Vec::new(alloc),
            width,
            count: 0,
        }
    }

    /// How many rows it has.
    #[tactic(auto, using(crate::proofs::FlatRows::count_of_rows))]
    pub fn len(&self) -> u32
        ensures value { result ≡ length self.now.rows }
        ensures few { result ≤ most_rows }
    {
        self.count
    }

    /// Whether it has no rows.
    #[tactic(auto, using(crate::proofs::FlatRows::count_of_rows))]
    pub fn is_empty(&self) -> bool
        ensures value { result ≡ (length self.now.rows == 0) }
    {
        self.count == 0
    }

    /// The words of the row at this place, from 0.
    pub fn row(&self, i: u32) -> &[i64]
        requires row { i < length self.now.rows }
        ensures value { slice_get self.now.rows i ≡ Some result.now }
    {
        let width = self.width as usize;
        let start = i as usize * width;
        &self.words[start..start + width]
    }

    /// One more row.
    pub(crate) fn push(&mut self, row: &[i64]) -> Result<(), Memory>
        requires few { length self.old.rows < most_rows }
        requires width { length row.now ≡ self.old.width }
        ensures value { OnOk result (self.new ≡ with_row self.old row.now) }
    {
        let Ok(()) = self.words.extend_from_slice(row) else {
            return Err(Memory);
        };
        self.count += 1;
        Ok(())
    }

    /// Puts the codes of texts in place of the numbers of their notes.
    pub(crate) fn recode(&mut self, codes: &[u32])
        ensures value { self.new ≡ with_words (recoded codes.now) self.old }
    {
        recode_words(codes, &mut self.words);
    }
}
