//! Rows that are made of the words of others.
ghost use Rattle.std.specs.Prelude.{◌≡◌, IfOk, length, pos, slice_index_or};
ghost use Rattle.pdq_scan.specs.Scans.{word_or, words_or};

use pdq_base::Memory;
use pdq_eval::Pick;
use std::alloc::Global;

/// Picks of a row, with room for the row that they make. A word past the end of the row is the missing one.
#[derive(Drop)]
pub(crate) struct Picker {
    pub picks: Vec<Pick>,
    pub missing: i64,
    pub made: Vec<i64>,
    ghost room: { length made.items ≡ length picks.items },
}

// A picked word.
fn word_or(missing: i64, row: &[i64], pick: Pick) -> i64
    ensures { result ≡ word_or missing row.now pick }
{
    match pick {
        Pick::Word(place) => match row.get(place as usize) {
            Some(word) => *word,
            None => missing,
        },
        Pick::Zero => 0,
    }
}

// Writes the picked words.
fn write(missing: i64, picks: &[Pick], row: &[i64], into: &mut Vec<i64>)
    requires room { length into.old.items ≡ length picks.now }
    ensures words { into.new.items ≡ words_or missing picks.now row.now }
{
    for i in 0..picks.len() {
        into[i] = word_or(missing, row, picks[i]);
    }
}

impl Picker {
    /// A picker of these words.
    ///
    /// # Errors
    /// `Memory` where it is wanting.
    pub fn new(alloc: Global, picks: Vec<Pick>, missing: i64) -> Result<Picker, Memory>
        ensures picks { IfOk result (λ p. p.picks.items ≡ picks.items) }
        ensures missing { IfOk result (λ p. p.missing ≡ missing) }
    {
        let Ok(made) = vec![in alloc; 0i64; picks.len()] else {
            return Err(Memory);
        };
        Ok(Picker {
            picks,
            missing,
            made,
        })
    }

    /// Makes a row of this one.
    pub fn make(&mut self, row: &[i64])
        ensures picks { self.new.picks.items ≡ self.old.picks.items }
        ensures missing { self.new.missing ≡ self.old.missing }
        ensures made { self.new.made.items ≡ words_or self.old.missing self.old.picks.items row.now }
    {
        write(self.missing, &self.picks, row, &mut self.made);
    }
}
