//! What is grouped and folded.

/// What is made of one word of each row of a key. A word of -2^63 is NULL: all folds but `Count` pass over it.
///
/// The rules are those of SQL's aggregates: over no value all but `Count` are NULL.
#[derive(Clone, Copy, Debug, PartialEq, Eq)]
pub enum Fold {
    /// The sum of the values, put as two words: its low 64 bits and those above. Over no value the upper word is NULL.
    Sum,
    /// The average of the values with two decimal places more than they have, rounded half away from zero, put as two words as a sum is.
    Avg,
    /// The least value, or NULL: one word.
    Min,
    /// The greatest value, or NULL: one word.
    Max,
    /// How many rows there are, whatever the word: one word.
    Count,
}

/// How rows are grouped. A row has the words of its key, and behind them one word for each fold; what is put of a group has the words of its key
/// and then those of its folds.
#[derive(Drop)]
pub struct GroupShape {
    /// How many words the key has.
    pub keys: u32,
    /// What is folded of each word behind the key.
    pub folds: Vec<Fold>,
}
