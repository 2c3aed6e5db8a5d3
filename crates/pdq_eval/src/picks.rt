//! What the words of a row are made of.

/// One word of a row that is made of another.
#[derive(Clone, Copy, Debug, PartialEq, Eq)]
pub enum Pick {
    /// The other row's word at this place.
    Word(u32),
    /// The number 0.
    Zero,
}
