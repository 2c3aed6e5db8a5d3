//! The key prefixes of texts: numbers by which texts are compared first, so that few comparisons look at their bytes.
ghost use Rattle.std.specs.Prelude.{◌≡◌, ◌<◌, ◌^◌, slice_index};
ghost use Rattle.pdq_value.specs.KeyPrefixes.{AreBytes, LesserPrefixesAreLesserTexts, text_prefix};

/// How many bytes a key prefix has.
const PREFIX_LENGTH: usize = 15;

/// The byte at a place; 0 past the end.
fn byte_at(bytes: &[u8], place: usize) -> u8
    ensures value { result ≡ slice_index bytes.now place }
{
    if place < bytes.len() { bytes[place] } else { 0 }
}

/// The first 15 bytes of a text as one number, the first counting most; those that are missing are 0.
pub fn text_prefix(bytes: &[u8]) -> u128
    ensures value { result ≡ text_prefix bytes.now }
    ensures bytes { AreBytes bytes.now }
    ensures size { result < 256 ^ 15 }
{
    let mut prefix: u128 = 0;
    for place in 0..PREFIX_LENGTH {
        prefix = prefix * 256 + u128::from(byte_at(bytes, place));
    }
    prefix
}

/// A text with a lesser key prefix is the lesser one.
pub fn lesser_prefixes_are_lesser_texts()
    ensures law { LesserPrefixesAreLesserTexts }
{}
