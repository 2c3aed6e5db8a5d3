//! The hash of key words.
ghost use Rattle.std.specs.Prelude.{◌≡◌, ◌<◌};
ghost use Rattle.pdq_spill.specs.Hashes.{mixed, reduced};

/// The factor by which a joiner mixes the key words of a row, to find the row's chain.
pub const JOIN_FACTOR: u64 = 11400714819323198485;

/// The factor by which a grouper mixes the key words of a row, to find the row's group.
pub const GROUP_FACTOR: u64 = 15485863646312837395;

/// The factor by which an exchange mixes the key words of a row, to find the row's owner.
///
/// An owner's joiner or grouper hashes the rows that this hash sent to it. With one factor for both they would crowd into a part of its chains;
/// so each of the three has a factor of its own.
pub const EXCHANGE_FACTOR: u64 = 13787848793156543929;

/// One more key word in a hash, which begins as 0: their sum times an odd factor, modulo 2^64. A bit of the word moves every bit above its own, so
/// the highest bits, which are the ones that count, tell keys apart that differ in low bits, in high bits or by multiples of a power of two.
#[inline]
pub fn mixed(factor: u64, hash: u64, word: i64) -> u64
    ensures value { result ≡ mixed factor hash word }
{
    hash.wrapping_add(word.cast_unsigned()).wrapping_mul(factor)
}

/// The upper half of a hash, reduced to a number below `parts` by a product and a shift, so that `parts` may be any number.
#[inline]
pub fn reduced(parts: u32, hash: u64) -> u32
    requires some { 0 < parts }
    ensures value { result ≡ reduced parts hash }
    ensures below { result < parts }
{
    (((hash >> 32) * parts as u64) >> 32) as u32
}
