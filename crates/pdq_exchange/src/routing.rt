//! Which owner gets a row.
ghost use Rattle.std.specs.Prelude.{◌≡◌, ◌-◌, ◌<◌, ◌^◌, All, length, min};
ghost use Rattle.pdq_exchange.specs.Routing.{owner_of};

use pdq_spill::{EXCHANGE_FACTOR, mixed, reduced};

/// How many owners get rows: all, but for those whose numbers need more than 32 bits.
fn served(owners: usize) -> u32
    requires { 0 < owners }
    ensures all { result ≡ min owners (2 ^ 32 - 1) }
    ensures some { 0 < result }
{
    u32::try_from(owners).unwrap_or(u32::MAX)
}

/// The number of the owner, of so many, that gets the row.
pub(crate) fn owner_number(row: &[i64], keys: &[u32], owners: usize) -> u32
    requires keys { All (λ k. k < length row.now) keys.now }
    requires some { 0 < owners }
    ensures owner { result ≡ owner_of keys.now owners row.now }
    ensures within { result < owners }
{
    let mut hash = 0u64;
    for key in keys {
        hash = mixed(EXCHANGE_FACTOR, hash, row[*key as usize]);
    }
    reduced(served(owners), hash)
}
