//! Numbers that are made, the same as in the program in C.

/// Numbers one after the other, as if by chance.
#[derive(Drop)]
pub struct Numbers {
    last: u64,
}

impl Numbers {
    /// Those that begin behind this one.
    pub fn from(last: u64) -> Numbers {
        Numbers { last }
    }

    /// The next, below `limit`.
    pub fn below(&mut self, limit: u32) -> u32 {
        self.last = self
            .last
            .wrapping_mul(6364136223846793005)
            .wrapping_add(1442695040888963407);
        (((self.last >> 32) * limit as u64) >> 32) as u32
    }
}

/// The key of row number `i`, another one for each.
pub fn key_of(i: u32) -> i64 {
    let spread = (i as u64).wrapping_mul(11995408973635179863);
    (spread ^ (spread >> 32)).cast_signed()
}
