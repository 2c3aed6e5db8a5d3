//! What an operator works with.
use pdq_frame::Region;

/// An operator's memory and store: a region of granted frames, and a store for the rows that find no room there. An operator takes its bench
/// over and hands it back at its end, whatever came.
pub struct Bench<Sp> {
    /// The frames.
    pub region: Region,
    /// The store for what does not fit.
    pub store: Sp,
}
