//! A state that keeps a journal of what was done to it.
ghost use Rattle.std.specs.Prelude.{◌≡◌, ℕ, List};

/// A state with a journal: the entries from the first one on. Each entry is made by one party, and the state has an origin that no entry changes.
pub trait Journaled {
    /// One entry of the journal.
    type Entry;

    /// What the state was made from, as its first configuration.
    type Origin;

    ghost journal: { Self → List Self.Entry };

    ghost party: { Self.Entry → ℕ };

    ghost origin: { Self → Self.Origin };

    /// The entries of the journal, from the first one on.
    fn entries(&self) -> &[Self::Entry]
        ensures value { result.now ≡ journal self.now };
}
