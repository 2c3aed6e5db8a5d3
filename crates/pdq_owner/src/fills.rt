//! Owners that may stop taking rows.
ghost use Rattle.std.specs.Prelude.{◌≡◌, Bool, ℕ, IfSome, length};

use pdq_exchange::Owner;
use pdq_spill::RowOut;

/// An owner that may stop taking rows.
pub trait Fills: Owner {
    // Whether it has.
    ghost full: { Self → Bool };

    // How many rows it holds of those that are counted against the limit of a query.
    ghost count: { Self → ℕ };

    /// Whether it has stopped.
    fn is_full(&self) -> bool
        ensures { result ≡ full self.now };

    /// How many rows it holds of those that are counted against the limit of a query; none where it does not keep rows as they come.
    fn count(&self) -> u64
        ensures { result ≡ count self.now };
}

/// Where rows are put that are counted.
pub trait Counted: RowOut {
    // How many rows were put.
    ghost count: { Self → ℕ };

    /// How many rows were put.
    fn count(&self) -> u64
        ensures { result ≡ count self.now };

    // Where the rows are told, they are as many.
    ghost counts: { (out : Self) → IfSome (Self.rows out) (λ rows. length rows ≡ count out) };
}
