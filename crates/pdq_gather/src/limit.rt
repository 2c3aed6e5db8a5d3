//! How many rows a query may choose.
ghost use Rattle.std.specs.Prelude.{◌≡◌, ◌<◌, ◌≤◌, true, false};
ghost use Rattle.std.specs.List.{sum_by};

use pdq_owner::Counted;

/// How many rows a query may choose.
pub(crate) const MOST: u64 = 20_000_000;

/// Whether these hold together more rows than a query may choose.
pub fn hold_too_many<O: Counted>(outs: &[O]) -> bool
    ensures more { result ≡ true → 20000000 < sum_by O.count outs.now }
    ensures few { result ≡ false → sum_by O.count outs.now ≤ 20000000 }
{
    let mut room = MOST;
    for out in outs {
        let count = out.count();
        if count > room {
            return true;
        }
        room -= count;
    }
    false
}
