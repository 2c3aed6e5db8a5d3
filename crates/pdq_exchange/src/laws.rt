//! What any number of waves come to, as laws that a loop of waves can cite.
ghost use Rattle.std.specs.Prelude.{◌≡◌, ◌+◌, ◌<◌, ℕ, List, Contains, IsPermutation, flat_map};
ghost use Rattle.std.specs.List.{range_with_len};
ghost use Rattle.pdq_exchange.specs.declared.desk.Desk.{Desk};
ghost use Rattle.pdq_exchange.specs.declared.lane.Lane.{Lane};
ghost use Rattle.pdq_exchange.specs.Batches.{Row};
ghost use Rattle.pdq_exchange.specs.Exchanged.{Exchanged, Waved, given_by, joined_each, none_each};
ghost use Rattle.pdq_exchange.specs.Routing.{key_of, owner_of, rows_for, share_of};

use crate::{Owner, Scanner};

/// After any number of waves each owner has absorbed a list that is a permutation of just the rows filled so far that are its own. Nothing to do:
/// it is a law, for no wave yet, for one wave more, and for any number.
pub fn waves_add_up<Sc: Scanner, Ow: Owner>()
    ensures none { (owner : Row → ℕ) (lanes : List (Lane Sc)) (desks : List (Desk Ow)) → Exchanged Sc.left Ow.takes owner (none_each lanes) lanes lanes desks desks }
    ensures more { (owner : Row → ℕ) (so_far given : List (List Row)) (lanes lanes_then lanes_now : List (Lane Sc)) (desks desks_then desks_now : List (Desk Ow)) → Exchanged Sc.left Ow.takes owner so_far lanes lanes_then desks desks_then → Waved Sc.left Ow.takes owner given lanes_then lanes_now desks_then desks_now → Exchanged Sc.left Ow.takes owner (joined_each so_far given) lanes lanes_now desks desks_now }
    ensures all { (owner : Row → ℕ) (lanes : ℕ → List (Lane Sc)) (desks : ℕ → List (Desk Ow)) (given : ℕ → List (List Row)) (n : ℕ) → ((k : ℕ) → k < n → Waved Sc.left Ow.takes owner (given k) (lanes k) (lanes (k + 1)) (desks k) (desks (k + 1))) → Exchanged Sc.left Ow.takes owner (given_by (lanes 0) given n) (lanes 0) (lanes n) (desks 0) (desks n) }
{}

/// Each row is one owner's, and the rows of one key stand with one owner. Nothing to do: it is a law.
pub fn equal_keys_meet()
    ensures within { (keys : List ℕ) (owners : ℕ) (row : Row) → 0 < owners → owner_of keys owners row < owners }
    ensures same { (keys : List ℕ) (owners : ℕ) (row other : Row) → key_of keys row ≡ key_of keys other → owner_of keys owners row ≡ owner_of keys owners other }
    ensures whole { (keys : List ℕ) (owners : ℕ) (given : List (List Row)) → 0 < owners → IsPermutation (flat_map (λ rows. rows) given) (flat_map (λ j. share_of (owner_of keys owners) j given) (range_with_len 0 owners)) }
    ensures meet { (keys : List ℕ) (owners i j : ℕ) (given : List (List Row)) (mine others : List Row) (row other : Row) → IsPermutation (share_of (owner_of keys owners) i given) mine → IsPermutation (share_of (owner_of keys owners) j given) others → Contains mine row → Contains others other → key_of keys row ≡ key_of keys other → i ≡ j }
{}
