//! What the rule of the lock says of every moment, as laws that a client can cite.
ghost use Rattle.std.specs.Prelude.{◌≡◌, ℕ, None, Some, false, length, slice_index, true};
ghost use mathlib.Core.Option.{some};
ghost use lib.ListN.{get_elem?};
ghost use Rattle.atomic_table.specs.Table.{State};
ghost use Rattle.atomic_table.specs.Seated.{TableId};
ghost use Rattle.pdq_turn.specs.LockRule.{IsAtHome, IsIdle, LockHolds, TicketsHold, ViewHolds, is_among};
ghost use Rattle.pdq_turn.specs.Pass.{mark_of};
ghost use Rattle.pdq_turn.specs.declared.view.PassView.{PassView};
ghost use Rattle.std.specs.Prelude.{Option};

use crate::journaled::Journaled;

/// At most one pass holds the turn: two passes whose ticket is served are one.
pub fn one_turn<S: Journaled>()
    ensures one { (o : S.Origin) (s : State (Option S) (PassView S.Entry S.Origin)) (i j : ℕ) (u v : PassView S.Entry S.Origin) → LockHolds S.journal S.party S.origin o s → get_elem? s.views i ≡ some u → get_elem? s.views j ≡ some v → u.ticket ≡ Some (slice_index s.words 1) → v.ticket ≡ Some (slice_index s.words 1) → i ≡ j }
{}

/// The number of entries that the lock counts is the length of the history.
pub fn entries_counted<S: Journaled>()
    ensures counted { (o : S.Origin) (s : State (Option S) (PassView S.Entry S.Origin)) (r : LockHolds S.journal S.party S.origin o s) → slice_index s.words 2 ≡ length r.log }
{}

/// The state is at home, with the history for its journal and the origin of the lock, where it is out with no pass.
pub fn state_at_home<S: Journaled>()
    ensures home { (o : S.Origin) (s : State (Option S) (PassView S.Entry S.Origin)) (r : LockHolds S.journal S.party S.origin o s) → ((j : ℕ) (v : PassView S.Entry S.Origin) → get_elem? s.views j ≡ some v → v.out ≡ false) → IsAtHome S.journal S.party S.origin o r.log s }
{}

/// Two passes with a party in common are one.
pub fn parties_apart<S: Journaled>()
    ensures apart { (o : S.Origin) (s : State (Option S) (PassView S.Entry S.Origin)) (i j p : ℕ) (u v : PassView S.Entry S.Origin) → LockHolds S.journal S.party S.origin o s → get_elem? s.views i ≡ some u → get_elem? s.views j ≡ some v → is_among p u.parties ≡ true → is_among p v.parties ≡ true → i ≡ j }
{}

/// A pass that was joined to another has no ticket, no state and no parties.
pub fn joined_is_idle<S: Journaled>()
    ensures idle { (o : S.Origin) (s : State (Option S) (PassView S.Entry S.Origin)) (j : ℕ) (v : PassView S.Entry S.Origin) → LockHolds S.journal S.party S.origin o s → get_elem? s.views j ≡ some v → v.origin ≡ None → IsIdle v }
{}

/// Each ticket from the one served to below the next one to be drawn is with exactly one pass.
pub fn tickets_held<S: Journaled>()
    ensures held { (o : S.Origin) (s : State (Option S) (PassView S.Entry S.Origin)) → LockHolds S.journal S.party S.origin o s → TicketsHold (slice_index s.words 0) (slice_index s.words 1) s.views }
{}

/// What a view says is so: what it has seen begins the history, its entries are all that its parties made, its origin is that of the lock.
pub fn views_hold<S: Journaled>()
    ensures holds { (o : S.Origin) (s : State (Option S) (PassView S.Entry S.Origin)) (r : LockHolds S.journal S.party S.origin o s) (j : ℕ) (v : PassView S.Entry S.Origin) → get_elem? s.views j ≡ some v → ViewHolds S.party o r.log v }
{}

/// There is one first pass at most.
pub fn one_first_pass<S: Journaled>()
    ensures one { (o : S.Origin) (s : State (Option S) (PassView S.Entry S.Origin)) (i j : ℕ) (u v : PassView S.Entry S.Origin) → LockHolds S.journal S.party S.origin o s → get_elem? s.views i ≡ some u → get_elem? s.views j ≡ some v → u.is_first ≡ true → v.is_first ≡ true → i ≡ j }
{}

/// A party of a pass that was joined to another is no pass's party any more.
pub fn ended_parties_gone<S: Journaled>()
    ensures gone { (o : S.Origin) (s : State (Option S) (PassView S.Entry S.Origin)) (i j p : ℕ) (u v : PassView S.Entry S.Origin) → LockHolds S.journal S.party S.origin o s → get_elem? s.views i ≡ some u → get_elem? s.views j ≡ some v → is_among p u.ended ≡ true → is_among p v.parties ≡ false }
{}

/// The mark of a lock is plain data, and tells which lock it is: two locks with one mark are one.
#[tactic(auto, using(crate::proofs::Marks::one_mark))]
pub fn one_mark()
    ensures one { (a b : TableId) → mark_of a ≡ mark_of b → a ≡ b }
{}
