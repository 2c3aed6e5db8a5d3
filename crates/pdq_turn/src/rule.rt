//! The rule of the lock's table, and what each kind of step tells the pass that makes it.
use crate::journaled::Journaled;
use crate::view::PassView;
use atomic_table::{Join, Play, Split, TableRule};
use std::marker::PhantomData;
use std::snapshot::Snapshot;

/// What holds of the table at every moment.
pub struct LockRule<S> {
    of: PhantomData<S>,
}

impl<S: Journaled> TableRule<Option<S>, PassView<S::Entry, S::Origin>, Snapshot<S>>
    for LockRule<S> {
    ghost use Rattle.pdq_turn.specs.LockRule.{LockHolds, first_view};

    ghost holds = { λ key. LockHolds S.journal S.party S.origin (S.origin key.value) };

    ghost first = { λ key. first_view (S.origin key.value) (S.journal key.value) };
}

/// Draws a ticket: counts word 0 up by one.
pub struct DrawTicket<S> {
    of: PhantomData<S>,
}

impl<S: Journaled> Play<Option<S>, PassView<S::Entry, S::Origin>> for DrawTicket<S> {
    ghost use Rattle.pdq_turn.specs.LockRule.{Draws};

    ghost then = { Draws };
}

/// Looks at the ticket served, and takes the slot where it is the pass's own.
pub struct LookAtServed<S> {
    of: PhantomData<S>,
}

impl<S: Journaled> Play<Option<S>, PassView<S::Entry, S::Origin>> for LookAtServed<S> {
    ghost use Rattle.pdq_turn.specs.LockRule.{LooksAt};

    ghost then = { LooksAt S.journal S.party S.origin };
}

/// Serves the next ticket: counts word 1 up by one, and the slot goes home.
pub struct ServeNext<S> {
    of: PhantomData<S>,
}

impl<S: Journaled> Play<Option<S>, PassView<S::Entry, S::Origin>> for ServeNext<S> {
    ghost use Rattle.pdq_turn.specs.LockRule.{ServesNext};

    ghost then = { ServesNext };
}

/// Fixes the place of a new entry in the history: counts word 2 up by one, or by none.
pub struct PlaceEntry<S> {
    of: PhantomData<S>,
}

impl<S: Journaled> Play<Option<S>, PassView<S::Entry, S::Origin>> for PlaceEntry<S> {
    ghost use Rattle.pdq_turn.specs.LockRule.{Places};

    ghost then = { Places S.journal S.party S.origin };
}

/// Learns that the shorter of two joined prefixes begins the longer.
pub struct CompareSeen<S> {
    of: PhantomData<S>,
}

impl<S: Journaled> Play<Option<S>, PassView<S::Entry, S::Origin>> for CompareSeen<S> {
    ghost use Rattle.pdq_turn.specs.LockRule.{Compares};

    ghost then = { Compares };
}

/// How a pass is split in two, and how two are joined.
pub struct SplitAndJoin;

impl<E, O> Split<PassView<E, O>> for SplitAndJoin {
    ghost use Rattle.pdq_turn.specs.LockRule.{view_after_split, split_view};

    ghost left = { view_after_split };

    ghost right = { split_view };
}

impl<E, O> Join<PassView<E, O>> for SplitAndJoin {
    ghost use Rattle.pdq_turn.specs.LockRule.{joined_view, spent_view};

    ghost both = { joined_view };

    ghost spent = { spent_view };
}
