//! The lock and its passes, as they are stored: a table of three words and one slot.
ghost use Rattle.std.specs.Prelude.{◌≡◌};

use crate::journaled::Journaled;
use crate::rule::LockRule;
use crate::view::PassView;
use atomic_table::{Seat, Table};
use std::alloc::Global;
use std::snapshot::Snapshot;

/// Word 0 counts the tickets drawn, word 1 is the ticket served, word 2 counts the entries. The slot is for the state.
pub(crate) type LockTable<S> = Table<
    Option<S>,
    PassView<<S as Journaled>::Entry, <S as Journaled>::Origin>,
    Snapshot<S>,
    LockRule<S>,
    Global,
>;

/// The seat of a pass at the table.
pub(crate) type PassSeat<S> = Seat<
    Option<S>,
    PassView<<S as Journaled>::Entry, <S as Journaled>::Origin>,
>;

/// A ticket lock: hands a state with a journal to one caller at a time, in the order of their tickets.
#[derive(Drop)]
pub struct Turnstile<S: Journaled> {
    pub(crate) table: LockTable<S>,
    ghost sized: { (table.shared.table_id.words ≡ 3) × (table.shared.table_id.slots ≡ 1) },
}

/// A caller's right to take turns at one lock, and its view of the history. A pass that is dropped during its turn stops the lock for ever.
#[derive(Drop)]
pub struct Pass<S: Journaled> {
    pub(crate) seat: PassSeat<S>,
    pub(crate) taken: usize,
}
