//! A caller's view of the history.
use std::collections::LinkedList;

/// What is known through a pass, in clauses alone: no value of it is made when a program runs.
pub struct PassView<E, O> {
    /// The origin of the state; None where the pass was joined to another.
    pub origin: Option<O>,
    /// It is the pass with which the lock was made.
    pub is_first: bool,
    /// The ticket that it drew and that was not yet served to its end.
    pub ticket: Option<u64>,
    /// The state is out with this pass.
    pub out: bool,
    /// The entries that it has seen: a prefix of the history.
    pub seen: LinkedList<E>,
    /// The shorter prefix of two passes that were joined, until it is compared with the longer.
    pub other: LinkedList<E>,
    /// The parties for which it made entries. No other pass has one of them.
    pub parties: LinkedList<u64>,
    /// The entries of its parties with their places in the history, counted from 1.
    pub mine: LinkedList<(u64, E)>,
    /// The parties of passes that were joined to this one. They make no further entry.
    pub ended: LinkedList<u64>,
    /// How many passes it split off that it has not been joined with again.
    pub given: u64,
}
