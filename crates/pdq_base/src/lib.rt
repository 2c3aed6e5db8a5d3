//! What every crate stands on: the one answer for want of memory, and the words for bytes, for lines and for lists in order.
#![tactic(auto)]

ghost use Rattle.pdq_base.specs.Sorting.{SortingHasOneResult};

mod bytes;

pub use bytes::{is_blank, is_text, is_utf8, without_return};

/// Want of memory, the one answer that needs no cause.
#[derive(Clone, Copy, Debug, PartialEq, Eq)]
pub struct Memory;

/// Sorting by a total order that ties only what is the same has one result.
pub fn sorting_has_one_result<X>()
    ensures law { SortingHasOneResult X }
{}
