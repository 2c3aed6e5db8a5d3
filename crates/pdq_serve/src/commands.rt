//! What a line of a session asks for, as the grammar tells it.
use crate::questions::Question;
use pdq_talk::Plain;

/// A line of a session.
#[derive(Drop)]
pub(crate) enum Request {
    Plain(Plain),
    Query(Question),
}
