//! What the partition owners of a query work with, taken out of its region and its stores and brought home again.
#![tactic(auto)]

mod homes;
mod seats;
mod values;

pub use homes::home;
pub use seats::{Seats, seated};
pub use values::{first_of, insert_first, last_of, push_in_room};
