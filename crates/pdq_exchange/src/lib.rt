//! The exchange between threads that scan rows and threads that own them by key. A round of it lets each scanner fill a batch with rows, and then
//! each owner absorb those whose key words are its own: equal keys always come to one owner, whatever scanner gave them.
#![tactic(auto)]

mod batch;
mod desk;
mod halves;
mod lane;
mod laws;
mod load;
mod plan;
mod roles;
mod round;
mod routing;
#[cfg(test)]
mod tests;

pub use batch::Batch;
pub use desk::Desk;
pub use lane::{Lane, Scanned};
pub use laws::{equal_keys_meet, waves_add_up};
pub use plan::Wave;
pub use roles::{Owner, Scanner};
pub use round::wave;
