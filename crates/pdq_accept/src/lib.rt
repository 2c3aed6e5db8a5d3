//! The clients of the server: each is accepted and served by a session of its own, beside the others.
#![tactic(auto)]

mod accepting;
mod jobs;
mod serving;
mod threads;

pub use jobs::{SessionDone, SessionJob};
pub use serving::serve;
pub use threads::TcpJob;

#[cfg(test)]
mod tests;
