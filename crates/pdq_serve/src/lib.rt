//! One client of the server: its lines are answered one after another, over the manager that threads share.
#![tactic(auto)]

mod commands;
mod course;
mod ending;
mod ends;
mod fetching;
mod lines;
mod outcomes;
mod query;
mod questions;
mod requests;
mod running;
mod sessions;
mod standings;

pub use ends::{Ended, SessionEnd, ShutRight};
pub use sessions::session;
