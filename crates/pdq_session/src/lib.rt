//! Scripts: lines from a source are run on the memory grant manager one after another, and the reply to each is
//! written to a sink.
#![tactic(auto)]

mod script_commands;
mod script_laws;
mod script_lines;
mod script_queries;
mod script_running;
mod script_sessions;
mod scripts;
#[cfg(test)]
mod tests;

pub use script_laws::{scripts_keep_rules, texts_keep_limits};
pub use scripts::{ScriptEnd, script_in};
