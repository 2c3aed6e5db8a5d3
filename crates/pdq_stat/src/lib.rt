//! The text of `ONSTAT -g mgm`: what a status shows of the manager, line by line.
#![tactic(auto)]

mod cells;
mod onstat;
#[cfg(test)]
mod tests;

pub use onstat::onstat_text;
