//! The commands `settle` and `unsettle`, over any desk.
//!
//! Stands on `settled_runs`; `commands` stands on it.
#![tactic(auto)]

pub mod laws;
pub mod settle_command;
pub mod unsettle_command;
