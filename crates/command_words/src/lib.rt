//! What the words of the command line ask for: the commands' forms, as `clap` is told them, and the command that is found.
//!
//! Stands on `list_text`; `command_io` and `guest_findings` stand on it.
#![tactic(auto)]

mod commands;
mod forms;
mod reserves;
pub mod synopses;
pub mod words;
