//! The commands that write, over any desk: `patch`, `load`, `threads` and `unpatch`.
//!
//! Stands on `command_io`, `guest_threads` and `thread_loader`; `settled_runs` and `commands` stand on it.
#![tactic(auto)]

pub mod laws;
pub mod patch;
pub mod patching;
pub mod threads_command;
pub mod unpatch_command;
