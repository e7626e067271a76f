//! The commands that only read, over any desk: `check`, `step` and `gen`.
//!
//! Stands on `command_io`, `thread_check` and `guest_findings`; `commands` stands on it.
#![tactic(auto)]

pub mod check;
mod check_text;
pub mod gen_command;
mod gen_text;
pub mod laws;
pub mod step;
mod step_text;
