//! What the words say is done, over any desk and any sink; and what each command does, with its laws.
//!
//! Stands on `inspect_commands`, `patch_commands`, `settled_threads` and `settle_commands`; the program `e9tool` and `command_tests` stand on it.
#![tactic(auto)]

pub mod laws;
pub mod run;
