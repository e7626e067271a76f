//! The tally of a run, and what is found of a guest that is patched and run beside its patched file.
//!
//! Stands on `command_words`, `rewrite_core`, `image_check`, `image_step` and `guest_gen`; `inspect_commands` stands on it.
#![tactic(auto)]

mod accepted_files;
mod both_runs;
mod following;
pub mod guest_findings;
mod guest_patch;
mod last_states;
pub mod laws;
