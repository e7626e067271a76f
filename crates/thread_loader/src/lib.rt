//! Files of the loader form that are patched for guests of several threads.
//!
//! Stands on `guest_threads` and `rewrite_loader`; `patch_commands` stands on it.
#![tactic(auto)]

pub mod laws;
pub mod rewriting;
