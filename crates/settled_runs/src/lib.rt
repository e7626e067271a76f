//! The runs of a settled file: its stub's, and then the original's at the base.
//!
//! Stands on `settle` and `patch_commands`; `settled_threads` and `settle_commands` stand on it.
#![tactic(auto)]

pub mod laws;
