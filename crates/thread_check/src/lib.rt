//! The checker of files that are patched for guests of several threads.
//!
//! Stands on `image_check`, `thread_runs` and `guest_threads`; `inspect_commands` stands on it.
#![tactic(auto)]

pub mod laws;
mod line_rule;
mod loaded;
mod places;
pub mod verdict;
