//! Files that are patched for guests of several threads.
//!
//! Stands on `rewrite_core`, `site_turns` and `thread_runs`; `thread_loader`, `thread_check` and `patch_commands` stand on it.
#![tactic(auto)]

pub mod laws;
mod planning;
pub mod rewriting;

pub use planning::plan_threads;
pub use thread_runs::{runner, starting, thread_build};
