//! The runs of a settled file's guest of several threads: the stub's steps, and then runs of the original at the base.
//!
//! Stands on `settled_runs`, `thread_laws` and `thread_loader`; `commands` stands on it.
#![tactic(auto)]

pub mod laws;
