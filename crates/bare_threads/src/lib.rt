//! The steps of threads by instructions that kill a place, and the event of threads that counts by LOCK INC alone.
//!
//! Stands on `killing` and `thread_runs`; nothing stands on it, and no command uses it yet.
#![tactic(auto)]

pub mod laws;
