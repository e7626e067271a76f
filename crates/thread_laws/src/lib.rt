//! What follows from the theorem on guests of several threads: that threads may begin on the way; and worked runs that meet its premises.
//!
//! Stands on `thread_runs`; `settled_threads` stands on it.
#![tactic(auto)]

pub mod laws;
