//! A static PIE settled at a base: a file that every other command takes, from which the original comes back.
//!
//! Stands on `unpatch`, by its proofs; `command_io` and `settled_runs` stand on it.
#![tactic(auto)]

mod choosing;
mod entries;
pub mod error;
mod front;
mod header;
pub mod laws;
mod sections;
pub mod settling;
pub mod unsettling;
