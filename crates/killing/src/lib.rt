//! Which places an instruction kills: it writes them in full and doesn't read them, so nothing tells what stood there before.
//!
//! Stands on `insn_form`; `bare_events` and `bare_threads` stand on it. No command uses it yet.
#![tactic(auto)]

pub mod laws;
pub mod place;
mod table;

pub use place::Place;
pub use table::{cannot_fault, killed, kills};
