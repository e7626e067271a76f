//! Events that use only what the displaced instruction kills, as lists of steps: laws of their trampolines.
//!
//! Stands on `killing` and `trampoline`; nothing stands on it, and no command uses it yet.
#![tactic(auto)]

pub mod laws;
