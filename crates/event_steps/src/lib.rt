//! Events as lists of steps: their code, what each step does, and what they leave, also where other threads step in between.
//!
//! Stands on `relocate_insn`; `cond_action`, `trampoline` and `thread_runs` stand on it.
#![tactic(auto)]

pub mod laws;
pub mod step;
mod writing;

pub use writing::put_steps;
