//! Relocated code: the bytes that do the work of an instruction at another place than its own.
//!
//! Stands on `insn_form`; `event_steps`, `trampoline` and `guest_gen` stand on it.
#![tactic(auto)]

pub mod laws;
mod operand;
mod relocation;
pub mod writer;

pub use relocation::{NotRelocatable, relocate};
