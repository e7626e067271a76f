//! Guests: programs made from a number, which run as long as one likes, each with its starts, its sites and a world that
//! answers its first 100,000 steps.
//!
//! Stands on `cpu_step` and `elf_read`, and by its proofs on `relocate_insn`; `guest_findings` stands on it.
#![tactic(auto)]

mod answering;
mod draft;
mod drawing;
mod file;
pub mod guest;
mod instruction;
pub mod laws;
mod start;

pub use guest::{Guest, generate};
pub use instruction::DATA_START;
