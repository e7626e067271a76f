//! The starts of instructions that a user lists, with their lengths and what they are.
//!
//! Stands on `insn_form` and `elf_read`; `image_runs` and `start_list` stand on it.
#![tactic(auto)]

mod building;
pub mod entry;
pub mod laws;
pub mod refusal;
pub mod starts;
