//! The machine code of a trampoline, as bytes with their length.
//!
//! Stands on no other crate; `insn_form`, `relocate_insn`, `elf_emit` and `trampoline` stand on it.
#![tactic(auto)]

pub mod code;
