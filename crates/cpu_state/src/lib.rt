//! The state of one processor in 64-bit mode, its memory, and what the world answers to it.
//!
//! Stands on `pun_base` and `cpu_alu`; `insn_form` stands on it.
#![tactic(auto)]

pub mod laws;
pub mod memory;
mod padded_bytes;
pub mod page_list;
pub mod processor;
mod regions;
pub mod script;
pub mod script_regions;
pub mod state;
pub mod world;
