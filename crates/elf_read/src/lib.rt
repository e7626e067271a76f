//! ELF-64 executables: what stands in their tables, what they load, and how entries and files are written.
//!
//! Stands on `pun_base`; `elf_emit`, `start_entries` and `guest_gen` stand on it.
#![tactic(auto)]

pub mod elf;
mod find;
pub mod header;
pub mod laws;
pub mod refusal;
mod rules;
pub mod segment;
pub mod writing;
