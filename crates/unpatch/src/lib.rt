//! A patched file as it was before: the original, from the written file and its report.
//!
//! Stands on `elf_emit` and `patch_report`; `settle` and `command_io` stand on it.
#![tactic(auto)]

pub mod error;
pub mod laws;
mod missing;
mod places;
pub mod restore;
