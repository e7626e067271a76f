//! Which page of a file holds which page of trampolines.
//!
//! Stands on `pun_base`; `elf_emit` stands on it.
#![tactic(auto)]

mod bitmap;
mod found_pages;
pub mod groups;
mod joining;
pub mod laws;
mod occupancy;
mod offsets;
