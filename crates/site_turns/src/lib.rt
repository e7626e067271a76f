//! The turns: what becomes of each site, from the highest to the lowest.
//!
//! Stands on `scheme_pun`, `scheme_pad`, `scheme_succ`, `scheme_near`, `elf_emit` and `sound_images`; `loader_form` and `rewrite_core` stand on it.
#![tactic(auto)]

pub mod asking;
pub mod building;
mod choosing;
pub mod copying;
pub mod error;
pub mod laws;
mod locking;
pub mod mode;
pub mod plan;
pub mod planned;
mod progress;
mod setting;
pub mod start_insn;
