//! The checker of patched images.
//!
//! Stands on `sound_images`; `thread_check` and `guest_findings` stand on it.
#![tactic(auto)]

mod byte_rule;
pub mod cells;
pub mod checked;
mod code_rule;
mod cutting;
mod entry_rule;
pub mod flat;
pub mod jumps;
mod lesser;
mod near;
pub mod placed;
pub mod placed_code;
mod range_rule;
pub mod rule;
mod site_rule;
mod span;
mod spans;
mod standing;
pub mod verdict;
mod write_rule;
