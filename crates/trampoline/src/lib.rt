//! Trampolines: code that records an event, does the work of the displaced instruction, and jumps back to the instruction after it.
//!
//! Stands on `cond_action`, `event_steps` and `relocate_insn`; `bare_events`, `start_list` and `sound_images` stand on it.
#![tactic(auto)]

pub mod event;
pub mod laws;
mod recording;
mod tramp;

pub use event::{Event, event_size};
pub use tramp::{build, put_back, size};
