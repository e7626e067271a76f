//! Guests of several threads: trampolines that count in one step, and runs of threads that share their memory.
//!
//! Stands on `sound_images` and `image_step`; `thread_laws`, `bare_threads` and `guest_threads` stand on it.
#![tactic(auto)]

mod building;
pub mod laws;
pub mod runner;
mod scheduling;
mod single_step;
pub mod starting;

pub use building::{thread_build, thread_trampoline};
