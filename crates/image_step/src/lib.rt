//! World scripts, read exactly, and a runner that makes steps of a loaded file under one.
//!
//! Stands on `cpu_step`, `image_runs` and `list_text`; `thread_runs`, `command_io` and `guest_findings` stand on it.
#![tactic(auto)]

mod advancing;
pub mod delivering;
pub mod delivery;
mod draft;
pub mod error;
mod fitting;
mod grammar;
pub mod laws;
mod line;
mod line_reading;
mod line_writing;
mod quieting;
pub mod reading;
pub mod runner;
pub mod runner_error;
pub mod scenario;
mod scenario_draft;
mod scenario_line;
pub mod scenario_reading;
pub mod start_memory;
mod taking;
mod word_reading;
