//! How a command reads its inputs, writes its outputs and ends: refusals, faults, the summary of a patch, what is printed and the
//! status.
//!
//! Stands on `command_words`, `settle`, `image_step` and `rewrite_loader`, for what they refuse; all commands stand on it.
#![tactic(auto)]

pub mod ends;
pub mod failures;
pub mod inputs;
pub mod outputs;
pub mod print;
pub mod refusal;
pub mod report_mode;
pub mod status;
pub mod summary;
