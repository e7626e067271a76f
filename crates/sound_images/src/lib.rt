//! Which patched images are sound, and that a sound image follows its original.
//!
//! Stands on `trampoline`, `image_runs` and `patch_report`; `image_check`, `thread_runs` and `site_turns` stand on it.
#![tactic(auto)]

pub mod laws;
