//! What several crates of tests share: world scripts whose values are zero, and trampolines of single instructions.
//!
//! Stands on `trampoline` and `image_step`; `code_tests`, `step_tests`, `check_tests` and `thread_tests` stand on it.
#![tactic(auto)]

pub mod scripts;
pub mod trampolines;
