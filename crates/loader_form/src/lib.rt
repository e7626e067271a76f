//! The loader form of a patched file: a stub in machine code maps the pages for code, and then goes to where the original starts.
//!
//! Stands on `site_turns` and `cpu_step`; `rewrite_loader` stands on it.
#![tactic(auto)]

pub mod emit;
pub mod error;
pub mod kernel;
pub mod laws;
pub mod lay;
pub mod loader;
mod replying;
mod stub;
pub mod stub_run;
mod used;
