//! Rewrites a file into the loader form: judges it, plans each site, and writes a patched file whose pages for code a stub maps.
//!
//! Stands on `rewrite_core` and `loader_form`; `thread_loader` and `command_io` stand on it.
#![tactic(auto)]

pub mod error;
pub mod laws;
pub mod rewrite;
pub mod writing;
