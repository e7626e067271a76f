//! Rewrites a file: judges it, plans each site, and writes the patched file.
//!
//! Stands on `site_turns`; `rewrite_loader`, `guest_threads` and `guest_findings` stand on it.
#![tactic(auto)]

pub mod laws;
pub mod original;
pub mod patching;
pub mod rewrite;
