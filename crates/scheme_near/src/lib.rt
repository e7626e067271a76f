//! Scheme T3: a short jump from a site into a victim above it, which has two jumps.
//!
//! Stands on `scheme_search`; `site_turns` stands on it.
#![tactic(auto)]

pub mod choice;
pub mod find;
pub mod plan;
