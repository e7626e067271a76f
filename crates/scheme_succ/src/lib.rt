//! Scheme T2: a jump on a short site that ends in the jump of the victim right after it.
//!
//! Stands on `scheme_search`; `site_turns` stands on it.
#![tactic(auto)]

pub mod choice;
pub mod find;
pub mod plan;
