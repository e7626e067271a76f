//! Scheme T1: a jump after pads, whose last bytes are those of what follows the site.
//!
//! Stands on `scheme_search`; `site_turns` stands on it.
#![tactic(auto)]

pub mod find;
