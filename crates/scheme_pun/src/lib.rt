//! Schemes B1 and B2, which patch a site alone: a jump that fits into it, and a jump whose last bytes are those of what follows it.
//!
//! Stands on `scheme_search`; `site_turns` stands on it.
#![tactic(auto)]

pub mod find;
