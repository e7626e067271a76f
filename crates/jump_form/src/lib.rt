//! Jumps by a displacement of 32 bits: how they are spelled, and where they can lead.
//!
//! Stands on `pun_base`; `scheme_search` stands on it.
#![tactic(auto)]

pub mod jump;
pub mod laws;
pub mod window;
