//! What a plan of a patch is, when it is admissible at a turn, and the turn that a scheme looks at. The modules `entry`, `refusal` and
//! `starts`, the listed starts, are those of `start_entries`.
//!
//! Stands on `start_entries`, `trampoline`, `byte_locks` and `address_space`; `scheme_search` stands on it.
#![tactic(auto)]

mod atomic;
pub mod laws;
pub mod turn;

pub use start_entries::{entry, refusal, starts};
