//! Conditional actions: when a condition holds of registers, and the code of an event that is recorded where it does.
//!
//! Stands on `event_steps`; `trampoline` stands on it.
#![tactic(auto)]

mod comparing;
mod condition;
mod event_code;
pub mod laws;

pub use condition::holds;
pub use event_code::{cond_code, marked_datum, put_when};
