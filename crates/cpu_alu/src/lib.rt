//! Integer arithmetic of x86-64 with its flags (Intel SDM, volume 1, section 3.4.3, and the pages of the
//! instructions in volume 2).
//!
//! Stands on no other crate; `cpu_state` stands on it.
#![tactic(auto)]

pub mod flag_word;
pub mod laws;
pub mod operation;
mod operations;
pub mod outcome;
mod shifts;
mod sums;

pub use flag_word::{Flags, is_set, pack, unpack};
pub use operation::{AluOp, Width};
pub use operations::alu;
pub use outcome::AluOut;
