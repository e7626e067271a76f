//! Instruction lengths: the parts of the x86-64 instruction at the front of bytes (Intel SDM, volume 2, chapter 2).
//!
//! Stands on `insn_tables`; `insn_form` stands on it.
#![tactic(auto)]

mod byte_tables;
mod decoding;
pub mod escape_bytes;
pub mod field_bytes;
pub mod instruction_parts;
pub mod laws;
pub mod prefix_bytes;
mod reading;
mod sizes;

pub use decoding::decode;
pub use instruction_parts::{Parts, Prefixes, Shape};
