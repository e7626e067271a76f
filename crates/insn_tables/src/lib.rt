//! What follows an opcode byte of an x86-64 instruction, for each of seven opcode maps: whether a ModRM byte
//! does, and which immediate (after the opcode maps of the Intel SDM, volume 2, appendix A).
//!
//! Stands on no other crate; `length_decode` stands on it.
#![tactic(auto)]

mod maps;
pub mod table_row;
mod tables;

pub use maps::row;
pub use table_row::{Imm, TableRow};
