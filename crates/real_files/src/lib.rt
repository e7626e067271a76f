//! Files of the system as a desk, and a writer, as standard output, as a sink.
//!
//! Stands on `pun_base`; `e9tool` stands on it.
#![tactic(auto)]

pub mod file_desk;
mod known_files;
pub mod standard_output;
pub mod streams;
