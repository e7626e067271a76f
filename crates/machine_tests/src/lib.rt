//! Instructions, arithmetic and memory, by public calls, against values from elsewhere: a processor's, a disassembler's and the
//! manual's.
//!
//! Stands on `insn_tables`, `length_decode`, `cpu_alu`, `cpu_state` and `insn_form`; nothing stands on it.
#![tactic(auto)]

#[cfg(test)]
mod tests;
