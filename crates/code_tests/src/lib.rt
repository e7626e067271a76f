//! The code that a patch adds, by public calls, against an assembler and against codes worked out by hand.
//!
//! Stands on `relocate_insn`, `cond_action`, `trampoline` and `parts_of_tests`; nothing stands on it.
#![tactic(auto)]

#[cfg(test)]
mod conditions;
#[cfg(test)]
mod relocated_code;
#[cfg(test)]
mod trampolines;
