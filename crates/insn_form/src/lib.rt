//! Single instructions: their operands, and what they do as definitions. The module `code`, the machine code of a trampoline, is that of
//! `code_bytes`.
//!
//! Stands on `code_bytes`, `length_decode` and `cpu_state`; `killing`, `relocate_insn`, `cpu_step` and `start_entries` stand on it.
#![tactic(auto)]

mod bits;
mod branches;
mod classes;
mod classification;
mod constants;
mod displacing;
pub mod effect;
pub mod form;
mod kinds;
pub mod laws;
mod operands;
mod rows;
pub mod template;
pub mod worked;

pub use bits::has_rip;
pub use classification::{classify, front_form, whole_form};
pub use code_bytes::code;
pub use constants::integer;
pub use displacing::{displaced_len, falls};
pub use effect::{Out, Span};
pub use form::{AskedForm, Insn, MemForm, Op, Seg, Spot, Target, Value};
