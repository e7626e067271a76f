//! How a processor steps: one step over a state, by an instruction's meaning or by the world's answer.
//!
//! Stands on `insn_form`; `image_step`, `loader_form` and `guest_gen` stand on it.
#![tactic(auto)]

mod answering;
mod asking;
mod branches;
mod computing;
mod conditions;
mod flag_moves;
mod going;
pub mod kept;
pub mod laws;
mod meaning;
mod moves;
mod operands;
pub mod placing;
mod planning;
mod question;
mod stack;
pub mod step;
pub mod step_info;
pub mod stop;
