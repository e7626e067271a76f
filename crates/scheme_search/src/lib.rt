//! What the schemes share: a site at its turn, and the least place to which a jump at it leads, after pads or none; what those with a
//! victim share: two jumps that meet, the search over the bytes that both have in common, and victims.
//!
//! Stands on `start_list`, `insn_form` and `jump_form`; `scheme_pun`, `scheme_pad`, `scheme_succ` and `scheme_near` stand on it.
#![tactic(auto)]

mod bands;
pub mod laws;
mod marked;
pub mod meeting;
pub mod padded;
pub mod pieces;
pub mod plan;
pub mod shared;
pub mod site_turn;
mod standing;
pub mod victim;
pub mod work;
