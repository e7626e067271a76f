//! Texts of lists of addresses, and the words that name an action, a range and a count.
//!
//! Stands on `pun_base`; `patch_report`, `image_step` and `command_words` stand on it.
#![tactic(auto)]

pub mod action_reading;
pub mod action_words;
pub mod digits;
pub mod laws;
pub mod lists;
pub mod parts;
pub mod refusal;
pub mod words;
