//! Where code that a patch adds may stand.
//!
//! Stands on `pun_base`; `start_list` and `scheme_search` stand on it.
#![tactic(auto)]

mod blank_block;
mod block;
mod blocks;
pub mod extent;
mod free_range;
mod marked_places;
pub mod marks;
mod ranges;
mod search;
pub mod space;
mod window;
