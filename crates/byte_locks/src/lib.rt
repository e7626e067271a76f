//! Which bytes of a program may still be written.
//!
//! Stands on `pun_base`; `start_list` and `scheme_search` stand on it.
#![tactic(auto)]

mod bitmap;
mod blank_page;
pub mod lock;
pub mod locks;
mod page;
mod pages;
