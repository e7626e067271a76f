//! Runs of an image: the state that a file starts from, which addresses are listed, which runs are quiet, and the deliveries that
//! are made in them.
//!
//! Stands on `start_entries`; `image_step` and `sound_images` stand on it.
#![tactic(auto)]

pub mod delivery;
