//! Reports of what a patch did, as values and as texts.
//!
//! A report has one text. `docs/reference/formats.md` shows it line by line. Stands on `list_text`; `unpatch` and `sound_images`
//! stand on it.
#![tactic(auto)]

pub mod error;
mod field_reading;
pub mod laws;
mod line;
mod line_reading;
mod line_writing;
pub mod origin;
mod page_reading;
mod part_reading;
mod printing;
mod reading;
pub mod report;
pub mod row;
mod rows;
mod runs;
mod version;

pub use report::read;
