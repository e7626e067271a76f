//! Writes patched ELF files.
//!
//! Stands on `code_bytes`, `page_group` and `elf_read`; `unpatch`, `site_turns` and `rewrite_core` stand on it.
#![tactic(auto)]

pub mod built;
mod changes;
pub mod emit;
mod index;
pub mod laws;
mod new_places;
mod overlay;
mod parts;
mod patched_file;
pub mod runs;
mod table;
pub mod tail;
