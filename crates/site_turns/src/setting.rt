//! What no turn changes.
use crate::mode::Mode;
use elf_read::elf::Elf;
use pun_base::range::Range;
use start_entries::starts::Starts;

/// The original, its starts, what the sites get, and the private range.
#[derive(Clone, Copy)]
pub(crate) struct Setting<'a> {
    pub(crate) elf: &'a Elf<'a>,
    pub(crate) starts: &'a Starts,
    pub(crate) mode: Mode,
    pub(crate) private: Range,
}
