//! Starts in files by their addresses, and numbers of failures, by public calls, against values that were worked out by hand. Files, what
//! they refuse, how a patched one is written and undone are shown by rows.
//!
//! Stands on `elf_emit` and `start_entries`; nothing stands on it.
#![tactic(auto)]

#[cfg(test)]
mod tests;
