//! What the crates that know no instruction give back, against values from elsewhere, as far as no command shows it: they are tested by
//! their public calls, since a crate with tests of its own is proved twice.
//!
//! Stands on `real_files`, `page_group`, `byte_locks`, `address_space`, `jump_form` and `patch_report`; nothing stands on it.
#![tactic(auto)]

#[cfg(test)]
mod tests;
