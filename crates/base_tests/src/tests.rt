//! The tests, by what they ask.
mod desks_and_fields;
mod file_desks;
mod free_addresses;
mod jumps;
mod locked_bytes;
mod page_groups;
mod reports;
mod search_table;
