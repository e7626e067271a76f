//! The statuses that a command answers.

/// The command did its work.
pub const DONE: u8 = 0;

/// The patch was made, and some sites are left.
pub const LEFT: u8 = 1;

/// The words are of no command's form.
pub const USAGE: u8 = 2;

/// The inputs are refused.
pub const REFUSED: u8 = 3;

pub const READ_FAULT: u8 = 4;

/// The desk or the sink failed.
pub const WRITE_FAULT: u8 = 5;

pub const OUT_OF_MEMORY: u8 = 6;

/// The patched file isn't sound.
pub const UNSOUND: u8 = 7;

/// Fewer steps were made than were asked for.
pub const FEWER: u8 = 8;
