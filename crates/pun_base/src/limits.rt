//! Numbers that a standard or the format of a patched file fixes.

/// How many bytes a page has (Intel SDM volume 3, section 4.5).
pub const PAGE_LEN: u32 = 4096;

/// How many bytes an instruction has at most (Intel SDM volume 2, section 2.3.11).
pub const INSTRUCTION_MAX: u8 = 15;

/// How many bytes a `jmp rel32` has: E9 and a displacement of 32 bits (Intel SDM volume 2, JMP).
pub const JUMP_LEN: u8 = 5;

/// The lowest address of a patched file, at which its program header table begins.
pub const TABLE_LOW: u32 = 0x1_0000;

/// The first address behind those that this table may take.
pub const TABLE_END: u32 = 0x1_E000;

/// The lowest address of an original, of new code and of the private range.
pub const ORIGINAL_LOW: u32 = 0x2_0000;

/// The first address behind those of an original, of the private range and of the places of new code. An address below it
/// is its own sign extension from 32 bits.
pub const ADDRESS_END: u32 = 0x7FFF_0000;

/// How many bytes the private range has in front of its data part.
pub const DATA_AT: u32 = 64;

/// How many bytes a counter has.
pub const COUNTER_LEN: u32 = 8;

/// How many bytes a ring's position has, and each of its slots.
pub const SLOT_LEN: u32 = 4;
