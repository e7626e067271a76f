//! Blocks of free ranges.
ghost use Rattle.std.specs.Prelude.{◌≡◌, ◌<◌, ◌≤◌, vec_len, vec_capacity};
ghost use Rattle.address_space.specs.Longest.{greatest};

use crate::free_range::FreeRange;

/// Some ranges that follow one another, and the length of the longest of them. A block has less than 64 ranges, and room for
/// as many.
#[derive(Drop)]
pub struct Block {
    pub ranges: Vec<FreeRange>,
    pub longest: u32,
    ghost some: { 1 ≤ vec_len ranges },
    ghost few: { vec_len ranges < 64 },
    ghost room: { 64 ≤ vec_capacity ranges },
    ghost measured: { longest ≡ greatest ranges.items },
}
