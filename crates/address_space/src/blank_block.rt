//! Blocks that are made beforehand.
ghost use Rattle.std.specs.Prelude.{◌≡◌, ◌<◌, ◌≤◌, length, vec_len, vec_capacity};

use crate::block::Block;
use crate::free_range::FreeRange;
use crate::ranges::longest_of;
use pun_base::blanks::Blank;
use std::alloc::{AllocError, Global};

/// How many ranges a block has room for.
pub const ROOM: usize = 64;

/// Room for the ranges of a block.
#[derive(Drop)]
pub struct BlankBlock {
    ranges: Vec<FreeRange>,
    ghost blank: { vec_len ranges ≡ 0 },
    ghost room: { 64 ≤ vec_capacity ranges },
}

impl Blank for BlankBlock {
    fn blank(alloc: Global) -> Result<BlankBlock, AllocError> {
        let ranges = Vec::with_capacity(alloc, ROOM)?;
        Ok(BlankBlock { ranges })
    }
}

impl BlankBlock {
    /// The block of some ranges.
    pub fn filled(self, ranges: &[FreeRange]) -> Block
        requires some { 1 ≤ length ranges.now }
        requires few { length ranges.now < 64 }
        ensures { result.ranges.items ≡ ranges.now }
    {
        let BlankBlock { ranges: mut copied } = self;
        copied.extend_from_slice(ranges).unwrap();
        Block {
            longest: longest_of(ranges),
            ranges: copied,
        }
    }
}
