//! The list of blocks: made, changed and searched by address.
ghost use Rattle.std.specs.Prelude.{◌≡◌, ℕ, ◌+◌, ◌-◌, ◌*◌, ◌^◌, ◌<◌, ◌≤◌, ◌++◌, length, take, drop, slice_index_or, vec_len, vec_capacity, IfOk, MatchOption};
ghost use Rattle.address_space.specs.Ranges.{Ascending, IsPlaceAmong, IsSmall, LiesAmong, left_of};
ghost use Rattle.address_space.specs.Marks.{MarksMore};
ghost use Rattle.address_space.specs.Blocks.{flat, begin, ranges_if, BlocksEnded, BlocksBegun, LeavesSome, StandsAt, low_of, high_of};

use crate::blank_block::{BlankBlock, ROOM};
use crate::block::Block;
use crate::free_range::FreeRange;
use crate::marked_places::mark_ranges;
use crate::ranges::{longest_of, split};
use crate::search::count_ended;
use crate::window::Window;
use pun_base::blanks::Blank;
use pun_base::range::Range;
use std::alloc::{AllocError, Global};

/// How many ranges the blocks have that are made first, and each half of one that has no more room.
const HALF: usize = ROOM / 2;

/// The blocks of a list of ranges.
pub fn blocks_of(alloc: Global, ranges: &[FreeRange]) -> Result<Vec<Block>, AllocError>
    ensures { IfOk result (λ blocks. flat blocks.items ≡ ranges.now) }
{
    let mut blocks = Vec::new(alloc);
    let mut rest = ranges;
    while !rest.is_empty() {
        let (first, behind) = rest.split_at(rest.len().min(HALF));
        blocks.push(BlankBlock::blank(alloc)?.filled(first))?;
        rest = behind;
    }
    Ok(blocks)
}

/// Where the first range of a block begins.
fn low_of(block: &Block) -> u32
    ensures { result ≡ low_of block.now }
{
    block.ranges[0].lo
}

/// Where the last one ends.
fn high_of(block: &Block) -> u32
    ensures { result ≡ high_of block.now }
{
    block.ranges[block.ranges.len() - 1].hi
}

/// How many blocks end at or below an address; they are the first ones.
pub fn blocks_ended(blocks: &[Block], addr: u64) -> usize
    requires { Ascending 0x20000 (flat blocks.now) }
    ensures bound { result ≤ length blocks.now }
    ensures parted { BlocksEnded blocks.now addr result }
{
    blocks.partition_point(|block| u64::from(high_of(block)) <= addr)
}

/// How many blocks begin below an address; they are the first ones.
pub fn blocks_begun(blocks: &[Block], addr: u64) -> usize
    requires { Ascending 0x20000 (flat blocks.now) }
    ensures bound { result ≤ length blocks.now }
    ensures parted { BlocksBegun blocks.now addr result }
{
    blocks.partition_point(|block| u64::from(low_of(block)) < addr)
}

/// The number of the block in which a range lies, and the place there of the free range that it is a part of.
pub fn block_place(blocks: &[Block], range: Range) -> (usize, usize)
    requires ascending { Ascending 0x20000 (flat blocks.now) }
    requires lies { LiesAmong (flat blocks.now) range.lo (range.hi - range.lo) }
    ensures { StandsAt blocks.now result.0 result.1 range.lo range.hi }
{
    let lo = range.lo as u64;
    let number = blocks_ended(blocks, lo);
    let place = count_ended(&blocks[number].ranges, lo);
    (number, place)
}

/// Takes a range out of one of a block, of which it is a part. Where the block has no more room then, its upper half becomes
/// another block.
fn take_in(
    block: &mut Block,
    blank: &mut Vec<BlankBlock>,
    place: usize,
    range: Range,
) -> Option<Block>
    requires place { place < vec_len block.old.ranges }
    requires some { LeavesSome block.old.ranges.items place range.lo range.hi }
    requires blank { 1 ≤ vec_len blank.old }
    ensures ranges { (d : FreeRange) → block.new.ranges.items ++ ranges_if result
        ≡ take place block.old.ranges.items ++ (left_of (slice_index_or block.old.ranges.items place d) range
        ++ drop (place + 1) block.old.ranges.items) }
    ensures blank { MatchOption result (vec_len blank.new ≡ vec_len blank.old) (λ _. vec_len blank.new + 1 ≡ vec_len blank.old) }
{
    split(&mut block.ranges, place, range);
    if block.ranges.len() < ROOM {
        block.longest = longest_of(&block.ranges);
        return None;
    }
    let upper = blank.pop().unwrap().filled(&block.ranges[HALF..]);
    block.ranges.truncate(HALF);
    block.longest = longest_of(&block.ranges);
    Some(upper)
}

/// Takes a range out of one of a block with a number, of which it is a part.
pub fn take_out(
    blocks: &mut Vec<Block>,
    blank: &mut Vec<BlankBlock>,
    number: usize,
    place: usize,
    range: Range,
)
    requires number { number < vec_len blocks.old }
    requires place { (d : Block) → place < length (slice_index_or blocks.old.items number d).ranges.items }
    requires room { vec_len blocks.old < vec_capacity blocks.old }
    requires blank { 1 ≤ vec_len blank.old }
    ensures items { (d : FreeRange) → flat blocks.new.items
        ≡ take (begin blocks.old.items number + place) (flat blocks.old.items)
        ++ (left_of (slice_index_or (flat blocks.old.items) (begin blocks.old.items number + place) d) range
        ++ drop (begin blocks.old.items number + place + 1) (flat blocks.old.items)) }
    ensures room { vec_len blocks.new + vec_len blank.new ≤ vec_len blocks.old + vec_len blank.old }
    ensures capacity { vec_capacity blocks.old ≤ vec_capacity blocks.new }
    ensures blank { vec_len blank.old ≤ vec_len blank.new + 1 }
{
    let block = &mut blocks[number];
    let whole = block.ranges[place];
    if block.ranges.len() == 1 && range.lo <= whole.lo && whole.hi <= range.hi {
        blocks.remove(number);
    } else if let Some(upper) = take_in(block, blank, place, range) {
        blocks.insert(number + 1, upper).unwrap();
    }
}

/// Marks the places of a window in the ranges of blocks.
pub fn mark_blocks(words: &mut [u64], window: Window, shift: u64, blocks: &[Block])
    requires small { IsSmall window }
    requires few { (window.step ≤ 64 * length words.old) × (window.step ≤ 2 ^ 32) }
    requires shift { shift ≤ window.step }
    ensures { MarksMore words.old (IsPlaceAmong window shift (flat blocks.now) (length (flat blocks.now))) words.new }
{
    for block in blocks {
        mark_ranges(words, window, shift, &block.ranges);
    }
}
