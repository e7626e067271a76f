//! The least free place, found by the ranges that are free.
ghost use Rattle.std.specs.Prelude.{ℕ, ◌<◌, ◌≤◌, ◌^◌, length, slice_index_or};
ghost use Rattle.pun_base.specs.Least.{IsLeast, Least};
ghost use Rattle.address_space.specs.Ranges.{
  Ascending,
  IsSmall,
  PlacesFrom,
  FitsIn,
  FitsAmong,
  EndedFirst,
};
ghost use Rattle.address_space.specs.Blocks.{flat};

use crate::block::Block;
use crate::blocks::{blocks_begun, blocks_ended};
use crate::free_range::FreeRange;
use crate::window::{Window, next_step};

/// The least address at or above `low`, less than `width` above a step, at which a window's
/// addresses avoid its range.
fn next_place(window: Window, low: u32) -> u64
    requires small { IsSmall window }
    requires from { window.from < window.top }
    ensures value { IsLeast (PlacesFrom window low) result }
    ensures bound { result < 2 ^ 34 }
{
    let next = next_step(window.from, window.step, window.width, u64::from(low));
    match window.avoid {
        Some(avoid) if u64::from(avoid.lo) < next + window.size && next < u64::from(avoid.hi) => {
            next_step(window.from, window.step, window.width, u64::from(avoid.hi))
        }
        _ => next,
    }
}

/// The least place for a window's addresses in a free range.
fn fit_in(window: Window, range: FreeRange) -> Option<u32>
    requires small { IsSmall window }
    requires from { window.from < window.top }
    ensures { Least (FitsIn window range) result }
{
    let hi = u64::from(range.hi);
    if hi < u64::from(range.lo) + window.size {
        return None;
    }
    let place = next_place(window, range.lo);
    if place < window.top && place + window.size <= hi {
        Some(place as u32)
    } else {
        None
    }
}

/// The least place for a window's addresses in free ranges.
fn fit_among(window: Window, ranges: &[FreeRange]) -> Option<u32>
    requires small { IsSmall window }
    requires from { window.from < window.top }
    requires ascending { Ascending 0x20000 ranges.now }
    ensures { Least (FitsAmong window ranges.now) result }
{
    for range in ranges {
        if window.top <= u64::from(range.lo) {
            return None;
        }
        if let Some(place) = fit_in(window, *range) {
            return Some(place);
        }
    }
    None
}

/// How many ranges end at or below an address; they are the first ones.
pub fn count_ended(ranges: &[FreeRange], addr: u64) -> usize
    requires { Ascending 0x20000 ranges.now }
    ensures bound { result ≤ length ranges.now }
    ensures parted { EndedFirst ranges.now addr result }
{
    ranges.partition_point(|range| u64::from(range.hi) <= addr)
}

/// The first block from `first` up to and without `end` that has a range of `size` addresses, or
/// `end`.
fn long_block(blocks: &[Block], first: usize, end: usize, size: u64) -> usize
    requires first { first ≤ end }
    requires end { end ≤ length blocks.now }
    ensures bound { (first ≤ result) × (result ≤ end) }
    ensures short { (k : ℕ) (d : Block) → first ≤ k → k < result → (slice_index_or blocks.now k d).longest < size }
{
    for number in first..end {
        if size <= u64::from(blocks[number].longest) {
            return number;
        }
    }
    end
}

/// The least place for a window's addresses in the ranges of all blocks.
pub fn least(window: Window, blocks: &[Block]) -> Option<u32>
    requires small { IsSmall window }
    requires ascending { Ascending 0x20000 (flat blocks.now) }
    ensures { Least (FitsAmong window (flat blocks.now)) result }
{
    if window.top <= window.from {
        return None;
    }
    let end = blocks_begun(blocks, window.top);
    let mut low = window.from;
    let mut next = blocks_ended(blocks, low);
    while next < end {
        let number = long_block(blocks, next, end, window.size);
        if number == end {
            return None;
        }
        let ranges = blocks[number].ranges.as_slice();
        if let Some(place) = fit_among(window, &ranges[count_ended(ranges, low)..]) {
            return Some(place);
        }
        low = next_place(window, ranges[ranges.len() - 1].lo);
        next = blocks_ended(blocks, low).max(number + 1);
    }
    None
}
