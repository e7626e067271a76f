//! Free addresses.
ghost use Rattle.std.specs.Prelude.{◌≡◌, ℕ, pos, ◌+ℤ◌, ◌+◌, ◌-◌, ◌*◌, ◌^◌, ◌<◌, ◌≤◌, ◌↔◌, length, map, None, IfOk, OnOk, OnErr};
ghost use Rattle.address_space.specs.Free.{extent_of, whole_pages, Misses, IsFree};
ghost use Rattle.pun_base.specs.Least.{Least};
ghost use Rattle.address_space.specs.Marks.{MarksMore};
ghost use Rattle.address_space.specs.Fit.{Fits, FitsStep, FitsNear, FitsAside, FitsPages};

use crate::blank_block::BlankBlock;
use crate::block::Block;
use crate::blocks::{block_place, blocks_of, mark_blocks, take_out};
use crate::extent::Extent;
use crate::marked_places::shift_of;
use crate::ranges::free_beside;
use crate::search::least;
use crate::window::{Window, start, top};
use pun_base::blanks::prepare;
use pun_base::limits::{ADDRESS_END, ORIGINAL_LOW, PAGE_LEN};
use pun_base::range::Range;
use std::alloc::{AllocError, Global};
use std::marker::Model;

/// The addresses where code may be put: those from 0x20000 up to and without 0x7FFF0000 that aren't taken.
///
/// They are kept as the maximal free ranges in ascending order, by blocks of less than 64, and for each block the length of its
/// longest range, by which a search skips. Memory is taken by `new` and `reserve` alone: `reserve` makes blank blocks beforehand.
/// Contracts see as `spare` how many these are, and so for how many more ranges they serve, since a range that is taken needs one
/// at most.
#[derive(Drop)]
pub struct Space {
    blocks: Vec<Block>,
    blank: Vec<BlankBlock>,
}

impl Model for Space {
    ghost use Rattle.std.specs.Prelude.{◌+◌, ◌≤◌, vec_len, vec_capacity};
    ghost use Rattle.address_space.specs.Free.{SpaceState};
    ghost use Rattle.address_space.specs.Ranges.{Ascending, gaps};
    ghost use Rattle.address_space.specs.Blocks.{flat};

    ghost Value = { SpaceState };

    ghost view = { λ s. record { taken = gaps 0x20000 (flat s.blocks.items); spare = vec_len s.blank } };

    ghost invariant = { λ s. Ascending 0x20000 (flat s.blocks.items) × (vec_len s.blocks + vec_len s.blank ≤ vec_capacity s.blocks) };
}

impl Space {
    /// The space where each page that meets one of these ranges is taken.
    pub fn new(alloc: Global, taken: &[Range]) -> Result<Space, AllocError>
        ensures { IfOk result (λ space. (t n : ℕ) → 1 ≤ n → IsFree space.taken t n
            ↔ IsFree (map whole_pages taken.now) t n) }
    {
        let mut extents = Vec::new(alloc);
        for range in taken {
            extents.push(Extent::of_pages(*range))?;
        }
        extents.sort_unstable_by_key(|extent| extent.lo);
        let free = free_beside(alloc, &extents)?;
        let blocks = blocks_of(alloc, &free)?;
        Ok(Space {
            blocks,
            blank: Vec::new(alloc),
        })
    }

    /// Makes room for at least `n` more calls of `take`.
    pub fn reserve(&mut self, alloc: Global, n: u32) -> Result<(), AllocError>
        ensures spare { OnOk result (n ≤ self.new.spare) }
        ensures taken { OnOk result (self.new.taken ≡ self.old.taken) }
        ensures refused { OnErr result (self.new ≡ self.old) }
    {
        self.blocks.reserve(n as usize)?;
        prepare(&mut self.blank, alloc, n as usize)
    }

    /// Takes the addresses of a range, which isn't widened to whole pages.
    pub fn take(&mut self, range: Range)
        requires free { IsFree self.old.taken range.lo (range.hi - range.lo) }
        requires spare { 1 ≤ self.old.spare }
        ensures free { (t n : ℕ) → 1 ≤ n → IsFree self.new.taken t n
            ↔ (IsFree self.old.taken t n × Misses t n (extent_of range)) }
        ensures spare { self.old.spare ≤ self.new.spare + 1 }
    {
        let (number, place) = block_place(&self.blocks, range);
        take_out(&mut self.blocks, &mut self.blank, number, place, range);
    }

    /// The least address from `lo` up to and without `hi` where `size` addresses are free and none is one of `avoid`.
    pub fn least_fit(&self, lo: i64, hi: i64, size: u32, avoid: Option<Range>) -> Option<u32>
        requires { 1 ≤ size }
        ensures { Least (Fits self.now.taken lo hi size avoid) result }
    {
        self.least_fit_step(lo, hi, 1, size, avoid)
    }

    /// The same of the addresses `lo`, `lo + step`, `lo + 2 * step` and so on alone.
    pub fn least_fit_step(
        &self,
        lo: i64,
        hi: i64,
        step: u32,
        size: u32,
        avoid: Option<Range>,
    ) -> Option<u32>
        requires step { 1 ≤ step }
        requires size { 1 ≤ size }
        ensures { Least (FitsStep self.now.taken lo hi step size avoid) result }
    {
        let step = u64::from(step);
        let window = Window {
            from: start(lo, step),
            top: top(hi),
            step,
            width: 1,
            size: u64::from(size),
            avoid,
        };
        least(window, &self.blocks)
    }

    /// The least address below `hi` where `size` addresses are free, of the `width` addresses from `lo` on, those from `lo + step` on,
    /// those from `lo + 2 * step` on, and so on alone.
    pub fn least_fit_near(&self, lo: i64, hi: i64, step: u64, width: u64, size: u32) -> Option<u32>
        requires step { (1 ≤ step) × (step ≤ 2 ^ 32) }
        requires width { (1 ≤ width) × (width ≤ 0x20000) }
        requires size { 1 ≤ size }
        ensures { Least (FitsNear self.now.taken lo hi step width size) result }
    {
        let window = Window {
            from: start(lo, step),
            top: top(hi),
            step,
            width,
            size: u64::from(size),
            avoid: None,
        };
        least(window, &self.blocks)
    }

    /// Marks how far above `lo` the addresses from `lo` up to and without `hi` lie where `size` addresses are free, multiples of `step`
    /// aside, and nothing else.
    pub fn mark_places(&self, lo: i64, hi: i64, step: u32, size: u32, words: &mut [u64])
        requires step { (1 ≤ step) × (step ≤ 64 * length words.old) }
        requires size { 1 ≤ size }
        ensures { MarksMore words.old (FitsAside self.now.taken lo hi step size) words.new }
    {
        let window = Window {
            from: start(lo, 1),
            top: top(hi),
            step: step as u64,
            width: 1,
            size: size as u64,
            avoid: None,
        };
        let shift = shift_of(lo, step as u64);
        mark_blocks(words, window, shift, &self.blocks);
    }

    /// The least address of a page from which on `pages` pages are free: a page has 4,096 bytes.
    pub fn least_pages(&self, pages: u32) -> Option<u32>
        requires { 1 ≤ pages }
        ensures { Least (FitsPages self.now.taken pages) result }
    {
        let window = Window {
            from: ORIGINAL_LOW as u64,
            top: ADDRESS_END as u64,
            step: PAGE_LEN as u64,
            width: 1,
            size: u64::from(pages) * PAGE_LEN as u64,
            avoid: None,
        };
        least(window, &self.blocks)
    }
}
