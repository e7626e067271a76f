//! Lists of free ranges: made, changed and measured.
ghost use Rattle.std.specs.Prelude.{◌≡◌, ℕ, ◌+◌, ◌*◌, ◌<◌, ◌≤◌, ◌++◌, ◌↔◌, take, drop, slice_index_or, vec_len, vec_capacity, IfOk, OnOk};
ghost use Rattle.std.specs.List.{All};
ghost use Rattle.std.specs.List.Sorted.{IsNonDecreasingBy};
ghost use Rattle.address_space.specs.Free.{IsFree};
ghost use Rattle.address_space.specs.Ranges.{Ascending, LiesAmong, left_of, range_if};
ghost use Rattle.address_space.specs.Longest.{greatest};

use crate::extent::Extent;
use crate::free_range::FreeRange;
use pun_base::limits::{ADDRESS_END, ORIGINAL_LOW};
use pun_base::range::Range;
use std::alloc::{AllocError, Global};

/// The ranges that ascending taken ones leave free.
pub fn free_beside(alloc: Global, taken: &[Extent]) -> Result<Vec<FreeRange>, AllocError>
    requires sorted { IsNonDecreasingBy (λ extent. extent.lo) taken.now }
    requires some { All (λ extent. extent.lo < extent.hi) taken.now }
    ensures ascending { IfOk result (λ free. Ascending 0x20000 free.items) }
    ensures free { IfOk result (λ free. (t n : ℕ) → 1 ≤ n → LiesAmong free.items t n
        ↔ IsFree taken.now t n) }
{
    let mut free = Vec::new(alloc);
    let mut lo = ORIGINAL_LOW as u64;
    for extent in taken {
        add_below(&mut free, lo, extent.lo.min(ADDRESS_END as u64))?;
        lo = lo.max(extent.hi);
    }
    add_below(&mut free, lo, ADDRESS_END as u64)?;
    Ok(free)
}

/// Adds the range from `lo` up to and without `hi` if it has an address.
fn add_below(free: &mut Vec<FreeRange>, lo: u64, hi: u64) -> Result<(), AllocError>
    requires { hi ≤ 0x7FFF0000 }
    ensures { OnOk result (free.new.items ≡ free.old.items ++ range_if lo hi) }
{
    if lo < hi {
        free.push(FreeRange {
            lo: lo as u32,
            hi: hi as u32,
        })?;
    }
    Ok(())
}

/// Takes a range out of the free one at a place, of which it is a part.
pub fn split(free: &mut Vec<FreeRange>, place: usize, range: Range)
    requires place { place < vec_len free.old }
    requires room { vec_len free.old < vec_capacity free.old }
    ensures items { (d : FreeRange) → free.new.items
        ≡ take place free.old.items ++ (left_of (slice_index_or free.old.items place d) range
        ++ drop (place + 1) free.old.items) }
    ensures len { vec_len free.new ≤ vec_len free.old + 1 }
    ensures capacity { vec_capacity free.old ≤ vec_capacity free.new }
{
    let whole = free[place];
    let above = FreeRange {
        lo: range.hi,
        hi: whole.hi,
    };
    let below = FreeRange {
        lo: whole.lo,
        hi: range.lo,
    };
    if whole.lo < range.lo {
        free[place] = below;
        if range.hi < whole.hi {
            free.insert(place + 1, above).unwrap();
        }
    } else if range.hi < whole.hi {
        free[place] = above;
    } else {
        free.remove(place);
    }
}

/// The length of the longest of the ranges, 0 where there is none.
pub fn longest_of(ranges: &[FreeRange]) -> u32
    ensures { result ≡ greatest ranges.now }
{
    let mut longest = 0;
    for range in ranges {
        longest = longest.max(range.hi.saturating_sub(range.lo));
    }
    longest
}
