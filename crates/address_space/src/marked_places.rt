//! Places in free ranges, marked by their distances from an address, whole multiples of a step aside.
ghost use Rattle.std.specs.Prelude.{◌≡◌, ℕ, pos, ◌+ℤ◌, ◌+◌, ◌*◌, ◌%◌, ◌<◌, ◌≤◌, ◌^◌, length};
ghost use Rattle.address_space.specs.Marks.{MarksMore};
ghost use Rattle.address_space.specs.Ranges.{IsSmall, IsPlaceIn, IsPlaceAmong};

use crate::free_range::FreeRange;
use crate::marks::mark_remainders;
use crate::window::Window;

/// The number that, added to an address, gives its distance from `lo` modulo `step`.
pub fn shift_of(lo: i64, step: u64) -> u64
    requires { (1 ≤ step) × (step ≤ 2 ^ 32) }
    ensures small { result ≤ step }
    ensures value { (t y k : ℕ) → y < step → pos t ≡ lo +ℤ pos (y + k * step) → (t + result) % step ≡ y }
{
    if lo < 0 {
        lo.unsigned_abs() % step
    } else {
        step - lo as u64 % step
    }
}

/// Marks the places of a window in a free range.
fn mark_range(words: &mut [u64], window: Window, shift: u64, range: FreeRange)
    requires small { IsSmall window }
    requires few { (window.step ≤ 64 * length words.old) × (window.step ≤ 2 ^ 32) }
    requires shift { shift ≤ window.step }
    ensures length { length words.new ≡ length words.old }
    ensures marked { MarksMore words.old (IsPlaceIn window shift range) words.new }
{
    let low = u64::from(range.lo).max(window.from);
    let high = (u64::from(range.hi) + 1)
        .saturating_sub(window.size)
        .min(window.top);
    if low < high {
        mark_remainders(words, low + shift, high + shift, window.step);
    }
}

/// Marks the places of a window in free ranges.
pub fn mark_ranges(words: &mut [u64], window: Window, shift: u64, ranges: &[FreeRange])
    requires small { IsSmall window }
    requires few { (window.step ≤ 64 * length words.old) × (window.step ≤ 2 ^ 32) }
    requires shift { shift ≤ window.step }
    ensures { MarksMore words.old (IsPlaceAmong window shift ranges.now (length ranges.now)) words.new }
{
    for range in ranges {
        mark_range(words, window, shift, *range);
    }
}
