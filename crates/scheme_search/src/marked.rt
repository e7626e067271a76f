//! The search over shared values in which those that leave one of the jumps a free target are
//! marked.
ghost use Rattle.std.specs.Prelude.{◌≡◌, true, ℕ, ◌*◌, ◌<◌, ◌≤◌, ◌^◌, length};
ghost use Rattle.address_space.specs.Marks.{IsMarked};
ghost use Rattle.scheme_search.specs.Marked.{PassesMarked};
ghost use Rattle.scheme_search.specs.Shared.{FitsWay, IsWay};

use crate::shared::{Way, end_of, next_value};
use address_space::marks::next_marked;
use address_space::space::Space;

/// The most values that are marked.
pub(crate) const MARKS: u64 = 0x1_0000;

/// Marks of the shared values that leave one of two jumps a free target, and the other jump.
#[derive(Clone, Copy)]
pub(crate) struct Marks<'a> {
    pub(crate) way: Way,
    pub(crate) words: &'a [u64],
}

/// Whether the values before `to` that leave the jump a free target can be marked: its lowest
/// targets lie one address apart.
pub(crate) fn can_mark(way: Way, to: u64) -> bool
    ensures can { result ≡ true → (way.scale ≡ 1) × (to ≤ way.step) × (way.step ≤ 0x10000) }
    ensures all { way.scale ≡ 1 → to ≤ way.step → way.step ≤ 0x10000 → result ≡ true }
{
    way.scale == 1 && to <= way.step as u64 && way.step as u64 <= MARKS
}

/// Marks the values before `to` that leave the jump a free target, and perhaps others.
pub(crate) fn mark_values(space: &Space, way: Way, to: u64, words: &mut [u64])
    requires way { IsWay way to }
    requires each { way.scale ≡ 1 }
    requires few { to ≤ way.step }
    requires room { way.step ≤ 64 * length words.old }
    ensures { (y t : ℕ) → y < to → FitsWay space.now.taken way y t → IsMarked words.new y }
{
    space.mark_places(way.lo, end_of(way, to), way.step, way.size, words);
}

/// A value from `x` on before which no marked one leaves the jump a free target: the next value
/// with a free target, and from there the next marked one.
fn next_open(space: &Space, way: Way, words: &[u64], x: u64, to: u64) -> u64
    requires ordered { x ≤ to }
    requires way { IsWay way to }
    requires few { (to ≤ 64 * length words.now) × (to ≤ 2 ^ 32) }
    ensures { PassesMarked space.now.taken way words.now x to result }
{
    let low = next_value(space, way, x, to);
    next_marked(words, low as usize, to as usize) as u64
}

/// A value from `x` on before which no marked one leaves the jump a free target, sought until it is
/// marked and may have a free target.
pub(crate) fn next_agreed(space: &Space, way: Way, words: &[u64], x: u64, to: u64) -> u64
    requires ordered { x ≤ to }
    requires way { IsWay way to }
    requires few { (to ≤ 64 * length words.now) × (to ≤ 2 ^ 32) }
    ensures { PassesMarked space.now.taken way words.now x to result }
{
    let mut low = x;
    let mut next = next_open(space, way, words, x, to);
    while low < next {
        low = next;
        next = next_open(space, way, words, low, to);
    }
    next
}
