//! The search over shared values.
//!
//! Where two jumps share displacement bytes, the number that these spell leaves each of them some targets: to the one that has them
//! high in its displacement a band, to the other one the targets a step apart.
ghost use Rattle.std.specs.Prelude.{◌≡◌, ℕ, pos, ◌+ℤ◌, ◌≤ℤ◌, ◌+◌, ◌*◌, ◌<◌, ◌≤◌, true, false, length, IfSome};
ghost use Rattle.pun_base.specs.Least.{Least};
ghost use Rattle.address_space.specs.Fit.{FitsNear, FitsStep};
ghost use Rattle.scheme_search.specs.Order.{FirstBy, by, then_by};
ghost use Rattle.scheme_search.specs.Shared.{FitsWay, IsNextValue, IsPick, IsPickIn, IsWay, PassesBoth, x_of, first_of, second_of, pick_order};
ghost use Rattle.scheme_search.specs.Marked.{AreMarks};

use crate::bands::next_stepped;
use crate::marked::{MARKS, Marks, can_mark, mark_values, next_agreed};
use address_space::space::Space;
use pun_base::range::Range;

/// How many addresses beside each other a search looks at together, at most (`Space::least_fit_near`).
pub(crate) const WIDEST: u32 = 0x2_0000;

/// The targets of a jump by shared value: for the value x those from `lo` + x * `scale` on, `step` apart, in `width` addresses; and
/// the size of the code there.
#[derive(Clone, Copy)]
pub struct Way {
    pub lo: i64,
    pub scale: u64,
    pub step: u32,
    pub width: u64,
    pub size: u32,
}

/// A shared value and two places.
#[derive(Clone, Copy)]
pub struct Pick {
    pub x: u64,
    pub first: u32,
    pub second: u32,
}

fn start_of(way: Way, x: u64) -> i64
    requires way { IsWay way x }
    ensures { result ≡ way.lo +ℤ pos (x * way.scale) }
{
    way.lo + (x * way.scale) as i64
}

pub(crate) fn end_of(way: Way, x: u64) -> i64
    requires way { IsWay way x }
    ensures { result ≡ way.lo +ℤ pos (x * way.scale + way.width) }
{
    way.lo + (x * way.scale + way.width) as i64
}

/// How far an address lies above a lower end.
pub(crate) fn gap(lo: i64, t: u32) -> u64
    requires { lo ≤ℤ pos t }
    ensures { pos t ≡ lo +ℤ pos result }
{
    if lo < 0 {
        lo.unsigned_abs() + u64::from(t)
    } else {
        u64::from(t) - lo as u64
    }
}

/// The least free target of the values from `x` to `to`, whose targets are taken as one window.
fn part_fit(
    space: &Space,
    way: Way,
    x: u64,
    to: u64,
    step: u32,
    avoid: Option<Range>,
) -> Option<u32>
    requires ordered { x ≤ to }
    requires way { IsWay way to }
    requires step { 1 ≤ step }
    ensures { Least (FitsStep space.now.taken (way.lo +ℤ pos (x * way.scale))
        (way.lo +ℤ pos (to * way.scale + way.width)) step way.size avoid) result }
{
    let start = start_of(way, x);
    let end = end_of(way, to);
    space.least_fit_step(start, end, step, way.size, avoid)
}

/// The least free target of the values from `x` to `to`, for a jump that has a band of targets for
/// each value.
fn band_fit(space: &Space, way: Way, x: u64, to: u64) -> Option<u32>
    requires ordered { x < to }
    requires way { IsWay way to }
    requires narrow { way.width ≤ 0x20000 }
    ensures { Least (FitsNear space.now.taken (way.lo +ℤ pos (x * way.scale))
        (way.lo +ℤ pos (to * way.scale + way.width)) way.scale way.width way.size) result }
{
    let start = start_of(way, x);
    let end = end_of(way, to);
    space.least_fit_near(start, end, way.scale, way.width, way.size)
}

/// Whether a value leaves the jump a free target.
fn is_served(space: &Space, way: Way, x: u64) -> bool
    requires { IsWay way x }
    ensures yes { result ≡ true → (t : ℕ) × FitsWay space.now.taken way x t }
    ensures no { result ≡ false → (t : ℕ) → FitsWay space.now.taken way x t → ⊥ }
{
    match part_fit(space, way, x, x, way.step, None) {
        None => false,
        Some(_) => true,
    }
}

/// The first value from `x` up to and without `to` that leaves the jump a free target, or `to`: each is tried.
fn next_tried(space: &Space, way: Way, x: u64, to: u64) -> u64
    requires ordered { x ≤ to }
    requires way { IsWay way to }
    ensures { IsNextValue space.now.taken way x to result }
{
    for y in x..to {
        if is_served(space, way, y) {
            return y;
        }
    }
    to
}

/// The first value from `x` up to and without `to` that leaves a free target, or `to`, by one search, for a jump that has a band of
/// targets for each value.
fn next_banded(space: &Space, way: Way, x: u64, to: u64) -> u64
    requires ordered { x ≤ to }
    requires way { IsWay way to }
    requires each { way.step ≡ 1 }
    requires bands { way.width ≤ way.scale }
    requires narrow { way.width ≤ 0x20000 }
    ensures { IsNextValue space.now.taken way x to result }
{
    if x == to {
        return to;
    }
    match band_fit(space, way, x, to) {
        None => to,
        Some(t) => {
            let place = gap(way.lo, t);
            (place / way.scale).min(to)
        }
    }
}

/// The first value from `x` up to and without `to` that leaves the jump a free target, or `to`. The values of a jump that has a band of
/// targets for each are passed over together, by one search; those of one whose targets lie a step apart band by band. Two jumps that
/// meet are one of these each.
pub(crate) fn next_value(space: &Space, way: Way, x: u64, to: u64) -> u64
    requires ordered { x ≤ to }
    requires way { IsWay way to }
    ensures { IsNextValue space.now.taken way x to result }
{
    if way.step == 1 && way.width <= way.scale && way.width <= WIDEST as u64 {
        return next_banded(space, way, x, to);
    }
    if way.scale == 1 && way.step <= WIDEST && to - x <= way.step as u64 {
        return next_stepped(space, way, x, to);
    }
    next_tried(space, way, x, to)
}

/// The first two places for the shared value `x`.
fn pick_at(space: &Space, first: Way, second: Way, x: u64) -> Option<Pick>
    requires first { IsWay first x }
    requires second { IsWay second x }
    ensures { FirstBy (then_by first_of (by second_of))
        (λ p. IsPick space.now.taken first second p × (x_of p ≡ x)) result }
{
    match part_fit(space, first, x, x, first.step, None) {
        None => None,
        Some(t) => {
            let place = Range {
                lo: t,
                hi: t + first.size,
            };
            match part_fit(space, second, x, x, second.step, Some(place)) {
                None => None,
                Some(u) => Some(Pick {
                    x,
                    first: t,
                    second: u,
                }),
            }
        }
    }
}

/// A value from `x` on before which no value leaves both jumps a free target: the next one for the
/// first jump, and from there the next one for the second.
fn next_in_turn(space: &Space, first: Way, second: Way, x: u64, to: u64) -> u64
    requires ordered { x ≤ to }
    requires first { IsWay first to }
    requires second { IsWay second to }
    ensures { PassesBoth space.now.taken first second x to result }
{
    next_value(space, second, next_value(space, first, x, to), to)
}

/// A value from `x` on before which no value leaves both jumps a free target. The jump that has a
/// band of targets for each value is asked first, since all its values together take one pass over
/// the free ranges, and each question to the other jump takes one.
fn next_both(space: &Space, first: Way, second: Way, x: u64, to: u64) -> u64
    requires ordered { x ≤ to }
    requires first { IsWay first to }
    requires second { IsWay second to }
    ensures { PassesBoth space.now.taken first second x to result }
{
    if first.scale < first.width {
        next_in_turn(space, second, first, x, to)
    } else {
        next_in_turn(space, first, second, x, to)
    }
}

/// A value from `x` on before which no value leaves both jumps a free target, by the marks where there are some.
fn next_by_marks(
    space: &Space,
    first: Way,
    second: Way,
    marks: Option<Marks<'_>>,
    x: u64,
    to: u64,
) -> u64
    requires ordered { x ≤ to }
    requires first { IsWay first to }
    requires second { IsWay second to }
    requires marks { IfSome marks (AreMarks space.now.taken first second to) }
    ensures { PassesBoth space.now.taken first second x to result }
{
    match marks {
        None => next_both(space, first, second, x, to),
        Some(marks) => next_agreed(space, marks.way, marks.words, x, to),
    }
}

/// Whether some value leaves the jump a free target: `false` is certain, `true` isn't.
fn has_room(space: &Space, way: Way, from: u64, to: u64) -> bool
    requires ordered { from ≤ to }
    requires way { IsWay way to }
    ensures { result ≡ false → (y t : ℕ) → from ≤ y → y < to → FitsWay space.now.taken way y t → ⊥ }
{
    match part_fit(space, way, from, to, 1, None) {
        None => false,
        Some(_) => true,
    }
}

/// The first two places by a shared value from `from` up to and without `to`, sought value by
/// value, or among the marked values.
fn search(
    space: &Space,
    first: Way,
    second: Way,
    marks: Option<Marks<'_>>,
    from: u64,
    to: u64,
) -> Option<Pick>
    requires ordered { from ≤ to }
    requires first { IsWay first to }
    requires second { IsWay second to }
    requires marks { IfSome marks (AreMarks space.now.taken first second to) }
    ensures { FirstBy pick_order (IsPickIn space.now.taken first second from to) result }
{
    let mut x = next_by_marks(space, first, second, marks, from, to);
    while x < to {
        match pick_at(space, first, second, x) {
            Some(pick) => return Some(pick),
            None => x = next_by_marks(space, first, second, marks, x + 1, to),
        }
    }
    None
}

/// The first two places by a shared value from `from` up to and without `to`. Where the values that
/// leave one jump a free target can be marked, that takes one pass over the free ranges.
fn search_with(
    space: &Space,
    first: Way,
    second: Way,
    from: u64,
    to: u64,
    words: &mut [u64],
) -> Option<Pick>
    requires ordered { from ≤ to }
    requires first { IsWay first to }
    requires second { IsWay second to }
    requires room { length words.old ≡ 1024 }
    ensures { FirstBy pick_order (IsPickIn space.now.taken first second from to) result }
{
    if can_mark(first, to) {
        mark_values(space, first, to, words);
        let marks = Marks { way: second, words };
        return search(space, first, second, Some(marks), from, to);
    }
    if can_mark(second, to) {
        mark_values(space, second, to, words);
        let marks = Marks { way: first, words };
        return search(space, first, second, Some(marks), from, to);
    }
    search(space, first, second, None, from, to)
}

/// The first two places by a shared value from `from` up to and without `to`, with room for marks
/// that is made here.
fn search_behind(space: &Space, first: Way, second: Way, from: u64, to: u64) -> Option<Pick>
    requires ordered { from ≤ to }
    requires first { IsWay first to }
    requires second { IsWay second to }
    ensures { FirstBy pick_order (IsPickIn space.now.taken first second from to) result }
{
    if from == to {
        return None;
    }
    let mut words = [0; (MARKS / 64) as usize];
    search_with(space, first, second, from, to, &mut words)
}

/// As `search_behind`, but marks values only once the first candidate has failed.
fn search_near(space: &Space, first: Way, second: Way, from: u64, to: u64) -> Option<Pick>
    requires ordered { from ≤ to }
    requires first { IsWay first to }
    requires second { IsWay second to }
    ensures { FirstBy pick_order (IsPickIn space.now.taken first second from to) result }
{
    let x = next_both(space, first, second, from, to);
    if x == to {
        return None;
    }
    match pick_at(space, first, second, x) {
        Some(pick) => Some(pick),
        None => search_behind(space, first, second, x + 1, to),
    }
}

/// The first two places by a shared value from `from` up to and without `to`. Where one of the
/// jumps has no free target at all, it takes two searches, whatever the number of values.
pub fn first_pick(space: &Space, first: Way, second: Way, from: u64, to: u64) -> Option<Pick>
    requires ordered { from ≤ to }
    requires first { IsWay first to }
    requires second { IsWay second to }
    ensures { FirstBy pick_order (IsPickIn space.now.taken first second from to) result }
{
    if has_room(space, first, from, to) && has_room(space, second, from, to) {
        search_near(space, first, second, from, to)
    } else {
        None
    }
}
