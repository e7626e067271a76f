//! Shared values by the bands of a jump's targets: as many addresses as the step, in which each value has one target.
ghost use Rattle.std.specs.Prelude.{◌≡◌, ℕ, pos, ◌+ℤ◌, ◌+◌, ◌*◌, ◌<◌, ◌≤◌, ◌^◌};
ghost use Rattle.pun_base.specs.Least.{Least};
ghost use Rattle.address_space.specs.Fit.{FitsNear};
ghost use Rattle.scheme_search.specs.Bands.{IsOpenNear, IsStepped};
ghost use Rattle.scheme_search.specs.Shared.{IsNextValue, IsWay};

use crate::shared::{Way, gap};
use address_space::space::Space;

/// The address that lies `d` above a jump's lowest target.
fn above(way: Way, d: u64) -> i64
    requires way { IsWay way 0 }
    requires d { d ≤ 2 ^ 34 }
    ensures { result ≡ way.lo +ℤ pos d }
{
    way.lo + d as i64
}

/// The least address at which the code is free, less than `high` above a jump's lowest target,
/// among the `width` addresses from `low` above that target on and those whole steps above them.
fn open_fit(space: &Space, way: Way, low: u64, high: u64, width: u64) -> Option<u32>
    requires way { IsWay way 0 }
    requires low { low ≤ 2 ^ 34 }
    requires high { high ≤ 2 ^ 34 }
    requires width { (1 ≤ width) × (width ≤ 0x20000) }
    ensures { Least (FitsNear space.now.taken (way.lo +ℤ pos low) (way.lo +ℤ pos high) way.step
        width way.size) result }
{
    let start = above(way, low);
    let end = above(way, high);
    space.least_fit_near(start, end, way.step as u64, width, way.size)
}

/// The least distance above a jump's lowest target at which the code is free, among the `width`
/// distances from `low` on and those whole steps above them, and below `high`.
fn least_open(space: &Space, way: Way, low: u64, high: u64, width: u64) -> Option<u64>
    requires way { IsWay way 0 }
    requires low { low ≤ 2 ^ 34 }
    requires high { high ≤ 2 ^ 34 }
    requires width { (1 ≤ width) × (width ≤ 0x20000) }
    ensures { Least (IsOpenNear space.now.taken way low high width) result }
{
    match open_fit(space, way, low, high, width) {
        None => None,
        Some(t) => Some(gap(way.lo, t)),
    }
}

/// Where the band begins in which the distance `d` is the target of a value from `x` on, less than
/// `step` above `x`.
fn band_of(d: u64, x: u64, step: u64) -> u64
    requires above { x ≤ d }
    requires step { 1 ≤ step }
    ensures multiple { (k : ℕ) × (result ≡ k * step) }
    ensures low { result + x ≤ d }
    ensures high { d < result + x + step }
{
    (d - x) / step * step
}

/// Where the last of the bands ends that begin below `width`.
fn bands_end(width: u64, step: u64) -> u64
    requires width { width ≤ 2 ^ 32 }
    requires step { (1 ≤ step) × (step ≤ 2 ^ 32) }
    ensures multiple { (k : ℕ) × (result ≡ k * step) }
    ensures low { width ≤ result }
    ensures high { result < width + step }
{
    width.div_ceil(step) * step
}

/// The first value from `x` up to and without `to` that leaves a free target, or `to`, for a jump whose lowest targets lie one address
/// apart from value to value, and those of one value a step apart. That is a search for each band that has a free target of a lesser
/// value than the bands before it, and one more; together they pass over the free ranges once.
fn first_of_bands(space: &Space, way: Way, x: u64, to: u64) -> u64
    requires ordered { x < to }
    requires few { to ≤ 2 ^ 32 }
    requires way { IsWay way 0 }
    requires stepped { IsStepped way x to }
    ensures { IsNextValue space.now.taken way x to result }
{
    let step = u64::from(way.step);
    let end = bands_end(way.width, step);
    let mut best = to;
    let mut band = 0;
    while band < end {
        match least_open(space, way, band + x, end + x, best - x) {
            None => return best,
            Some(d) => {
                let next = band_of(d, x, step);
                let least = next + x;
                if d == least {
                    return x;
                }
                best = best.min(d - next);
                band = next + step;
            }
        }
    }
    best
}

/// The first value from `x` up to and without `to` that leaves a free target, or `to`, for a jump whose lowest targets lie one address
/// apart from value to value: `x` itself where one search finds a free range with a target for each value.
pub(crate) fn next_stepped(space: &Space, way: Way, x: u64, to: u64) -> u64
    requires ordered { x ≤ to }
    requires few { to ≤ 2 ^ 32 }
    requires way { IsWay way 0 }
    requires stepped { IsStepped way x to }
    ensures { IsNextValue space.now.taken way x to result }
{
    if x == to {
        return x;
    }
    let step = u64::from(way.step);
    let end = bands_end(way.width, step) + x;
    let low = above(way, x);
    let high = above(way, end.saturating_sub(step));
    match space.least_fit(low, high, way.size + way.step, None) {
        Some(_) => x,
        None => first_of_bands(space, way, x, to),
    }
}
