//! Windows of addresses, from 0 on.
ghost use Rattle.std.specs.Prelude.{◌≡◌, ◌%◌, ◌<◌, ◌≤◌, ◌^◌};
ghost use Rattle.pun_base.specs.Least.{IsLeast};
ghost use Rattle.address_space.specs.Windows.{IsStart, IsTop};
ghost use Rattle.address_space.specs.Ranges.{StepsFrom};

use pun_base::range::Range;

/// What a search looks for: `size` addresses, none of them in `avoid`, from a place on that lies
/// below `top` and less than `width` above one of `from`, `from + step` and so on.
#[derive(Clone, Copy, Debug, PartialEq, Eq)]
pub struct Window {
    pub from: u64,
    pub top: u64,
    pub step: u64,
    pub width: u64,
    pub size: u64,
    pub avoid: Option<Range>,
}

/// The least of `lo`, `lo + step` and so on that isn't negative.
pub fn start(lo: i64, step: u64) -> u64
    requires { (0 < step) × (step < 2 ^ 33) }
    ensures { IsStart lo step result }
{
    if lo >= 0 {
        return lo as u64;
    }
    let gap = lo.unsigned_abs();
    gap.div_ceil(step) * step - gap
}

/// The end of a window as far as addresses go.
pub fn top(hi: i64) -> u64
    ensures bound { result ≤ 2 ^ 32 }
    ensures value { IsTop hi result }
{
    hi.clamp(0, 1 << 32) as u64
}

/// The remainder of a number by a step. The steps between a jump's targets are powers of 256, for
/// which a processor needs no division, whose cost is some twenty nanoseconds.
pub fn remainder(number: u64, step: u64) -> u64
    requires { 1 ≤ step }
    ensures { result ≡ number % step }
{
    match step {
        0x1 => 0,
        0x100 => number % 0x100,
        0x1_0000 => number % 0x1_0000,
        0x100_0000 => number % 0x100_0000,
        _ => number % step,
    }
}

/// The least address at or above `low` that lies less than `width` above one of `from`, `from + step` and so on.
pub fn next_step(from: u64, step: u64, width: u64, low: u64) -> u64
    requires from { from < 2 ^ 32 }
    requires step { (0 < step) × (step < 2 ^ 33) }
    requires width { 0 < width }
    requires low { low < 2 ^ 32 }
    ensures value { IsLeast (StepsFrom from step width low) result }
    ensures bound { result < 2 ^ 34 }
{
    if low <= from {
        return from;
    }
    let above = remainder(low - from, step);
    if above < width {
        return low;
    }
    low + (step - above)
}
