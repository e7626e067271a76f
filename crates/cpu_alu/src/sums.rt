//! Sums and differences of numbers of a width, with a carry or a borrow.
ghost use Rattle.std.specs.Prelude.{◌≡◌, ◌<◌, ◌^◌, not, ◌&&◌, nat_le, nat_lt, if◌then◌else◌};
ghost use Rattle.cpu_alu.specs.Widths.{bits, is_negative};
ghost use Rattle.cpu_alu.specs.Sums.Way.{Plus, Minus};
ghost use Rattle.cpu_alu.specs.Arithmetic.{summed, differ};

use crate::operation::Width;
use crate::outcome::AluOut;

/// Whether a number is less than another, or equal where that counts too.
fn is_below(x: u64, y: u64, or_equal: bool) -> bool
    ensures { result ≡ (if or_equal then nat_le x y else nat_lt x y) }
{
    if or_equal { x <= y } else { x < y }
}

/// Numbers of one sign have a sum of the other.
fn sum_overflows(width: Width, x: u64, y: u64, value: u64) -> bool
    ensures { result ≡ (not (differ (is_negative width x) (is_negative width y))
        && differ (is_negative width x) (is_negative width value)) }
{
    !width.signs_differ(x, y) && width.signs_differ(x, value)
}

/// Numbers of two signs have a difference of the second's.
fn difference_overflows(width: Width, x: u64, y: u64, value: u64) -> bool
    ensures { result ≡ (differ (is_negative width x) (is_negative width y)
        && differ (is_negative width x) (is_negative width value)) }
{
    width.signs_differ(x, y) && width.signs_differ(x, value)
}

pub(crate) fn sum(width: Width, x: u64, y: u64, carry: bool, rest: u64) -> AluOut
    requires left { x < 2 ^ bits width }
    requires right { y < 2 ^ bits width }
    ensures { result ≡ summed Plus width x y carry rest }
{
    let value = width.cut(x.wrapping_add(y).wrapping_add(u64::from(carry)));
    let out = is_below(value, x, carry);
    let half = x % 16 + y % 16 + u64::from(carry) >= 16;
    let overflow = sum_overflows(width, x, y, value);
    AluOut::new(width, value, Some(out), Some(half), Some(overflow), rest)
}

pub(crate) fn difference(width: Width, x: u64, y: u64, borrow: bool, rest: u64) -> AluOut
    requires left { x < 2 ^ bits width }
    requires right { y < 2 ^ bits width }
    ensures { result ≡ summed Minus width x y borrow rest }
{
    let value = width.cut(x.wrapping_sub(y).wrapping_sub(u64::from(borrow)));
    let out = is_below(x, y, borrow);
    let half = x % 16 < y % 16 + u64::from(borrow);
    let overflow = difference_overflows(width, x, y, value);
    AluOut::new(width, value, Some(out), Some(half), Some(overflow), rest)
}
