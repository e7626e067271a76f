//! Shifts of numbers of a width.
ghost use Rattle.std.specs.Prelude.{◌≡◌, ◌<◌, ◌^◌, pos};
ghost use Rattle.cpu_alu.specs.Widths.{bits, is_negative};
ghost use Rattle.cpu_alu.specs.Shifts.{masked, left, out_left, right, out_right, below_width, at_count_one};
ghost use Rattle.cpu_alu.specs.Arithmetic.{differ, shifted_left, shifted_right, shifted_signed};

use crate::flag_word::Flags;
use crate::operation::Width;
use crate::outcome::AluOut;

/// The places that a count asks for.
pub(crate) fn masked(width: Width, count: u64) -> u32
    ensures value { result ≡ masked width count }
    ensures bound { result < 64 }
{
    match width {
        Width::W64 => (count % 64) as u32,
        Width::W8 | Width::W16 | Width::W32 => (count % 32) as u32,
    }
}

/// A shift by no places.
fn unchanged(value: u64, flags: Flags) -> AluOut
    ensures { result ≡ record { value = value; flags = flags; undefined = 0 } }
{
    AluOut {
        value,
        flags,
        undefined: 0,
    }
}

fn at_count_one(count: u32, overflow: bool) -> Option<bool>
    ensures { result ≡ at_count_one count overflow }
{
    if count == 1 { Some(overflow) } else { None }
}

#[tactic(auto, using(crate::proofs::ShiftResults::left_value))]
fn left(width: Width, x: u64, count: u32) -> u64
    requires { count < 64 }
    ensures { result ≡ left width x count }
{
    width.cut(x << count)
}

/// The last bit that leaves the width at the left.
#[tactic(auto, using(crate::proofs::ShiftResults::left_carry))]
fn out_left(width: Width, x: u64, count: u32) -> Option<bool>
    requires number { x < 2 ^ bits width }
    requires some { 0 < count }
    ensures { result ≡ below_width width count (out_left width x count) }
{
    let bits = width.bits();
    if count < bits {
        Some((x >> (bits - count)) % 2 == 1)
    } else {
        None
    }
}

/// At a count of 1 the bit that leaves is the number's top bit.
#[tactic(auto, using(crate::proofs::ShiftResults::left_carry_one))]
fn overflow_left(width: Width, x: u64, count: u32, value: u64) -> Option<bool>
    requires { x < 2 ^ bits width }
    ensures { result ≡ at_count_one count (differ (is_negative width value)
        (out_left width x count)) }
{
    at_count_one(count, width.signs_differ(value, x))
}

#[tactic(auto, using(crate::proofs::ShiftResults::right_value))]
fn right(width: Width, x: u64, count: u32) -> u64
    requires number { x < 2 ^ bits width }
    requires places { count < 64 }
    ensures { result ≡ right width (pos x) count }
{
    x >> count
}

#[tactic(auto, using(crate::proofs::ShiftResults::right_carry))]
fn out_right(width: Width, x: u64, count: u32) -> Option<bool>
    requires some { 0 < count }
    requires places { count < 64 }
    ensures { result ≡ below_width width count (out_right (pos x) count) }
{
    if count < width.bits() {
        Some((x >> (count - 1)) % 2 == 1)
    } else {
        None
    }
}

fn right_signed(width: Width, number: i64, count: u32) -> u64
    requires { count < 64 }
    ensures { result ≡ right width number count }
{
    width.cut((number >> count).cast_unsigned())
}

fn out_right_signed(number: i64, count: u32) -> bool
    requires some { 0 < count }
    requires places { count < 64 }
    ensures { result ≡ out_right number count }
{
    (number >> (count - 1)).rem_euclid(2) == 1
}

pub(crate) fn shift_left(width: Width, x: u64, count: u32, flags: Flags) -> AluOut
    requires number { x < 2 ^ bits width }
    requires places { count < 64 }
    ensures { result ≡ shifted_left width x count flags }
{
    if count == 0 {
        return unchanged(x, flags);
    }
    let value = left(width, x, count);
    let carry = out_left(width, x, count);
    let overflow = overflow_left(width, x, count, value);
    AluOut::new(width, value, carry, None, overflow, flags.rest)
}

pub(crate) fn shift_right(width: Width, x: u64, count: u32, flags: Flags) -> AluOut
    requires number { x < 2 ^ bits width }
    requires places { count < 64 }
    ensures { result ≡ shifted_right width x count flags }
{
    if count == 0 {
        return unchanged(x, flags);
    }
    let value = right(width, x, count);
    let carry = out_right(width, x, count);
    let overflow = at_count_one(count, width.is_negative(x));
    AluOut::new(width, value, carry, None, overflow, flags.rest)
}

pub(crate) fn shift_signed(width: Width, x: u64, count: u32, flags: Flags) -> AluOut
    requires number { x < 2 ^ bits width }
    requires places { count < 64 }
    ensures { result ≡ shifted_signed width x count flags }
{
    if count == 0 {
        return unchanged(x, flags);
    }
    let number = width.signed(x);
    let value = right_signed(width, number, count);
    let carry = Some(out_right_signed(number, count));
    let overflow = at_count_one(count, false);
    AluOut::new(width, value, carry, None, overflow, flags.rest)
}
