//! Numbers that digits spell.
ghost use Rattle.std.specs.Prelude.{◌≡◌, ◌+◌, ◌*◌, ◌^◌, ◌≤◌, option_map};
ghost use Rattle.list_text.specs.Digits.{below, digit_in, number_in, hex_number};
ghost use Rattle.list_text.specs.PlainLines.{hex_value};

/// The most digits of a hexadecimal number, which so has at most 32 bits.
const HEX_DIGITS: usize = 8;

/// The greatest number that so many hexadecimal digits spell.
pub(crate) const HEX_MAX: u64 = 0xFFFF_FFFF;

/// What the table has for a byte that is no digit: more than any number of eight digits.
const NO_DIGIT: u64 = 0x1_0000_0000;

/// The bytes 00 to FF in order, each with its value as a hexadecimal digit, `o` for those that are none.
macro_rules! hex_values {
    (o) => { NO_DIGIT };
    (d0) => { 0 };
    (d1) => { 1 };
    (d2) => { 2 };
    (d3) => { 3 };
    (d4) => { 4 };
    (d5) => { 5 };
    (d6) => { 6 };
    (d7) => { 7 };
    (d8) => { 8 };
    (d9) => { 9 };
    (da) => { 10 };
    (db) => { 11 };
    (dc) => { 12 };
    (dd) => { 13 };
    (de) => { 14 };
    (df) => { 15 };
    ($($first:literal: $($cell:ident)*;)*) => {
        [$($(hex_values!($cell)),*),*]
    };
}

static HEX_VALUES: [u64; 256] = hex_values! {
    0x00: o o o o o o o o o o o o o o o o;
    0x10: o o o o o o o o o o o o o o o o;
    0x20: o o o o o o o o o o o o o o o o;
    0x30: d0 d1 d2 d3 d4 d5 d6 d7 d8 d9 o o o o o o;
    0x40: o da db dc dd de df o o o o o o o o o;
    0x50: o o o o o o o o o o o o o o o o;
    0x60: o da db dc dd de df o o o o o o o o o;
    0x70: o o o o o o o o o o o o o o o o;
    0x80: o o o o o o o o o o o o o o o o;
    0x90: o o o o o o o o o o o o o o o o;
    0xa0: o o o o o o o o o o o o o o o o;
    0xb0: o o o o o o o o o o o o o o o o;
    0xc0: o o o o o o o o o o o o o o o o;
    0xd0: o o o o o o o o o o o o o o o o;
    0xe0: o o o o o o o o o o o o o o o o;
    0xf0: o o o o o o o o o o o o o o o o;
};

/// The value of a digit in a base.
fn read_digit(digit: u8, base: u32) -> Option<u32>
    requires low { 2 ≤ base }
    requires high { base ≤ 16 }
    ensures { result ≡ digit_in base digit }
{
    char::from(digit).to_digit(base)
}

/// A number with one more digit behind its own, where it still has at most 64 bits.
fn with_digit(number: u64, base: u32, digit: u8) -> Option<u64>
    requires low { 2 ≤ base }
    requires high { base ≤ 16 }
    ensures { result ≡ below (2 ^ 64) (option_map (λ value. base * number + value)
        (digit_in base digit)) }
{
    let value = read_digit(digit, base)?;
    let product = number.checked_mul(u64::from(base))?;
    product.checked_add(u64::from(value))
}

/// The number that digits spell in a base, where it is at most `most`.
pub fn read_number(digits: &[u8], base: u32, most: u64) -> Option<u64>
    requires low { 2 ≤ base }
    requires high { base ≤ 16 }
    ensures { result ≡ below (most + 1) (number_in base digits.now) }
{
    let mut number = 0;
    for digit in digits {
        number = with_digit(number, base, *digit)?;
    }
    (number <= most).then_some(number)
}

/// The number that 1 to 8 hexadecimal digits of either case spell.
pub(crate) fn read_hex(digits: &[u8]) -> Option<u32>
    ensures { result ≡ hex_number digits.now }
{
    if digits.is_empty() || digits.len() > HEX_DIGITS {
        return None;
    }
    let mut number = 0;
    for digit in digits {
        number = with_hex_digit(number, *digit);
        if number > HEX_MAX {
            return None;
        }
    }
    Some(number as u32)
}

/// The value of a byte as a hexadecimal digit, 2^32 where it is none.
#[inline(always)]
fn hex_value(digit: u8) -> u64
    ensures value { result ≡ hex_value digit }
    ensures bound { result ≤ 2 ^ 32 }
{
    HEX_VALUES[usize::from(digit)]
}

/// A number with one more hexadecimal digit after its own; past 32 bits where the byte is no digit.
#[inline(always)]
pub(crate) fn with_hex_digit(number: u64, digit: u8) -> u64
    requires { number ≤ 2 ^ 58 }
    ensures value { result ≡ 16 * number + hex_value digit }
    ensures bound { result ≤ 16 * number + 2 ^ 32 }
{
    16 * number + hex_value(digit)
}
