//! Fields of a line, each read with the byte that stands behind it.
ghost use Rattle.std.specs.Prelude.{◌≡◌, ◌<◌, ◌≤◌, ◌^◌, length, option_map, take, IfSome};
ghost use Rattle.patch_report.specs.Answers.{is_digit};
ghost use Rattle.patch_report.specs.Fields.{address_before, behind, behind_mark, byte_at, bytes_at, bytes_before, decimal_before, entry_before, hex_value, longer, number_before, word_at};

use crate::row::RUN_MAX;
use pun_base::byte_list::ByteList;

/// What stands behind a word.
#[tactic(auto, unfolding(crate::specs::Fields::behind))]
pub(crate) fn take_word<'a>(text: &'a [u8], word: &[u8]) -> Option<&'a [u8]>
    ensures { option_map (λ x. x.now) result ≡ behind word.now text.now }
{
    text.strip_prefix(word)
}

/// What stands behind a byte.
#[tactic(auto, unfolding(crate::specs::Fields::behind_mark))]
fn take_mark(text: &[u8], mark: u8) -> Option<&[u8]>
    ensures { option_map (λ x. x.now) result ≡ behind_mark mark text.now }
{
    match text {
        [first, later @ ..] if *first == mark => Some(later),
        _ => None,
    }
}

/// Of each byte the value as a hexadecimal digit in lower case, or 16 where it is none.
static VALUES: [u8; 256] = [
    16, 16, 16, 16, 16, 16, 16, 16, 16, 16, 16, 16, 16, 16, 16, 16, 16, 16, 16, 16, 16, 16, 16, 16,
    16, 16, 16, 16, 16, 16, 16, 16, 16, 16, 16, 16, 16, 16, 16, 16, 16, 16, 16, 16, 16, 16, 16, 16,
    0, 1, 2, 3, 4, 5, 6, 7, 8, 9, 16, 16, 16, 16, 16, 16, 16, 16, 16, 16, 16, 16, 16, 16, 16, 16,
    16, 16, 16, 16, 16, 16, 16, 16, 16, 16, 16, 16, 16, 16, 16, 16, 16, 16, 16, 16, 16, 16, 16, 10,
    11, 12, 13, 14, 15, 16, 16, 16, 16, 16, 16, 16, 16, 16, 16, 16, 16, 16, 16, 16, 16, 16, 16, 16,
    16, 16, 16, 16, 16, 16, 16, 16, 16, 16, 16, 16, 16, 16, 16, 16, 16, 16, 16, 16, 16, 16, 16, 16,
    16, 16, 16, 16, 16, 16, 16, 16, 16, 16, 16, 16, 16, 16, 16, 16, 16, 16, 16, 16, 16, 16, 16, 16,
    16, 16, 16, 16, 16, 16, 16, 16, 16, 16, 16, 16, 16, 16, 16, 16, 16, 16, 16, 16, 16, 16, 16, 16,
    16, 16, 16, 16, 16, 16, 16, 16, 16, 16, 16, 16, 16, 16, 16, 16, 16, 16, 16, 16, 16, 16, 16, 16,
    16, 16, 16, 16, 16, 16, 16, 16, 16, 16, 16, 16, 16, 16, 16, 16, 16, 16, 16, 16, 16, 16, 16, 16,
    16, 16, 16, 16, 16, 16, 16, 16, 16, 16, 16, 16, 16, 16,
];

/// The value of a hexadecimal digit in lower case.
fn hex_value(digit: u8) -> Option<u8>
    ensures value { result ≡ hex_value digit }
    ensures small { IfSome result (λ value. value < 16) }
{
    let value = VALUES[usize::from(digit)];
    if value < 16 { Some(value) } else { None }
}

/// The byte that two digits spell.
#[tactic(auto, unfolding(crate::specs::Fields::byte_at))]
fn take_byte(text: &[u8]) -> Option<(u8, &[u8])>
    ensures { option_map (λ x. (x.0, x.1.now)) result ≡ byte_at text.now }
{
    match text {
        [high, low, later @ ..] => {
            let high = hex_value(*high)?;
            let low = hex_value(*low)?;
            Some((16 * high + low, later))
        }
        _ => None,
    }
}

/// The number that eight digits spell.
#[tactic(auto, unfolding(crate::specs::Fields::word_at))]
fn take_word32(text: &[u8]) -> Option<(u32, &[u8])>
    ensures { option_map (λ x. (x.0, x.1.now)) result ≡ word_at text.now }
{
    let (first, text) = take_byte(text)?;
    let (second, text) = take_byte(text)?;
    let (third, text) = take_byte(text)?;
    let (fourth, later) = take_byte(text)?;
    Some((u32::from_be_bytes([first, second, third, fourth]), later))
}

/// The address that eight digits spell.
#[tactic(auto, unfolding(crate::specs::Fields::address_before))]
pub(crate) fn take_address(text: &[u8], mark: u8) -> Option<(u32, &[u8])>
    ensures { option_map (λ x. (x.0, x.1.now)) result ≡ address_before mark text.now }
{
    let (address, text) = take_word32(text)?;
    let later = take_mark(text, mark)?;
    Some((address, later))
}

/// The entry point that sixteen digits spell.
#[tactic(auto, unfolding(crate::specs::Fields::entry_before))]
pub(crate) fn take_entry(text: &[u8], mark: u8) -> Option<(u64, &[u8])>
    ensures { option_map (λ x. (x.0, x.1.now)) result ≡ entry_before mark text.now }
{
    let (high, text) = take_word32(text)?;
    let (low, text) = take_word32(text)?;
    let later = take_mark(text, mark)?;
    Some((0x1_0000_0000 * u64::from(high) + u64::from(low), later))
}

/// Writes the bytes that digits spell into a buffer of sixteen: their number, and what stands
/// behind them.
fn fill<'a>(buffer: &mut [u8], text: &'a [u8]) -> (usize, &'a [u8])
    requires { length buffer.old ≡ 16 }
    ensures bytes { take result.0 buffer.new ≡ (bytes_at 16 text.now).0 }
    ensures count { result.0 ≡ length (bytes_at 16 text.now).0 }
    ensures later { result.1.now ≡ (bytes_at 16 text.now).1 }
    ensures fits { result.0 ≤ 16 }
{
    let mut left = text;
    for place in 0..RUN_MAX {
        match take_byte(left) {
            None => return (place, left),
            Some((byte, later)) => {
                buffer[place] = byte;
                left = later;
            }
        }
    }
    (RUN_MAX, left)
}

/// The 1 to 16 bytes that digits spell.
#[tactic(auto, unfolding(crate::specs::Fields::bytes_before))]
pub(crate) fn take_bytes(text: &[u8], mark: u8) -> Option<(ByteList, &[u8])>
    ensures { option_map (λ x. (x.0, x.1.now)) result ≡ bytes_before mark text.now }
{
    let mut buffer = [0; RUN_MAX];
    let (count, later) = fill(&mut buffer, text);
    let later = take_mark(later, mark)?;
    if count == 0 {
        return None;
    }
    Some((ByteList::from_slice(&buffer[..count]), later))
}

/// Whether a byte is a decimal digit.
pub(crate) fn is_digit(digit: u8) -> bool
    ensures { result ≡ is_digit digit }
{
    b'0' <= digit && digit <= b'9'
}

/// A number with one more decimal digit behind its own, where it has no zero in front and is below
/// 2^64.
#[tactic(auto, unfolding(crate::specs::Fields::longer))]
fn longer(number: u64, digit: u8) -> Option<u64>
    ensures { result ≡ longer number digit }
{
    if number == 0 || !is_digit(digit) {
        return None;
    }
    number.checked_mul(10)?.checked_add(u64::from(digit - b'0'))
}

/// The number of up to 64 bits that decimal digits spell, without zeros in front.
#[tactic(auto, unfolding(crate::specs::Fields::number_before, crate::specs::Fields::rest_before))]
pub(crate) fn take_number(text: &[u8], mark: u8) -> Option<(u64, &[u8])>
    ensures { option_map (λ x. (x.0, x.1.now)) result ≡ number_before mark text.now }
{
    let (first, mut left) = text.split_first()?;
    if !is_digit(*first) {
        return None;
    }
    let mut number = u64::from(*first - b'0');
    while let Some((digit, later)) = left.split_first() {
        if *digit == mark {
            return Some((number, later));
        }
        number = longer(number, *digit)?;
        left = later;
    }
    None
}

/// The number of up to 32 bits that decimal digits spell.
#[tactic(auto, unfolding(crate::specs::Fields::decimal_before))]
pub(crate) fn take_decimal(text: &[u8], mark: u8) -> Option<(u32, &[u8])>
    ensures { option_map (λ x. (x.0, x.1.now)) result ≡ decimal_before (2 ^ 32) mark text.now }
{
    let (number, later) = take_number(text, mark)?;
    let number = u32::try_from(number).ok()?;
    Some((number, later))
}

/// The number of up to 16 bits that decimal digits spell.
#[tactic(auto, unfolding(crate::specs::Fields::decimal_before))]
pub(crate) fn take_short(text: &[u8], mark: u8) -> Option<(u16, &[u8])>
    ensures { option_map (λ x. (x.0, x.1.now)) result ≡ decimal_before (2 ^ 16) mark text.now }
{
    let (number, later) = take_number(text, mark)?;
    let number = u16::try_from(number).ok()?;
    Some((number, later))
}
