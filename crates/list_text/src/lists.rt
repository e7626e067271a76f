//! Lists of addresses: one hexadecimal number a line, in ascending order.
//!
//! A line is 1 to 8 hexadecimal digits of either case, with or without `0x` before them. Lines end with LF; the
//! last may lack it. The empty text is the empty list.
ghost use Rattle.std.specs.Prelude.{◌≡◌, ◌<◌, ◌^◌, ℕ, List, Some, Ok, IfSome, IfOk, IfErr};
ghost use Rattle.std.specs.List.{before_first, after_first};
ghost use Rattle.pun_base.specs.Limits.{most_sites};
ghost use Rattle.list_text.specs.Lines.{is_line_feed, line_number};
ghost use Rattle.list_text.specs.Lists.{judged_line, list_of, Refused};

use crate::digits::{HEX_MAX, read_hex, with_hex_digit};
use crate::parts::split_at_first;
use crate::refusal::ListError;
use std::alloc::Global;

/// The most lines of a list of starts.
const MOST_STARTS: u32 = 4_194_304;

/// The most lines of a list of sites, and so the most sites.
pub const MOST_SITES: u32 = 65_536;

/// The number that a line spells.
fn read_line(line: &[u8]) -> Option<u32>
    ensures { result ≡ line_number line.now }
{
    match line {
        [b'0', b'x', digits @ ..] => read_hex(digits),
        digits => read_hex(digits),
    }
}

/// The number of the first line and the text after it, where the line is eight digits and an LF, as in a list that a program writes.
#[inline(always)]
fn read_plain(text: &[u8]) -> Option<(u32, &[u8])>
    ensures number { IfSome result (λ read.
        line_number (before_first is_line_feed text.now) ≡ Some read.0) }
    ensures later { IfSome result (λ read. read.1.now ≡ after_first is_line_feed text.now) }
{
    let [a, b, c, d, e, f, g, h, end, later @ ..] = text else {
        return None;
    };
    if *end != b'\n' {
        return None;
    }
    let number = with_hex_digit(0, *a);
    let number = with_hex_digit(number, *b);
    let number = with_hex_digit(number, *c);
    let number = with_hex_digit(number, *d);
    let number = with_hex_digit(number, *e);
    let number = with_hex_digit(number, *f);
    let number = with_hex_digit(number, *g);
    let number = with_hex_digit(number, *h);
    if number > HEX_MAX {
        return None;
    }
    Some((number as u32, later))
}

/// The number of any first line, if it spells one, and the text after it.
#[inline(never)]
fn read_any(text: &[u8]) -> (Option<u32>, &[u8])
    ensures number { result.0 ≡ line_number (before_first is_line_feed text.now) }
    ensures later { result.1.now ≡ after_first is_line_feed text.now }
{
    let (line, later) = split_at_first(text, b'\n');
    (read_line(line), later)
}

/// The number of the first line, if it spells one, and the text after it.
fn read_first(text: &[u8]) -> (Option<u32>, &[u8])
    ensures number { result.0 ≡ line_number (before_first is_line_feed text.now) }
    ensures later { result.1.now ≡ after_first is_line_feed text.now }
{
    match read_plain(text) {
        Some((number, later)) => (Some(number), later),
        None => read_any(text),
    }
}

/// The number that the line at `place` spells, if it may stand there, after the line whose number is `before`.
fn judge_line(
    number: Option<u32>,
    place: u32,
    before: Option<u32>,
    limit: u32,
) -> Result<u32, ListError>
    ensures { (line : List ℕ) → number ≡ line_number line
        → result ≡ judged_line limit place before line }
{
    if place > limit {
        return Err(ListError::TooMany { limit });
    }
    let Some(number) = number else {
        return Err(ListError::BadLine { line: place });
    };
    if before.is_some_and(|before| number <= before) {
        return Err(ListError::NotAscending { line: place });
    }
    Ok(number)
}

/// The numbers of a list of at most `limit` lines.
fn read_list(alloc: Global, text: &[u8], limit: u32) -> Result<Vec<u32>, ListError>
    requires { limit < 2 ^ 31 }
    ensures list { IfOk result (λ numbers. list_of limit text.now ≡ Ok numbers.items) }
    ensures refused { IfErr result (Refused limit text.now) }
{
    let mut numbers = Vec::new(alloc);
    let mut place = 1;
    let mut before = None;
    let mut rest = text;
    while !rest.is_empty() {
        let (number, later) = read_first(rest);
        let number = judge_line(number, place, before, limit)?;
        numbers.push(number)?;
        place += 1;
        before = Some(number);
        rest = later;
    }
    Ok(numbers)
}

/// The starts that a text lists, in ascending order: at most 4,194,304 addresses.
///
/// A text that is no such list is told by its first refused line. `Memory` may come in place of any answer.
pub fn read_starts(alloc: Global, text: &[u8]) -> Result<Vec<u32>, ListError>
    ensures list { IfOk result (λ numbers. list_of 4194304 text.now ≡ Ok numbers.items) }
    ensures refused { IfErr result (Refused 4194304 text.now) }
{
    read_list(alloc, text, MOST_STARTS)
}

/// The sites that a text lists, in ascending order: at most 65,536 addresses.
///
/// A text that is no such list is told by its first refused line. `Memory` may come in place of any answer.
pub fn read_sites(alloc: Global, text: &[u8]) -> Result<Vec<u32>, ListError>
    ensures list { IfOk result (λ numbers. list_of most_sites text.now ≡ Ok numbers.items) }
    ensures refused { IfErr result (Refused most_sites text.now) }
{
    read_list(alloc, text, MOST_SITES)
}
