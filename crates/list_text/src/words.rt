//! Words of a command.
ghost use Rattle.std.specs.Prelude.{◌≡◌, option_map};
ghost use Rattle.pun_base.specs.Ranges.{ends};
ghost use Rattle.list_text.specs.Words.{action_of, range_of, count_of};

use crate::action_reading::read_action_word;
use crate::digits::{read_hex, read_number};
use crate::parts::split_at_first;
use pun_base::action::Action;
use pun_base::range::Range;

/// The highest address at which a range may end.
const ADDRESSES_END: u32 = 0x8000_0000;

/// The action that a word of the command line names, as `read_action_word` tells it.
pub fn read_action(word: &str) -> Option<Action>
    ensures { result ≡ action_of word.now }
{
    read_action_word(word.as_bytes())
}

/// The range of addresses that a word `LO-HI` tells, each of 1 to 8 hexadecimal digits of either case, without `0x`.
pub fn read_range(word: &str) -> Option<Range>
    ensures { option_map ends result ≡ range_of word.now }
{
    let (low, high) = split_at_first(word.as_bytes(), b'-');
    let lo = read_hex(low)?;
    let hi = read_hex(high)?;
    if lo < hi && hi <= ADDRESSES_END {
        Some(Range { lo, hi })
    } else {
        None
    }
}

/// The number that a word of decimal digits tells, where it is at most `most`. Only `0` itself begins with a zero.
pub fn read_count(word: &str, most: u64) -> Option<u64>
    ensures { result ≡ count_of most word.now }
{
    match word.as_bytes() {
        [] => None,
        [b'0', _, ..] => None,
        digits => read_number(digits, 10, most),
    }
}
