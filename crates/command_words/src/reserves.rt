//! The ranges in which no new code stands.
ghost use Rattle.std.specs.Prelude.{◌≡◌, map, option_map, IfOk};
ghost use Rattle.pun_base.specs.Ranges.{ends};
ghost use Rattle.command_words.specs.Words.{ranges_of, reserves_of};

use list_text::words::read_range;
use pun_base::range::Range;
use std::alloc::{AllocError, Global};

/// The most ranges that are kept free.
const MOST_RESERVES: usize = 256;

/// The ranges of words, where there are at most 256 and each tells one.
pub fn read_reserves(alloc: Global, words: &[&str]) -> Result<Option<Vec<Range>>, AllocError>
    ensures { IfOk result (λ r. option_map (λ v. map ends v.items) r
        ≡ reserves_of (map (λ w. w.now) words.now)) }
{
    if words.len() > MOST_RESERVES {
        return Ok(None);
    }
    read_ranges(alloc, words)
}

/// The ranges of words, where each tells one.
fn read_ranges(alloc: Global, words: &[&str]) -> Result<Option<Vec<Range>>, AllocError>
    ensures { IfOk result (λ r. option_map (λ v. map ends v.items) r
        ≡ ranges_of (map (λ w. w.now) words.now)) }
{
    let Some((word, later)) = words.split_first() else {
        return Ok(Some(Vec::new(alloc)));
    };
    let Some(range) = read_range(word) else {
        return Ok(None);
    };
    match read_ranges(alloc, later)? {
        Some(mut ranges) => {
            ranges.insert(0, range)?;
            Ok(Some(ranges))
        }
        None => Ok(None),
    }
}
