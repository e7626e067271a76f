//! Marks of numbers: one bit for each, in words of 64 bits, the lowest bit of a word first.
ghost use Rattle.std.specs.Prelude.{◌≡◌, ℕ, ◌+◌, ◌*◌, ◌/◌, ◌<◌, ◌≤◌, ◌^◌, ◌↔◌, length};
ghost use Rattle.std.specs.Int.{bit_at};
ghost use Rattle.address_space.specs.Marks.{IsMarked, IsBetween, IsRemainder, MarksMore};

use crate::window::remainder;

/// The bits of a word.
const WORD_BITS: usize = 64;

/// The word whose bits from `low` up to and without `high` are 1.
fn ones(low: u32, high: u32) -> u64
    requires { (low < high) × (high ≤ 64) }
    ensures { (k : ℕ) → (bit_at result k ≡ 1) ↔ IsBetween low high k }
{
    u64::MAX >> (64 - high) & u64::MAX << low
}

/// Makes the bits of a word from `low` up to and without `high` 1.
fn mark_bits(words: &mut [u64], word: usize, low: u32, high: u32)
    requires word { word < length words.old }
    requires bits { (low < high) × (high ≤ 64) }
    ensures length { length words.new ≡ length words.old }
    ensures marked { MarksMore words.old (IsBetween (word * 64 + low) (word * 64 + high)) words.new }
{
    words[word] |= ones(low, high);
}

/// Makes all bits of the words from `first` up to and without `end` 1.
fn mark_words(words: &mut [u64], first: usize, end: usize)
    requires ordered { first ≤ end }
    requires within { end ≤ length words.old }
    ensures length { length words.new ≡ length words.old }
    ensures marked { MarksMore words.old (λ n. IsBetween first end (n / 64)) words.new }
{
    words[first..end].fill(u64::MAX);
}

/// Marks the numbers from `low` up to and without `high`.
pub fn mark(words: &mut [u64], low: usize, high: usize)
    requires few { (high ≤ 64 * length words.old) × (high ≤ 2 ^ 32) }
    ensures length { length words.new ≡ length words.old }
    ensures marked { MarksMore words.old (IsBetween low high) words.new }
{
    if high <= low {
        return;
    }
    let first = low / WORD_BITS;
    let last = (high - 1) / WORD_BITS;
    let end = ((high - 1) % WORD_BITS) as u32 + 1;
    if first == last {
        mark_bits(words, first, (low % WORD_BITS) as u32, end);
        return;
    }
    mark_bits(words, first, (low % WORD_BITS) as u32, WORD_BITS as u32);
    mark_words(words, first + 1, last);
    mark_bits(words, last, 0, end);
}

/// Marks the remainders by `count` of the numbers from `low` up to and without `high`.
pub fn mark_remainders(words: &mut [u64], low: u64, high: u64, count: u64)
    requires few { (1 ≤ count) × (count ≤ 64 * length words.old) × (count ≤ 2 ^ 32) }
    requires ordered { (low ≤ high) × (high ≤ 2 ^ 34) }
    ensures length { length words.new ≡ length words.old }
    ensures marked { MarksMore words.old (IsRemainder low high count) words.new }
{
    let begin = remainder(low, count);
    let end = begin + (high - low);
    mark(words, begin as usize, end.min(count) as usize);
    mark(words, 0, end.saturating_sub(count).min(count) as usize);
}

/// The first bit of a word from `low` on that is 1, or 64.
fn next_bit(word: u64, low: u32) -> u32
    requires { low < 64 }
    ensures least { low ≤ result }
    ensures most { result ≤ 64 }
    ensures none { (k : ℕ) → low ≤ k → k < result → bit_at word k ≡ 0 }
    ensures found { result < 64 → bit_at word result ≡ 1 }
{
    (low + (word >> low).trailing_zeros()).min(64)
}

/// The first marked number from `from` up to and without `to`, or `to`.
pub fn next_marked(words: &[u64], from: usize, to: usize) -> usize
    requires ordered { from ≤ to }
    requires few { (to ≤ 64 * length words.now) × (to ≤ 2 ^ 32) }
    ensures least { from ≤ result }
    ensures most { result ≤ to }
    ensures none { (n : ℕ) → from ≤ n → n < result → IsMarked words.now n → ⊥ }
    ensures found { result < to → IsMarked words.now result }
{
    let mut at = from;
    while at < to {
        let word = at / WORD_BITS;
        let bit = next_bit(words[word], (at % WORD_BITS) as u32) as usize;
        let next = word * WORD_BITS + bit;
        if bit < WORD_BITS {
            return next.min(to);
        }
        at = next;
    }
    to
}
