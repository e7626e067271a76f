//! Offsets in a page.
ghost use Rattle.std.specs.Prelude.{◌≡◌, ℕ, ◌<◌, ◌≤◌, ◌&&◌, ◌||◌, ◌↔◌, true, false, IsTrue, nat_le, nat_lt};
ghost use Rattle.page_group.specs.Occupancy.{has, AreAmong, IsWithin, ShareOffset};

use crate::bitmap;

/// The number of words that have a bit for each byte of a page.
const WORDS: usize = 64;

/// A set of offsets in a page.
#[derive(Clone, Copy, Drop)]
pub(crate) struct Offsets {
    words: [u64; WORDS],
}

impl Offsets {
    /// The set without an offset.
    pub(crate) fn none() -> Offsets
        ensures { (k : ℕ) → has result k ≡ false }
    {
        Offsets { words: [0; WORDS] }
    }

    /// Adds the offsets from `lo` up to and without `hi`.
    pub(crate) fn insert_range(&mut self, lo: u32, hi: u32)
        requires { hi ≤ 4096 }
        ensures { (k : ℕ) → has self.new k ≡ ((nat_le lo k && nat_lt k hi) || has self.old k) }
    {
        for offset in lo..hi {
            bitmap::set(&mut self.words, offset as usize);
        }
    }

    /// The least offset; 0 where there is none.
    pub(crate) fn lowest(&self) -> usize
        ensures below { result < 4096 }
        ensures least { (k : ℕ) → has self.now k ≡ true → result ≤ k }
        ensures one { (k : ℕ) → has self.now k ≡ true → has self.now result ≡ true }
    {
        bitmap::lowest(&self.words)
    }

    /// The words that have the offsets: from the first of them up to and without the end.
    pub(crate) fn span(&self) -> (usize, usize)
        ensures within { result.1 ≤ 64 }
        ensures among { AreAmong result.0 result.1 self.now.words }
    {
        (
            bitmap::lowest(&self.words) / 64,
            bitmap::filled(&self.words),
        )
    }

    /// Whether an offset is in both sets: those of the second lie in the words from `first` up to
    /// and without `end`.
    pub(crate) fn meets(&self, other: &Offsets, first: usize, end: usize) -> bool
        requires within { end ≤ 64 }
        requires among { AreAmong first end other.now.words }
        ensures { IsTrue result ↔ ShareOffset self.now other.now }
    {
        bitmap::share_bit(&self.words, &other.words, first, end)
    }

    /// Whether each offset is in the other set too, if this says yes.
    pub(crate) fn is_within(&self, other: &Offsets) -> bool
        ensures { IsTrue result → IsWithin self.now other.now }
    {
        bitmap::is_within(&self.words, &other.words)
    }

    /// Adds the offsets of another set.
    pub(crate) fn join(&mut self, other: &Offsets)
        ensures { (k : ℕ) → has self.new k ≡ (has self.old k || has other.now k) }
    {
        bitmap::join(&mut self.words, &other.words);
    }
}
