//! One bit a place, in words of 64 bits.
ghost use Rattle.std.specs.Prelude.{◌≡◌, ◌≢◌, ℕ, ◌-◌, ◌*◌, ◌/◌, ◌^◌, ◌<◌, ◌≤◌, ◌==◌, ◌||◌, ◌↔◌, true, IsTrue, length, slice_index};
ghost use Rattle.page_group.specs.Occupancy.{has_bit, AreAmong, ShareBit};

/// Makes the bit of a place 1.
pub(crate) fn set(words: &mut [u64], place: usize)
    requires { place < 64 * length words.old }
    ensures { (other : ℕ) → has_bit words.new other
        ≡ (other == place || has_bit words.old other) }
{
    words[place / 64] |= 1 << (place % 64);
}

/// The least place that is 1; 0 where none is.
pub(crate) fn lowest(words: &[u64]) -> usize
    requires { length words.now < 2 ^ 32 }
    ensures below { 0 < length words.now → result < 64 * length words.now }
    ensures least { (place : ℕ) → has_bit words.now place ≡ true → result ≤ place }
    ensures one { (place : ℕ) → has_bit words.now place ≡ true → has_bit words.now result ≡ true }
{
    for (index, word) in words.iter().enumerate() {
        if *word != 0 {
            return 64 * index + word.trailing_zeros() as usize;
        }
    }
    0
}

/// The number of words up to the last with a 1.
pub(crate) fn filled(words: &[u64]) -> usize
    ensures within { result ≤ length words.now }
    ensures above { (place : ℕ) → has_bit words.now place ≡ true → place / 64 < result }
    ensures last { 0 < result → slice_index words.now (result - 1) ≢ 0 }
{
    let mut count = words.len();
    while count > 0 {
        if words[count - 1] != 0 {
            return count;
        }
        count -= 1;
    }
    0
}

/// Whether a place is 1 in both: in the second all such places lie in the words from `first` up to
/// and without `end`.
pub(crate) fn share_bit(words: &[u64], others: &[u64], first: usize, end: usize) -> bool
    requires size { length others.now ≡ length words.now }
    requires within { end ≤ length words.now }
    requires among { AreAmong first end others.now }
    ensures { IsTrue result ↔ ShareBit words.now others.now }
{
    for index in first..end {
        if words[index] & others[index] != 0 {
            return true;
        }
    }
    false
}

/// Whether each place that is 1 is so in the others, if this says yes.
pub(crate) fn is_within(words: &[u64], others: &[u64]) -> bool
    requires { length others.now ≡ length words.now }
    ensures { IsTrue result → (place : ℕ) → has_bit words.now place ≡ true
        → has_bit others.now place ≡ true }
{
    for (index, word) in words.iter().enumerate() {
        if *word | others[index] != others[index] {
            return false;
        }
    }
    true
}

/// Makes each place 1 that is 1 in the others.
pub(crate) fn join(words: &mut [u64], others: &[u64])
    requires { length others.now ≡ length words.old }
    ensures { (place : ℕ) → has_bit words.new place
        ≡ (has_bit words.old place || has_bit others.now place) }
{
    for (place, word) in words.iter_mut().enumerate() {
        *word |= others[place];
    }
}
