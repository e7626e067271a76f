//! One bit a place, in words of 64 bits.
ghost use Rattle.std.specs.Prelude.{◌≡◌, ℕ, ◌*◌, ◌<◌, ◌==◌, ◌||◌, false, length, IfOk};
ghost use Rattle.byte_locks.specs.Bitmaps.{is_set_in};

use std::alloc::{AllocError, Global};

/// So many words in which every bit is 0.
pub(crate) fn zeros(alloc: Global, count: usize) -> Result<Vec<u64>, AllocError>
    ensures size { IfOk result (λ words. length words.items ≡ count) }
    ensures zero { IfOk result (λ words. (place : ℕ) → is_set_in words.items place ≡ false) }
{
    let mut words = Vec::new(alloc);
    words.resize(count, 0)?;
    Ok(words)
}

/// Whether the bit of a place is 1.
pub(crate) fn is_set(words: &[u64], place: usize) -> bool
    requires { place < 64 * length words.now }
    ensures { result ≡ is_set_in words.now place }
{
    words[place / 64] >> (place % 64) & 1 == 1
}

/// Makes the bit of a place 1.
pub(crate) fn set(words: &mut [u64], place: usize)
    requires { place < 64 * length words.old }
    ensures { (other : ℕ) → is_set_in words.new other
        ≡ (other == place || is_set_in words.old other) }
{
    words[place / 64] |= 1 << (place % 64);
}
