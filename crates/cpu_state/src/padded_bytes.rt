//! Bytes with zeros behind them that are not stored before one of them is changed.
ghost use Rattle.std.specs.Prelude.{◌≡◌, ◌+◌, ◌<◌, ◌≤◌, ◌++◌, length, replicate, take, drop, set, slice_index, vec_capacity, IfOk, IfSome};
ghost use Rattle.cpu_state.specs.Padded.{zero_filled};

use std::alloc::{AllocError, Global};
use std::marker::Model;

/// How many bytes from a changed one on are stored with it.
const BLOCK: usize = 4096;

/// As many zeros as the longest instruction has bytes.
static ZEROS: [u8; 15] = [0; 15];

/// `size` bytes: those of `stored`, and zeros behind them, for which `stored` has room.
#[derive(Debug, Drop)]
pub(crate) struct PaddedBytes {
    stored: Vec<u8>,
    size: usize,
}

impl Model for PaddedBytes {
    ghost use Rattle.std.specs.Prelude.{◌≤◌, length, vec_capacity};
    ghost use Rattle.cpu_state.specs.Padded.{Padded, padded_code, zero_filled};

    ghost Value = { Padded };

    ghost coded = { padded_code };

    ghost view = { λ p. record { items = zero_filled p.size p.stored.items } };

    ghost invariant = { λ p. (length p.stored.items ≤ p.size) × (p.size ≤ vec_capacity p.stored) };
}

impl PaddedBytes {
    /// The bytes followed by zeros.
    pub(crate) fn new(alloc: Global, bytes: &[u8], zeros: u64) -> Result<PaddedBytes, AllocError>
        ensures { IfOk result (λ p. p.items ≡ bytes.now ++ replicate zeros 0) }
    {
        let Some(size) = bytes.len().checked_add(zeros as usize) else {
            return Err(AllocError);
        };
        let mut stored = Vec::with_capacity(alloc, size)?;
        stored.extend_from_slice(bytes)?;
        Ok(PaddedBytes { stored, size })
    }

    /// How many bytes there are.
    pub(crate) fn len(&self) -> usize
        ensures { result ≡ length self.now.items }
    {
        self.size
    }

    /// The byte at a place, and 0 behind the last one.
    pub(crate) fn byte(&self, at: usize) -> u8
        ensures { result ≡ slice_index self.now.items at }
    {
        if at < self.stored.len() {
            self.stored[at]
        } else {
            0
        }
    }

    /// The `count` bytes from a place on, where all of them are stored, or where none is and they are few.
    pub(crate) fn slice(&self, at: usize, count: usize) -> Option<&[u8]>
        ensures { IfSome result (λ bytes. (at + count ≤ length self.now.items)
            × (bytes.now ≡ take count (drop at self.now.items))) }
    {
        let stored = self.stored.len();
        if at <= stored && count <= stored - at {
            return Some(&self.stored[at..at + count]);
        }
        if stored <= at && at <= self.size && count <= self.size - at && count <= ZEROS.len() {
            return Some(&ZEROS[..count]);
        }
        None
    }

    /// Changes the byte at a place.
    pub(crate) fn set(&mut self, at: usize, byte: u8)
        requires { at < length self.old.items }
        ensures { self.new.items ≡ set self.old.items at byte }
    {
        if at >= self.stored.len() {
            store_zeros(&mut self.stored, at, self.size);
        }
        self.stored[at] = byte;
    }
}

/// Stores the zeros up to a place, and some behind it.
#[cold]
fn store_zeros(stored: &mut Vec<u8>, at: usize, size: usize)
    requires within { at < size }
    requires missing { length stored.old.items ≤ at }
    requires room { size ≤ vec_capacity stored.old }
    ensures same { zero_filled size stored.new.items ≡ zero_filled size stored.old.items }
    ensures stored { at < length stored.new.items }
    ensures size { length stored.new.items ≤ size }
    ensures room { size ≤ vec_capacity stored.new }
{
    let end = if size - at > BLOCK { at + BLOCK } else { size };
    if stored.resize(end, 0).is_err() {
        unreachable!();
    }
}
