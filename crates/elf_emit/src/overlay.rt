//! Bytes written over others, by address.
ghost use Rattle.std.specs.Prelude.{◌≡◌, ◌+◌, ◌%◌, ◌<◌, ◌≤◌, ◌^◌, [], ◌∷◌, length};
ghost use Rattle.std.specs.List.{slice_index_or};
ghost use Rattle.elf_emit.specs.Layout.{rewritten};
ghost use Rattle.elf_emit.specs.Views.{patches_of, pieces_of};
ghost use Rattle.elf_emit.specs.Index.{meets_page, Finds};

use crate::built::Built;
use crate::index::{PLACES, pairs_of};
use pun_base::limits::PAGE_LEN;
use pun_base::plan::Write;

/// Writes `now` from the address `addr` on over bytes that begin at the address `lo`, as far as they reach.
fn overlay(bytes: &mut [u8], lo: u64, addr: u32, now: &[u8])
    ensures { bytes.new ≡ rewritten (record { addr = addr; now = now.now } ∷ []) lo bytes.old }
{
    for (i, byte) in now.iter().enumerate() {
        let at = u128::from(addr) + i as u128;
        let lo = u128::from(lo);
        if lo <= at && at - lo < bytes.len() as u128 {
            bytes[(at - lo) as usize] = *byte;
        }
    }
}

/// Carries out the write at a place of the list, if there is one.
fn overlay_write(bytes: &mut [u8], lo: u64, writes: &[Write], place: usize)
    ensures { bytes.new ≡ rewritten (slice_index_or (patches_of writes.now) place
        (record { addr = 0; now = [] }) ∷ []) lo bytes.old }
{
    if place < writes.len() {
        let write = &writes[place];
        overlay(bytes, lo, write.addr, write.now.as_slice());
    }
}

/// Carries out all writes over bytes of one page that begin at the address `lo`.
pub(crate) fn overlay_writes(bytes: &mut [u8], lo: u64, writes: &[Write], pairs: &[u64])
    requires found { Finds meets_page (patches_of writes.now) pairs.now }
    requires low { lo < 2 ^ 32 }
    requires page { lo % 4096 + length bytes.old ≤ 4096 }
    ensures { bytes.new ≡ rewritten (patches_of writes.now) lo bytes.old }
{
    let number = (lo / PAGE_LEN as u64) as u32;
    let first = u64::from(number) * PLACES;
    let part = pairs_of(pairs, number);
    for pair in part {
        overlay_write(bytes, lo, writes, pair.saturating_sub(first) as usize);
    }
}

/// Puts the code at a place of the list, if there is one.
fn overlay_piece(bytes: &mut [u8], lo: u64, built: &[Built], place: usize)
    ensures { bytes.new ≡ rewritten (slice_index_or (pieces_of built.now) place
        (record { addr = 0; now = [] }) ∷ []) lo bytes.old }
{
    if place < built.len() {
        let piece = &built[place];
        overlay(bytes, lo, piece.place, piece.code.bytes.as_slice());
    }
}

/// Puts all code that lies on bytes of one page that begin at the address `lo`.
pub(crate) fn overlay_code(bytes: &mut [u8], lo: u64, built: &[Built], pairs: &[u64])
    requires found { Finds meets_page (pieces_of built.now) pairs.now }
    requires low { lo < 2 ^ 32 }
    requires page { lo % 4096 + length bytes.old ≤ 4096 }
    ensures { bytes.new ≡ rewritten (pieces_of built.now) lo bytes.old }
{
    let number = (lo / PAGE_LEN as u64) as u32;
    let first = u64::from(number) * PLACES;
    let part = pairs_of(pairs, number);
    for pair in part {
        overlay_piece(bytes, lo, built, pair.saturating_sub(first) as usize);
    }
}
