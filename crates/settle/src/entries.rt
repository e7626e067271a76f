//! The entries of a file that is to be settled.
ghost use Rattle.std.specs.Prelude.{◌≡◌, ◌+◌, ◌*◌, ◌<◌, ◌≤◌, ◌^◌, length, IfOk, IfSome};
ghost use Rattle.std.specs.List.{find, list_any, position};
ghost use Rattle.elf_read.specs.Code.{is_exec_in};
ghost use Rattle.elf_read.specs.Entries.{segment_at, segments_from};
ghost use Rattle.elf_read.specs.Refusals.{is_outside};
ghost use Rattle.settle.specs.Settled.{has_bytes};

use elf_read::segment::{ENTRY_LEN, PF_W, PF_X, PT_LOAD, Segment};
use pun_base::field::{get_u32, get_u64};
use std::alloc::{AllocError, Global};

/// The entry that begins at `at`.
#[tactic(auto, unfolding(elf_read::specs::Entries::segment_at))]
fn read_entry(bytes: &[u8], at: usize) -> Segment
    requires { at + 56 ≤ length bytes.now }
    ensures { result ≡ segment_at bytes.now at }
{
    Segment {
        kind: get_u32(bytes, at),
        flags: get_u32(bytes, at + 4),
        offset: get_u64(bytes, at + 8),
        vaddr: get_u64(bytes, at + 16),
        paddr: get_u64(bytes, at + 24),
        filesz: get_u64(bytes, at + 32),
        memsz: get_u64(bytes, at + 40),
        align: get_u64(bytes, at + 48),
    }
}

/// The `count` entries from `place` on.
pub(crate) fn read_entries(
    alloc: Global,
    bytes: &[u8],
    place: usize,
    count: u16,
) -> Result<Vec<Segment>, AllocError>
    requires { place + 56 * count ≤ length bytes.now }
    ensures value { IfOk result (λ v. v.items ≡ segments_from bytes.now place count) }
    ensures len { IfOk result (λ v. length v.items ≡ count) }
{
    let mut entries = Vec::new(alloc);
    let mut at = place;
    for _index in 0..count {
        entries.push(read_entry(bytes, at))?;
        at += ENTRY_LEN;
    }
    Ok(entries)
}

/// Whether an entry is a PT_LOAD that reaches past the end of a file of `len` bytes.
fn is_outside(entry: &Segment, len: usize) -> bool
    ensures { result ≡ is_outside len entry.now }
{
    entry.kind == PT_LOAD && u128::from(entry.offset) + u128::from(entry.filesz) > len as u128
}

/// The first entry that reaches past the end of a file of `len` bytes.
pub(crate) fn first_outside(entries: &[Segment], len: usize) -> Option<usize>
    ensures index { result ≡ position (is_outside len) entries.now }
    ensures bound { IfSome result (λ i. i < length entries.now) }
{
    entries.iter().position(|entry| is_outside(entry, len))
}

/// Whether an entry is a PT_LOAD that has `size` bytes of the file from `place` on.
fn has_bytes(entry: &Segment, place: u64, size: u64) -> bool
    ensures { result ≡ has_bytes place size entry.now }
{
    entry.is_load()
        && entry.offset <= place
        && u128::from(place) + u128::from(size)
            <= u128::from(entry.offset) + u128::from(entry.filesz)
}

/// The first entry that has `size` bytes of the file from `place` on.
pub(crate) fn first_with(entries: &[Segment], place: u64, size: u64) -> Option<Segment>
    ensures { result ≡ find (has_bytes place size) entries.now }
{
    let Some((entry, later)) = entries.split_first() else {
        return None;
    };
    if has_bytes(entry, place, size) {
        Some(*entry)
    } else {
        first_with(later, place, size)
    }
}

/// Whether an entry has a byte at an address that can be executed and not written.
fn is_exec_in(entry: &Segment, addr: u64) -> bool
    ensures { result ≡ is_exec_in addr entry.now }
{
    entry.is_load()
        && entry.flags & (PF_X | PF_W) == PF_X
        && entry.vaddr <= addr
        && addr - entry.vaddr < entry.filesz
}

/// Whether some entry has a byte at an address that can be executed and not written.
pub(crate) fn is_exec(entries: &[Segment], addr: u64) -> bool
    ensures { result ≡ list_any (is_exec_in addr) entries.now }
{
    entries.iter().any(|entry| is_exec_in(entry, addr))
}
