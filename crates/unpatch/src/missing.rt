//! The least address at which a file hasn't a byte that a report tells.
ghost use Rattle.std.specs.Prelude.{◌≡◌, ◌<◌, ◌≤◌, ◌^◌, length, map, Some, IfSome};
ghost use Rattle.elf_read.specs.Code.{is_backed};
ghost use Rattle.patch_report.specs.Values.{write_value};
ghost use Rattle.unpatch.specs.Refusals.{has_byte, is_there, least_from, least_missing, lesser, new_bytes};
ghost use Rattle.unpatch.specs.Undone.{addressed};

use crate::places::place_in;
use elf_read::elf::Elf;
use elf_read::segment::Segment;
use pun_base::plan::Write;

/// Whether the byte at an address is one of the file's.
fn is_backed(segment: &Segment, addr: u64) -> bool
    ensures { result ≡ is_backed segment.now addr }
{
    segment.vaddr <= addr && addr - segment.vaddr < segment.filesz
}

/// Whether a segment of a file has this byte at an address, and has it from the file.
fn has_byte(file: &[u8], segment: &Segment, addr: u64, byte: u8) -> bool
    ensures { result ≡ has_byte file.now addr byte (Some segment.now) }
{
    if !is_backed(segment, addr) {
        return false;
    }
    let place = place_in(segment, addr);
    if place < file.len() as u128 {
        file[place as usize] == byte
    } else {
        byte == 0
    }
}

/// Whether a file has this byte at an address.
fn is_there(patched: &Elf<'_>, addr: u64, byte: u8) -> bool
    ensures { result ≡ is_there patched.now.bytes (addr, byte) }
{
    match patched.segment_at(addr) {
        Some(segment) => has_byte(patched.file(), &segment, addr, byte),
        None => false,
    }
}

/// The lesser of two addresses, of which the second may be none.
fn lesser(addr: u64, best: Option<u64>) -> u64
    ensures { result ≡ lesser addr best }
{
    match best {
        Some(other) => addr.min(other),
        None => addr,
    }
}

/// The least address of bytes that the file hasn't, the first of which stands at `first`, or `best` where that is less.
/// It has 32 bits: where the bytes reach past them, the file hasn't the first byte either.
fn missing_in(patched: &Elf<'_>, first: u64, bytes: &[u8], best: Option<u64>) -> Option<u64>
    requires first { first < 2 ^ 32 }
    requires few { length bytes.now ≤ 16 }
    requires best { IfSome best (λ a. a < 2 ^ 32) }
    ensures least { result ≡ least_from patched.now.bytes (addressed first bytes.now) best }
    ensures low { IfSome result (λ a. a < 2 ^ 32) }
{
    let _file = patched.file();
    let mut least = best;
    for (i, byte) in bytes.iter().enumerate() {
        let addr = first + i as u64;
        if !is_there(patched, addr, *byte) {
            least = Some(lesser(addr, least));
        }
    }
    least
}

/// The least address of a run's new bytes that the file hasn't, or `best` where that is less.
fn missing_of(patched: &Elf<'_>, run: &Write, best: Option<u64>) -> Option<u64>
    requires { IfSome best (λ a. a < 2 ^ 32) }
    ensures least { result ≡ least_from patched.now.bytes (addressed run.entry.now.addr run.entry.now.now) best }
    ensures low { IfSome result (λ a. a < 2 ^ 32) }
{
    let now = run.now.as_slice();
    missing_in(patched, u64::from(run.addr), now, best)
}

/// The least address of the runs' new bytes that the file hasn't.
pub(crate) fn least_missing(patched: &Elf<'_>, runs: &[Write]) -> Option<u64>
    ensures least { result ≡ least_missing patched.now.bytes (new_bytes (map write_value runs.now)) }
    ensures low { IfSome result (λ a. a < 2 ^ 32) }
{
    let mut least = None;
    for run in runs {
        least = missing_of(patched, run, least);
    }
    least
}
