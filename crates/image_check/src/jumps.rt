//! Jumps that stand in a file's image.
ghost use Rattle.std.specs.Prelude.{◌≡◌, ◌==◌, ◌↔◌, ◌+◌, ◌^◌, ◌<◌, ◌&&◌, not, bit_and, ℕ, IsTrue, IfSome, Some, is_some, false, length};
ghost use Rattle.pun_base.specs.Memory.{Bytes};
ghost use Rattle.image_check.specs.Stretches.{HasFrom};
ghost use Rattle.std.specs.List.{list_any};
ghost use Rattle.elf_read.specs.Image.{image_of};
ghost use Rattle.start_entries.specs.Finding.{entry_at};
ghost use Rattle.start_entries.specs.Leading.{JumpsTo, Leads};
ghost use Rattle.image_check.specs.Jumps as jumps;

use crate::cells::loaded_at;
use crate::near::near_entries;
use crate::standing::rest_at;
use arrayvec::ArrayVec;
use elf_read::elf::Elf;
use insn_form::{Insn, Op, Target, front_form};
use length_decode::{Shape, decode};
use pun_base::limits::INSTRUCTION_MAX;
use start_entries::entry::StartEntry;
use start_entries::starts::Starts;

/// The byte at an address, if it is executable and not writable.
fn fixed_byte(elf: &Elf<'_>, addr: u64) -> Option<u8>
    ensures { result ≡ jumps.fixed_byte (image_of elf.now.bytes addr) }
{
    let cell = loaded_at(elf, addr)?;
    if cell.perms & 1 != 0 && cell.perms & 2 == 0 {
        Some(cell.byte)
    } else {
        None
    }
}

/// Whether permissions are those of a byte that is executable and not writable.
fn are_fixed(perms: u32) -> bool
    ensures { result ≡ (not (bit_and perms 1 == 0) && (bit_and perms 2 == 0)) }
{
    perms & 1 != 0 && perms & 2 == 0
}

/// The first fifteen of these bytes, if there are as many and their permissions are those of code
/// that isn't writable.
fn fixed_front(rest: &[u8], perms: u32) -> Option<ArrayVec<u8, 16>>
    ensures { (m : Bytes) (a : ℕ) → a + length rest.now < 2 ^ 64 → HasFrom m a perms rest.now
        → IfSome result (λ v. v.items ≡ jumps.fixed_at m a 15) }
{
    let most = INSTRUCTION_MAX as usize;
    if rest.len() < most {
        return None;
    }
    if are_fixed(perms) {
        let mut bytes = ArrayVec::new();
        bytes.try_extend_from_slice(&rest[..most]).unwrap();
        Some(bytes)
    } else {
        None
    }
}

/// Fifteen executable, not writable bytes from an address on, if all of them are bytes of the file
/// in one segment.
fn fixed_at_once(elf: &Elf<'_>, addr: u64) -> Option<ArrayVec<u8, 16>>
    ensures { IfSome result (λ v. v.items ≡ jumps.fixed_at (image_of elf.now.bytes) addr 15) }
{
    match rest_at(elf, addr) {
        None => None,
        Some((rest, perms)) => fixed_front(rest, perms),
    }
}

/// The executable, not writable bytes from an address on, up to the first that isn't one and at
/// most fifteen.
fn fixed_bytes(elf: &Elf<'_>, addr: u64) -> ArrayVec<u8, 16>
    ensures { result.items ≡ jumps.fixed_at (image_of elf.now.bytes) addr 15 }
{
    match fixed_at_once(elf, addr) {
        None => fixed_in_turn(elf, addr),
        Some(bytes) => bytes,
    }
}

/// The executable, not writable bytes from an address on, at most fifteen, asked for one by one.
fn fixed_in_turn(elf: &Elf<'_>, addr: u64) -> ArrayVec<u8, 16>
    ensures { result.items ≡ jumps.fixed_at (image_of elf.now.bytes) addr 15 }
{
    let mut bytes = ArrayVec::new();
    let mut at = addr;
    let mut left = INSTRUCTION_MAX;
    while left > 0 {
        match fixed_byte(elf, at) {
            None => return bytes,
            Some(byte) => bytes.push(byte),
        }
        at = at.wrapping_add(1);
        left -= 1;
    }
    bytes
}

/// The instruction with which bytes begin, and its length.
fn read_front(window: &[u8]) -> Option<(Insn, u8)>
    ensures { jumps.IsReading window.now result }
{
    match decode(window) {
        Shape::Known(parts) => Some((front_form(&parts, window), parts.len)),
        Shape::Unknown => None,
        Shape::Short => None,
    }
}

/// How far an instruction jumps, if it is a direct jump.
fn jump_rel(insn: &Insn) -> Option<i32>
    ensures { result ≡ jumps.insn_jump insn.now }
{
    match insn {
        Insn::Exact(
            Op::Jmp {
                target: Target::Rel(rel),
            },
        ) => Some(*rel),
        _ => None,
    }
}

/// The address to which a jump of this distance leads, from an instruction of `len` bytes at
/// `addr`.
fn jump_target(addr: u64, len: u8, rel: Option<i32>) -> Option<u64>
    ensures { result ≡ jumps.jump_target addr len rel }
{
    match rel {
        None => None,
        Some(rel) => {
            let next = addr.wrapping_add(u64::from(len));
            Some(next.wrapping_add(i64::from(rel).cast_unsigned()))
        }
    }
}

/// Where the direct jump leads that stands at an address, executable and not writable.
pub fn jump_at(elf: &Elf<'_>, addr: u64) -> Option<u64>
    ensures { (t : ℕ) → (result ≡ Some t) ↔ JumpsTo (image_of elf.now.bytes) addr t }
{
    let bytes = fixed_bytes(elf, addr);
    match read_front(bytes.as_slice()) {
        None => None,
        Some((insn, len)) => jump_target(addr, len, jump_rel(&insn)),
    }
}

/// Whether the jump at an address leads to a place.
pub fn jumps_to(elf: &Elf<'_>, addr: u64, place: u64) -> bool
    ensures { IsTrue result ↔ JumpsTo (image_of elf.now.bytes) addr place }
{
    match jump_at(elf, addr) {
        None => false,
        Some(target) => target == place,
    }
}

/// Whether an entry has an address.
fn has_start(entries: &[StartEntry], addr: u64) -> bool
    ensures { result ≡ list_any (λ e. e.addr == addr) entries.now }
{
    entries.iter().any(|entry| u64::from(entry.addr) == addr)
}

/// Whether a start is listed at an address.
fn is_listed(starts: &Starts, addr: u64) -> bool
    ensures { result ≡ is_some (entry_at starts.now addr) }
{
    has_start(near_entries(starts, addr), addr)
}

/// Whether a jump leads from an address to a place, and no start is listed at that address.
fn goes_on(elf: &Elf<'_>, starts: &Starts, addr: u64, place: u64) -> bool
    ensures { IsTrue result ↔ (is_some (entry_at starts.now addr) ≡ false)
        × JumpsTo (image_of elf.now.bytes) addr place }
{
    !is_listed(starts, addr) && jumps_to(elf, addr, place)
}

/// Whether one jump leads from an address to a place, or two, of which the second stands at no listed start.
pub(crate) fn leads(elf: &Elf<'_>, starts: &Starts, addr: u64, place: u64) -> bool
    ensures { IsTrue result ↔ Leads (image_of elf.now.bytes) starts.now addr place }
{
    match jump_at(elf, addr) {
        None => false,
        Some(target) => target == place || goes_on(elf, starts, target, place),
    }
}
