//! Rule 1: what the original loads.
ghost use Rattle.std.specs.Prelude.{◌≡◌, ◌⊎◌, ◌+◌, ◌-◌, ◌^◌, ◌≤◌, ◌<◌, ℕ, List, Some, length, slice_get};
ghost use Rattle.elf_read.specs.declared.segment.Segment.{Segment};
ghost use Rattle.elf_read.specs.Accepted.{Ascends};
ghost use Rattle.elf_read.specs.Find.{segment_holding};
ghost use Rattle.elf_read.specs.Image.{image_of};
ghost use Rattle.sound_images.specs.Reports.{is_written};
ghost use Rattle.sound_images.specs.Rules.{differs};
ghost use Rattle.image_check.specs.Stretches.{HoldsTo, IsSameAt};
ghost use Rattle.sound_images.specs.Cases.{case_of};
ghost use Rattle.image_check.specs.declared.rule.Rule.TheVariants.{Byte};
ghost use Rattle.start_entries.specs.declared.entry.StartEntry.{StartEntry};

use crate::cells::{differ, loaded_at};
use crate::flat::FlatReport;
use crate::span::nearer;
use crate::standing::{common_len, rest_of};
use elf_read::elf::Elf;
use elf_read::segment::Segment;

/// Whether rule 1 fails at an address. Whether the address is written is asked only where bytes
/// differ.
pub(crate) fn byte_fails(
    orig: &Elf<'_>,
    patched: &Elf<'_>,
    flat: &FlatReport<'_>,
    addr: u64,
) -> bool
    ensures { result ≡ differs (image_of orig.now.bytes addr) (image_of patched.now.bytes addr)
        (is_written flat.now addr) }
{
    let was = loaded_at(orig, addr);
    let now = loaded_at(patched, addr);
    differ(was, now, true) || (differ(was, now, false) && !flat.is_written(addr))
}

/// The least address above one at which a segment begins; the greatest number where none does.
fn next_begin(loads: &[Segment], addr: u64) -> u64
    requires { Ascends 0 loads.now }
    ensures from { addr ≤ result }
    ensures apart { (i : ℕ) (s : Segment) → slice_get loads.now i ≡ Some s
        → (s.vaddr ≤ addr) ⊎ (result ≤ s.vaddr) }
{
    let below = loads.partition_point(|segment| segment.vaddr <= addr);
    if below >= loads.len() {
        return u64::MAX;
    }
    loads[below].vaddr
}

/// The end of a stretch from `addr` on in which two slices have the same bytes, or written ones.
fn same_to(flat: &FlatReport<'_>, addr: u64, old: &[u8], new: &[u8]) -> u64
    requires old { addr + length old.now < 2 ^ 64 }
    requires new { addr + length new.now < 2 ^ 64 }
    ensures from { addr ≤ result }
    ensures same { (x : ℕ) → addr ≤ x → x < result
        → IsSameAt flat.now old.now new.now (x - addr) x }
{
    let same = addr + common_len(old, new) as u64;
    let most = nearer(addr + old.len() as u64, addr + new.len() as u64);
    nearer(flat.written_to(same), most)
}

/// The end of a stretch from `addr` on which rule 1 holds, in a segment of each file that holds
/// `addr`.
fn passed_both(
    orig: &Elf<'_>,
    patched: &Elf<'_>,
    flat: &FlatReport<'_>,
    was: &Segment,
    now: &Segment,
    addr: u64,
) -> u64
    requires was { segment_holding orig.now.bytes addr ≡ Some was.now }
    requires now { segment_holding patched.now.bytes addr ≡ Some now.now }
    ensures from { addr ≤ result }
    ensures holds { (es : List StartEntry)
        → HoldsTo (case_of orig.now.bytes patched.now.bytes es flat.now) Byte addr result }
{
    if was.perms() == now.perms() {
        let old = rest_of(orig.file(), was, addr);
        let new = rest_of(patched.file(), now, addr);
        same_to(flat, addr, old, new)
    } else {
        addr
    }
}

/// The end of a stretch from `addr` on which rule 1 holds, in the original's segment that holds
/// `addr`.
fn passed_in(
    orig: &Elf<'_>,
    patched: &Elf<'_>,
    flat: &FlatReport<'_>,
    was: &Segment,
    addr: u64,
) -> u64
    requires { segment_holding orig.now.bytes addr ≡ Some was.now }
    ensures from { addr ≤ result }
    ensures holds { (es : List StartEntry)
        → HoldsTo (case_of orig.now.bytes patched.now.bytes es flat.now) Byte addr result }
{
    match patched.segment_at(addr) {
        None => addr,
        Some(now) => passed_both(orig, patched, flat, was, &now, addr),
    }
}

/// The end of a stretch from `addr` on which rule 1 holds; `addr` itself if none is known.
pub(crate) fn byte_passed(
    orig: &Elf<'_>,
    patched: &Elf<'_>,
    flat: &FlatReport<'_>,
    addr: u64,
) -> u64
    ensures from { addr ≤ result }
    ensures holds { (es : List StartEntry)
        → HoldsTo (case_of orig.now.bytes patched.now.bytes es flat.now) Byte addr result }
{
    match orig.segment_at(addr) {
        None => next_begin(orig.loads(), addr),
        Some(was) => passed_in(orig, patched, flat, &was, addr),
    }
}
