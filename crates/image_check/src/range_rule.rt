//! Rule 5: what else a patched file loads.
ghost use Rattle.std.specs.Prelude.{◌≡◌, option_map, List, None};
ghost use Rattle.std.specs.List.{list_any};
ghost use Rattle.start_entries.specs.declared.entry.StartEntry.{StartEntry};
ghost use Rattle.elf_read.specs.Refusals.{refusal};
ghost use Rattle.image_check.specs.Parts.{cell_of, wrong_range, on_page_of, shares};
ghost use Rattle.sound_images.specs.Rules as rules;
ghost use Rattle.sound_images.specs.Cases.{case_of};

use crate::cells::{LoadedByte, loaded_at};
use crate::flat::FlatReport;
use elf_read::elf::Elf;
use elf_read::segment::Segment;
use pun_base::limits::{ORIGINAL_LOW, PAGE_LEN, TABLE_END, TABLE_LOW};

/// Whether a byte that the original doesn't load may be loaded.
fn is_expected(flat: &FlatReport<'_>, addr: u64, now: LoadedByte) -> bool
    ensures { result ≡ rules.is_expected flat.now addr (cell_of now) }
{
    (TABLE_LOW as u64 <= addr && (addr < TABLE_END as u64 && now.perms == 4))
        || ((flat.in_private(addr) && (now.byte == 0 && now.perms == 6))
            || (flat.on_page(addr) && now.perms == 5))
}

/// Whether a byte is loaded that the original doesn't load and that isn't expected.
fn is_unexpected(
    flat: &FlatReport<'_>,
    addr: u64,
    was: Option<LoadedByte>,
    now: Option<LoadedByte>,
) -> bool
    ensures { result ≡ rules.is_unexpected flat.now addr (option_map cell_of was)
        (option_map cell_of now) }
{
    if was.is_some() {
        return false;
    }
    match now {
        None => false,
        Some(now) => !is_expected(flat, addr, now),
    }
}

/// Whether a segment loads a byte of the page of an address.
fn meets_page(addr: u64, segment: &Segment) -> bool
    ensures { result ≡ on_page_of addr segment.now }
{
    let page = PAGE_LEN as u64;
    segment.vaddr / page <= addr / page
        && addr / page
            <= segment
                .vaddr
                .saturating_add(segment.memsz.saturating_sub(1))
                / page
}

/// Whether some segment loads a byte of the page of an address.
fn shares_page(loads: &[Segment], addr: u64) -> bool
    ensures { result ≡ list_any (on_page_of addr) loads.now }
{
    loads.iter().any(|segment| meets_page(addr, segment))
}

/// Whether rule 5 fails at an address.
pub(crate) fn range_fails(
    orig: &Elf<'_>,
    patched: &Elf<'_>,
    flat: &FlatReport<'_>,
    addr: u64,
) -> bool
    ensures accepted { refusal 0x10000 orig.now.bytes ≡ None }
    ensures value { (es : List StartEntry) → result
        ≡ wrong_range (case_of orig.now.bytes patched.now.bytes es flat.now)
        (shares orig.now.bytes addr) addr }
{
    let loads = orig.loads();
    let was = loaded_at(orig, addr);
    let now = loaded_at(patched, addr);
    let private = flat.in_private(addr);
    let page = flat.on_page(addr);
    is_unexpected(flat, addr, was, now)
        || ((private || page)
            && (now.is_none()
                || ((private && page) || (addr < ORIGINAL_LOW as u64 || shares_page(loads, addr)))))
}
