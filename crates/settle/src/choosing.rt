//! The base: what it must be a multiple of, and the highest.
ghost use Rattle.std.specs.Prelude.{◌≡◌, ◌<◌, ◌≤◌, ◌^◌, length};
ghost use Rattle.elf_read.specs.Entries.{loads};
ghost use Rattle.settle.specs.Refusals.{base_for, entries_refusal, greater, highest_end, largest_align};

use crate::entries::first_outside;
use crate::error::SettleError;
use elf_read::segment::Segment;
use pun_base::limits::{ADDRESS_END, PAGE_LEN};

/// The greater of two numbers.
fn greater(a: u128, b: u128) -> u128
    ensures { result ≡ greater a b }
{
    if a <= b { b } else { a }
}

/// The largest alignment of the entries that are loaded, 4,096 at least.
fn largest_align(entries: &[Segment]) -> u128
    ensures value { result ≡ largest_align (loads entries.now) }
    ensures some { 4096 ≤ result }
    ensures wide { result < 2 ^ 64 }
{
    let Some((entry, later)) = entries.split_first() else {
        return PAGE_LEN as u128;
    };
    let align = largest_align(later);
    if entry.is_load() {
        greater(u128::from(entry.align), align)
    } else {
        align
    }
}

/// The end of the highest of the entries that are loaded.
fn highest_end(entries: &[Segment]) -> u128
    ensures value { result ≡ highest_end (loads entries.now) }
{
    let Some((entry, later)) = entries.split_first() else {
        return 0;
    };
    let end = highest_end(later);
    if entry.is_load() {
        greater(u128::from(entry.vaddr) + u128::from(entry.memsz), end)
    } else {
        end
    }
}

/// The highest base at which the entries end at or below the end of a program's addresses.
pub(crate) fn highest_base(entries: &[Segment]) -> u32
    ensures { result ≡ base_for (loads entries.now) }
{
    let align = largest_align(entries);
    let room = (ADDRESS_END as u128).saturating_sub(highest_end(entries));
    (room / align * align) as u32
}

/// The first rule that the entries of a file of `len` bytes break, or the base.
pub(crate) fn entries_refusal(entries: &[Segment], len: usize, base: u32) -> Option<SettleError>
    requires { length entries.now < 2 ^ 16 }
    ensures { result ≡ entries_refusal base len entries.now }
{
    if let Some(entry) = first_outside(entries, len) {
        return Some(SettleError::SegmentOutside {
            entry: entry as u32,
        });
    }
    let align = largest_align(entries);
    if u128::from(base) % align == 0 {
        None
    } else {
        Some(SettleError::BaseUnaligned {
            align: align as u64,
        })
    }
}
