//! The section table of a front (ELF-64, "Section Header Table").
ghost use Rattle.std.specs.Prelude.{◌≡◌, ◌+◌, ◌*◌, ◌^◌, ◌<◌, ◌≤◌, ◌++◌, true, length, OnOk};
ghost use Rattle.settle.specs.Sections.{moved_section, moved_sections, section_table, sections_count, sections_place, shown_at, shows, with_sections, with_table};

use crate::front::{front_len, used_len};
use pun_base::field::{get_u16, get_u32, get_u64, put_u16, put_u64};
use std::alloc::AllocError;

const E_SHOFF: usize = 40;

const E_SHENTSIZE: usize = 58;

const E_SHNUM: usize = 60;

const E_SHSTRNDX: usize = 62;

/// How many bytes a section's header has.
const SECTION_LEN: usize = 64;

const SH_TYPE: usize = 4;

/// `sh_type` of a header without a section.
const SHT_NULL: u32 = 0;

const SH_OFFSET: usize = 24;

/// Zeros between the stub and the table, which stands at a multiple of 8.
const GAP: [u8; 7] = [0; 7];

/// Where the front of a file of so many entries has its section table.
#[tactic(auto, unfolding(crate::specs::Lengths::used_len))]
fn shown_at(count: usize) -> usize
    requires { count ≤ 1023 }
    ensures value { result ≡ shown_at count }
    ensures small { result < 2 ^ 16 }
{
    used_len(count) + GAP.len()
}

/// Whether the front of a file of so many entries has its section table.
#[tactic(auto, unfolding(crate::specs::Sections::shows))]
pub(crate) fn shows_sections(file: &[u8], count: usize) -> bool
    requires long { 64 ≤ length file.now }
    requires few { count ≤ 1023 }
    ensures value { result ≡ shows count file.now }
    ensures inside { result ≡ true
        → sections_place file.now + 64 * sections_count file.now ≤ length file.now }
{
    let number = usize::from(get_u16(file, E_SHNUM));
    let place = u128::from(get_u64(file, E_SHOFF));
    usize::from(get_u16(file, E_SHENTSIZE)) == SECTION_LEN
        && 0 < number
        && place + (SECTION_LEN * number) as u128 <= file.len() as u128
        && shown_at(count) + SECTION_LEN * number <= front_len(count)
}

/// A section's header whose bytes stand `len` bytes later in a file.
fn moved_section(section: &[u8], len: usize) -> [u8; SECTION_LEN]
    requires { length section.now ≡ 64 }
    ensures { result ≡ moved_section len section.now }
{
    let mut moved = [0; SECTION_LEN];
    moved.copy_from_slice(section);
    if get_u32(section, SH_TYPE) != SHT_NULL {
        let offset = get_u64(section, SH_OFFSET).wrapping_add(len as u64);
        put_u64(&mut moved, SH_OFFSET, offset);
    }
    moved
}

/// Appends the headers of the last `count` sections of those that a file has from `at` on.
fn push_moved(
    out: &mut Vec<u8>,
    file: &[u8],
    at: usize,
    count: u16,
    len: usize,
) -> Result<(), AllocError>
    requires { at + 64 * count ≤ length file.now }
    ensures { OnOk result (out.new.items ≡ out.old.items ++ moved_sections len file.now at count) }
{
    if count > 0 {
        out.extend_from_slice(&moved_section(&file[at..at + SECTION_LEN], len))?;
        push_moved(out, file, at + SECTION_LEN, count - 1, len)?;
    }
    Ok(())
}

/// Makes a header tell of the section table.
fn tell_sections(header: &mut [u8], file: &[u8], count: usize)
    requires header { 64 ≤ length header.old }
    requires long { 64 ≤ length file.now }
    requires few { count ≤ 1023 }
    ensures { header.new ≡ with_sections count file.now header.old }
{
    put_u64(header, E_SHOFF, shown_at(count) as u64);
    put_u16(header, E_SHENTSIZE, SECTION_LEN as u16);
    put_u16(header, E_SHNUM, get_u16(file, E_SHNUM));
    put_u16(header, E_SHSTRNDX, get_u16(file, E_SHSTRNDX));
}

/// Appends the section table of a file of so many entries, with the zeros before it.
fn push_table(out: &mut Vec<u8>, file: &[u8], count: usize) -> Result<(), AllocError>
    requires long { 64 ≤ length file.now }
    requires few { count ≤ 1023 }
    requires inside { sections_place file.now + 64 * sections_count file.now ≤ length file.now }
    ensures { OnOk result (out.new.items ≡ out.old.items ++ section_table count file.now) }
{
    let place = get_u64(file, E_SHOFF) as usize;
    out.extend_from_slice(&GAP)?;
    push_moved(out, file, place, get_u16(file, E_SHNUM), front_len(count))
}

/// Appends the section table of a file to its front, where that has it, and tells of it.
pub(crate) fn push_sections(out: &mut Vec<u8>, file: &[u8], count: usize) -> Result<(), AllocError>
    requires long { 64 ≤ length file.now }
    requires few { count ≤ 1023 }
    requires header { 64 ≤ length out.old.items }
    ensures { OnOk result (out.new.items ≡ with_table count file.now out.old.items) }
{
    if shows_sections(file, count) {
        tell_sections(out, file, count);
        push_table(out, file, count)?;
    }
    Ok(())
}
