//! The front of a settled file: its header and table, the stub, the file's section table, and zeros.
ghost use Rattle.std.specs.Prelude.{◌≡◌, ◌+◌, ◌-◌, ◌*◌, ◌^◌, ◌<◌, ◌≤◌, ◌++◌, ◌∷◌, length, map, IfOk, OnOk};
ghost use Rattle.std.specs.Int.{to_le_bytes, w32};
ghost use Rattle.elf_read.specs.Writing.{filled_to};
ghost use Rattle.settle.specs.Stub.{go_to, stub_code};
ghost use Rattle.settle.specs.Settling.{bare_parts};
ghost use Rattle.settle.specs.Settled.{front_entry, front_with, is_hidden, moved, settled_table, stub_at};
ghost use Rattle.settle.specs.Lengths.{front_len as len_of_front, used_len as len_used};

use crate::sections::push_sections;
use elf_read::header::HEADER_LEN;
use elf_read::segment::{ENTRY_LEN, PF_R, PF_X, PT_LOAD, PT_PHDR, Segment};
use elf_read::writing::file_with;
use pun_base::limits::{JUMP_LEN, PAGE_LEN};
use std::alloc::{AllocError, Global};

/// `p_type` of an entry that nobody reads (ELF-64, "Segment Types").
const PT_NULL: u32 = 0;

/// `p_type` of the entry that tells what a program's own loader reads.
const PT_DYNAMIC: u32 = 2;

/// How many bytes the stub has.
const STUB_LEN: usize = 89;

/// Where in the stub its last jump stands.
const JUMP_AT: u32 = 84;

/// The stub before it tells anything: to the variables, over them, and over the pairs behind them, up to one that is told.
const WALK: [u8; 49] = [
    0x48, 0x8B, 0x0C, 0x24, // mov rcx, [rsp]
    0x48, 0x8D, 0x7C, 0xCC, 0x10, // lea rdi, [rsp + 8 rcx + 16]
    0x48, 0x8B, 0x0F, 0x48, 0x8D, 0x7F, 0x08, 0xE3, 0x02, 0xEB, 0xF5, // up to the 0 behind the variables
    0x48, 0x8B, 0x0F, 0xE3, 0x36, // the pair's key: 0 ends them
    0x48, 0x8D, 0x49, 0xFD, 0xE3, 0x12, // 3, AT_PHDR
    0x48, 0x8D, 0x49, 0xFE, 0xE3, 0x16, // 5, AT_PHNUM
    0x48, 0x8D, 0x49, 0xFC, 0xE3, 0x1A, // 9, AT_ENTRY
    0x48, 0x8D, 0x7F, 0x10, 0xEB, 0xE3, // the next pair
];

/// How many bytes of the front are used, for a file of so many entries.
#[tactic(auto, unfolding(crate::specs::Lengths::used_len))]
pub(crate) fn used_len(count: usize) -> usize
    requires { count ≤ 65535 }
    ensures { result ≡ len_used count }
{
    HEADER_LEN + ENTRY_LEN * (count + 1) + STUB_LEN
}

/// How many bytes the front has: whole pages.
#[tactic(auto, unfolding(crate::specs::Lengths::front_len, crate::specs::Lengths::used_len))]
pub(crate) fn front_len(count: usize) -> usize
    requires { count ≤ 65535 }
    ensures value { result ≡ len_of_front count }
    ensures room { 64 + 56 * (count + 1) + 89 ≤ result }
    ensures small { result < 2 ^ 22 }
{
    (used_len(count) + 4095) / 4096 * 4096
}

/// Where the stub stands.
fn stub_at(base: u32, count: usize) -> u32
    requires { count ≤ 1023 }
    ensures value { result ≡ stub_at base count }
    ensures room { result + 89 < 2 ^ 32 }
{
    let low = base.saturating_sub(front_len(count) as u32);
    low + HEADER_LEN as u32 + (ENTRY_LEN * (count + 1)) as u32
}

/// The front's own entry, which nobody but `unsettle` asks for the base: `p_paddr` tells it.
fn front_entry(base: u32, count: usize) -> Segment
    requires { count ≤ 1023 }
    ensures { result ≡ front_entry base count }
{
    let used = used_len(count) as u64;
    Segment {
        kind: PT_LOAD,
        flags: PF_R | PF_X,
        offset: 0,
        vaddr: u64::from(base).saturating_sub(front_len(count) as u64),
        paddr: u64::from(base),
        filesz: used,
        memsz: used,
        align: PAGE_LEN as u64,
    }
}

/// Whether a kernel isn't to see an entry: the program finds what it tells by its own table.
fn is_hidden(entry: &Segment) -> bool
    ensures { result ≡ is_hidden entry.now }
{
    entry.kind == PT_DYNAMIC || entry.kind == PT_PHDR
}

/// An entry that stands `len` bytes later in a file and is loaded `base` bytes higher.
fn moved(entry: &Segment, len: usize, base: u32) -> Segment
    ensures { result ≡ moved len base entry.now }
{
    Segment {
        kind: if is_hidden(entry) {
            PT_NULL
        } else {
            entry.kind
        },
        offset: entry.offset.wrapping_add(len as u64),
        vaddr: entry.vaddr.wrapping_add(u64::from(base)),
        paddr: entry.paddr.wrapping_add(u64::from(base)),
        ..*entry
    }
}

/// The table of the settled file.
fn settled_table(alloc: Global, entries: &[Segment], base: u32) -> Result<Vec<Segment>, AllocError>
    requires { length entries.now ≤ 1023 }
    ensures { IfOk result (λ v. v.items ≡ settled_table base entries.now) }
{
    let count = entries.len();
    let len = front_len(count);
    let mut table = Vec::new(alloc);
    table.push(front_entry(base, count))?;
    for entry in entries {
        table.push(moved(entry, len, base))?;
    }
    Ok(table)
}

/// Appends code and a number of four bytes, low byte first.
fn push_number(out: &mut Vec<u8>, code: &[u8], number: u32) -> Result<(), AllocError>
    ensures { OnOk result (out.new.items
        ≡ out.old.items ++ (code.now ++ to_le_bytes w32 number)) }
{
    out.extend_from_slice(code)?;
    out.extend_from_slice(&number.to_le_bytes())
}

/// Appends `jmp rel32` from a place to a target (Intel SDM, volume 2, JMP).
fn push_jump(out: &mut Vec<u8>, place: u32, target: u32) -> Result<(), AllocError>
    requires { place + 5 < 2 ^ 32 }
    ensures { OnOk result (out.new.items ≡ out.old.items ++ go_to place target) }
{
    push_number(out, &[0xE9], target.wrapping_sub(place + JUMP_LEN as u32))
}

/// The stub at an address, with what it tells.
fn stub_code(
    alloc: Global,
    at: u32,
    phdr: u32,
    phnum: u32,
    entry: u32,
) -> Result<Vec<u8>, AllocError>
    requires { at + 89 < 2 ^ 32 }
    ensures { IfOk result (λ v. v.items ≡ stub_code at phdr phnum entry) }
{
    let mut out = Vec::new(alloc);
    out.extend_from_slice(&WALK)?;
    push_number(&mut out, &[0x48, 0xC7, 0x47, 0x08], phdr)?;
    push_number(&mut out, &[0xEB, 0xF0, 0x48, 0xC7, 0x47, 0x08], phnum)?;
    push_number(&mut out, &[0xEB, 0xE6, 0x48, 0xC7, 0x47, 0x08], entry)?;
    push_number(&mut out, &[0xEB, 0xDC, 0xBF], 0)?;
    push_jump(&mut out, at + JUMP_AT, entry)?;
    Ok(out)
}

/// Appends zeros up to a place.
fn fill_to(out: &mut Vec<u8>, at: usize) -> Result<(), AllocError>
    ensures { OnOk result (out.new.items ≡ filled_to at out.old.items) }
{
    if out.len() < at {
        out.resize(at, 0)?;
    }
    Ok(())
}

/// A front up to the end of its stub: the header, the table, and the stub with what it tells.
fn bare_front(
    alloc: Global,
    entries: &[Segment],
    base: u32,
    phdr: u32,
    entry: u32,
) -> Result<Vec<u8>, AllocError>
    requires { length entries.now ≤ 1023 }
    ensures value { IfOk result (λ v. v.items ≡ bare_parts base entries.now phdr entry) }
    ensures long { IfOk result (λ v. 64 ≤ length v.items) }
{
    let count = entries.len();
    let table = settled_table(alloc, entries, base)?;
    let at = stub_at(base, count);
    let code = stub_code(alloc, at, phdr, count as u32, entry)?;
    let out = file_with(
        alloc,
        u64::from(at),
        &table,
        HEADER_LEN + ENTRY_LEN * (count + 1),
        &code,
    )?;
    Ok(out)
}

/// A front for a file of these entries, with what its stub tells, and behind it the file.
pub(crate) fn with_front(
    alloc: Global,
    file: &[u8],
    entries: &[Segment],
    base: u32,
    phdr: u32,
    entry: u32,
) -> Result<Vec<u8>, AllocError>
    requires few { length entries.now ≤ 1023 }
    requires long { 64 ≤ length file.now }
    ensures { IfOk result (λ v. v.items ≡ front_with base file.now entries.now phdr entry ++ file.now) }
{
    let count = entries.len();
    let mut out = bare_front(alloc, entries, base, phdr, entry)?;
    push_sections(&mut out, file, count)?;
    fill_to(&mut out, front_len(count))?;
    out.extend_from_slice(file)?;
    Ok(out)
}
