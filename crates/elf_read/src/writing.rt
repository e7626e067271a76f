//! Writing entries of a table, and the file of a header, a table and what stands behind it.
ghost use Rattle.std.specs.Prelude.{◌≡◌, ◌<◌, ◌^◌, ◌++◌, length, IfOk, OnOk};
ghost use Rattle.byteorder.specs.Endian.{little_bytes};
ghost use Rattle.elf_read.specs.Entries.{spelled, table};
ghost use Rattle.elf_read.specs.Plain.{plain_file};
ghost use Rattle.elf_read.specs.Writing.{header_of, load_entry, filled_to, file_with};

use crate::header::{E_ENTRY, E_PHNUM};
use crate::segment::{PF_R, PF_X, PT_LOAD, Segment};
use pun_base::field::{put_u16, put_u64};
use pun_base::limits::PAGE_LEN;
use std::alloc::{AllocError, Global};

/// The header of an executable for x86-64 with a table right behind it, with 0 for `e_entry` and `e_phnum`.
const HEADER: [u8; 64] = [
    0x7F, 0x45, 0x4C, 0x46, 2, 1, 1, 0, 0, 0, 0, 0, 0, 0, 0, 0, // e_ident
    2, 0, 62, 0, 1, 0, 0, 0, // e_type, e_machine, e_version
    0, 0, 0, 0, 0, 0, 0, 0, // e_entry
    64, 0, 0, 0, 0, 0, 0, 0, // e_phoff
    0, 0, 0, 0, 0, 0, 0, 0, // e_shoff
    0, 0, 0, 0, 64, 0, 56, 0, // e_flags, e_ehsize, e_phentsize
    0, 0, 0, 0, 0, 0, 0, 0, // e_phnum, and nothing of sections
];

/// Where the text of a plain file begins: on the page behind the header and the table.
pub const TEXT_PLACE: usize = PAGE_LEN as usize;

/// Where the text of a plain file is loaded.
pub const TEXT_ADDR: u64 = 0x40_1000;

/// The header of a program that starts at an address, with a table of so many entries.
#[tactic(auto, unfolding(crate::specs::Writing::header_of, crate::specs::Plain::header))]
fn header_of(start: u64, count: u16) -> [u8; 64]
    ensures { result ≡ header_of start count }
{
    let mut header = HEADER;
    put_u64(&mut header, E_ENTRY, start);
    put_u16(&mut header, E_PHNUM, count);
    header
}

/// Appends a number of four bytes, low byte first.
fn push_u32(out: &mut Vec<u8>, value: u32) -> Result<(), AllocError>
    ensures { OnOk result (out.new.items ≡ out.old.items ++ little_bytes 4 value) }
{
    out.extend_from_slice(&value.to_le_bytes())
}

/// Appends a number of eight bytes, low byte first.
fn push_u64(out: &mut Vec<u8>, value: u64) -> Result<(), AllocError>
    ensures { OnOk result (out.new.items ≡ out.old.items ++ little_bytes 8 value) }
{
    out.extend_from_slice(&value.to_le_bytes())
}

/// Appends an entry, 56 bytes.
pub fn push_entry(out: &mut Vec<u8>, entry: &Segment) -> Result<(), AllocError>
    ensures { OnOk result (out.new.items ≡ out.old.items ++ spelled entry.now) }
{
    push_u32(out, entry.kind)?;
    push_u32(out, entry.flags)?;
    push_u64(out, entry.offset)?;
    push_u64(out, entry.vaddr)?;
    push_u64(out, entry.paddr)?;
    push_u64(out, entry.filesz)?;
    push_u64(out, entry.memsz)?;
    push_u64(out, entry.align)?;
    Ok(())
}

/// Appends entries, in order.
pub fn push_table(out: &mut Vec<u8>, entries: &[Segment]) -> Result<(), AllocError>
    ensures { OnOk result (out.new.items ≡ out.old.items ++ table entries.now) }
{
    for entry in entries {
        push_entry(out, entry)?;
    }
    Ok(())
}

/// Appends zeros up to a place.
fn fill_to(out: &mut Vec<u8>, at: usize) -> Result<(), AllocError>
    ensures { OnOk result (out.new.items ≡ filled_to at out.old.items) }
{
    if out.len() < at {
        out.resize(at, 0)?;
    }
    Ok(())
}

/// The file of a header, which tells where the program starts, these entries, zeros up to the place `at`, and bytes.
pub fn file_with(
    alloc: Global,
    start: u64,
    entries: &[Segment],
    at: usize,
    bytes: &[u8],
) -> Result<Vec<u8>, AllocError>
    requires { length entries.now < 2 ^ 16 }
    ensures { IfOk result (λ file. file.items ≡ file_with start entries.now at bytes.now) }
{
    let mut file = Vec::new(alloc);
    file.extend_from_slice(&header_of(start, entries.len() as u16))?;
    push_table(&mut file, entries)?;
    fill_to(&mut file, at)?;
    file.extend_from_slice(bytes)?;
    Ok(file)
}

/// A PT_LOAD with these flags, of `size` bytes that stand at a place of the file and are loaded at an address.
pub fn load_entry(flags: u32, offset: u64, vaddr: u64, size: u64) -> Segment
    ensures { result ≡ load_entry flags offset vaddr size }
{
    Segment {
        kind: PT_LOAD,
        flags,
        offset,
        vaddr,
        paddr: vaddr,
        filesz: size,
        memsz: size,
        align: PAGE_LEN as u64,
    }
}

/// The plain file of a text, which is loaded at 0x401000 and begins there.
pub fn plain_file(alloc: Global, text: &[u8]) -> Result<Vec<u8>, AllocError>
    ensures { IfOk result (λ file. file.items ≡ plain_file text.now) }
{
    let size = text.len() as u64;
    let entry = load_entry(PF_R | PF_X, TEXT_PLACE as u64, TEXT_ADDR, size);
    file_with(alloc, TEXT_ADDR, &[entry], TEXT_PLACE, text)
}
