//! The rules that the header keeps.
ghost use Rattle.std.specs.Prelude.{◌≡◌, ◌+◌, ◌*◌, ◌≤◌, nat_lt, length, IfNone};
ghost use Rattle.elf_read.specs.Entries.{table_place, table_count};
ghost use Rattle.settle.specs.Refusals.{header_refusal, kind_refusal, table_refusal};

use crate::error::SettleError;
use elf_read::header::{E_PHNUM, E_PHOFF, HEADER_LEN};
use elf_read::refusal::ElfError;
use elf_read::segment::ENTRY_LEN;
use pun_base::field::{get_u16, get_u64};

/// `e_ident` from `EI_MAG0` to `EI_MAG3`.
const MAGIC: [u8; 4] = [0x7f, 0x45, 0x4c, 0x46];

const EI_CLASS: usize = 4;

const ELFCLASS64: u8 = 2;

const EI_DATA: usize = 5;

const ELFDATA2LSB: u8 = 1;

const E_TYPE: usize = 16;

const ET_DYN: u16 = 3;

const E_MACHINE: usize = 18;

const EM_X86_64: u16 = 62;

const E_PHENTSIZE: usize = 54;

/// The most entries of a table: with one more it has at most 65,536 bytes, as a kernel asks.
const MOST_ENTRIES: u16 = 1023;

/// Whether the program header table reaches past the file's end.
#[tactic(auto, unfolding(elf_read::specs::Entries::table_place, elf_read::specs::Entries::table_count))]
fn is_table_outside(bytes: &[u8]) -> bool
    requires { 64 ≤ length bytes.now }
    ensures { result ≡ nat_lt (length bytes.now)
        (table_place bytes.now + 56 * table_count bytes.now) }
{
    let place = u128::from(get_u64(bytes, E_PHOFF));
    let count = u128::from(get_u16(bytes, E_PHNUM));
    place + ENTRY_LEN as u128 * count > bytes.len() as u128
}

/// The first rule of what a file is that one breaks which is to be settled.
#[tactic(auto, unfolding(crate::specs::Refusals::kind_refusal))]
fn kind_refusal(bytes: &[u8]) -> Option<SettleError>
    ensures value { result ≡ kind_refusal bytes.now }
    ensures long { IfNone result (64 ≤ length bytes.now) }
{
    if bytes.len() < HEADER_LEN {
        return Some(SettleError::File(ElfError::TooShort));
    }
    if !bytes.starts_with(&MAGIC) {
        return Some(SettleError::File(ElfError::BadMagic));
    }
    if bytes[EI_CLASS] != ELFCLASS64 {
        return Some(SettleError::File(ElfError::NotClass64));
    }
    if bytes[EI_DATA] != ELFDATA2LSB {
        return Some(SettleError::File(ElfError::NotLittle));
    }
    if get_u16(bytes, E_TYPE) != ET_DYN {
        return Some(SettleError::NotDyn);
    }
    if get_u16(bytes, E_MACHINE) != EM_X86_64 {
        return Some(SettleError::File(ElfError::NotX86));
    }
    if usize::from(get_u16(bytes, E_PHENTSIZE)) != ENTRY_LEN {
        return Some(SettleError::File(ElfError::BadPhentSize));
    }
    None
}

/// The first rule that its table breaks.
#[tactic(auto, unfolding(crate::specs::Refusals::table_refusal, elf_read::specs::Entries::table_count))]
fn table_refusal(bytes: &[u8]) -> Option<SettleError>
    requires { 64 ≤ length bytes.now }
    ensures value { result ≡ table_refusal bytes.now }
    ensures table { IfNone result (table_place bytes.now + 56 * table_count bytes.now
        ≤ length bytes.now) }
    ensures few { IfNone result (table_count bytes.now ≤ 1023) }
{
    if is_table_outside(bytes) {
        return Some(SettleError::File(ElfError::TableOutside));
    }
    let count = get_u16(bytes, E_PHNUM);
    if count > MOST_ENTRIES {
        return Some(SettleError::TooManyEntries {
            count: u32::from(count),
        });
    }
    None
}

/// The first rule that the header breaks.
pub(crate) fn header_refusal(bytes: &[u8]) -> Option<SettleError>
    ensures value { result ≡ header_refusal bytes.now }
    ensures long { IfNone result (64 ≤ length bytes.now) }
    ensures table { IfNone result (table_place bytes.now + 56 * table_count bytes.now
        ≤ length bytes.now) }
    ensures few { IfNone result (table_count bytes.now ≤ 1023) }
{
    match kind_refusal(bytes) {
        Some(error) => Some(error),
        None => table_refusal(bytes),
    }
}
