//! The file's header (ELF-64, "ELF Header"): where its fields stand, and the rules that it keeps.
ghost use Rattle.std.specs.Prelude.{◌≡◌, ◌+◌, ◌*◌, ◌≤◌, nat_lt, length, IfNone};
ghost use Rattle.elf_read.specs.Entries.{table_place, table_count};
ghost use Rattle.elf_read.specs.Refusals.{header_refusal};

use crate::refusal::ElfError;
use crate::segment::ENTRY_LEN;
use pun_base::field::{get_u16, get_u64};

/// How many bytes the header has: `e_ehsize`.
pub const HEADER_LEN: usize = 64;

/// `e_ident` from `EI_MAG0` to `EI_MAG3`.
const MAGIC: [u8; 4] = [0x7f, 0x45, 0x4c, 0x46];

const EI_CLASS: usize = 4;

const ELFCLASS64: u8 = 2;

const EI_DATA: usize = 5;

const ELFDATA2LSB: u8 = 1;

const E_TYPE: usize = 16;

const ET_EXEC: u16 = 2;

const E_MACHINE: usize = 18;

const EM_X86_64: u16 = 62;

/// Where `e_entry` stands: 8 bytes.
pub const E_ENTRY: usize = 24;

/// Where `e_phoff` stands: 8 bytes.
pub const E_PHOFF: usize = 32;

const E_PHENTSIZE: usize = 54;

/// Where `e_phnum` stands: 2 bytes.
pub const E_PHNUM: usize = 56;

/// Whether the program header table reaches past the file's end.
#[tactic(auto, unfolding(crate::specs::Entries::table_place, crate::specs::Entries::table_count))]
fn is_table_outside(bytes: &[u8]) -> bool
    requires { 64 ≤ length bytes.now }
    ensures { result ≡ nat_lt (length bytes.now)
        (table_place bytes.now + 56 * table_count bytes.now) }
{
    let place = u128::from(get_u64(bytes, E_PHOFF));
    let count = u128::from(get_u16(bytes, E_PHNUM));
    place + ENTRY_LEN as u128 * count > bytes.len() as u128
}

/// The first rule that the header breaks.
#[tactic(auto, unfolding(crate::specs::Refusals::header_refusal))]
pub(crate) fn header_refusal(bytes: &[u8]) -> Option<ElfError>
    ensures value { result ≡ header_refusal bytes.now }
    ensures long { IfNone result (64 ≤ length bytes.now) }
    ensures table { IfNone result (table_place bytes.now + 56 * table_count bytes.now
        ≤ length bytes.now) }
{
    if bytes.len() < HEADER_LEN {
        return Some(ElfError::TooShort);
    }
    if !bytes.starts_with(&MAGIC) {
        return Some(ElfError::BadMagic);
    }
    if bytes[EI_CLASS] != ELFCLASS64 {
        return Some(ElfError::NotClass64);
    }
    if bytes[EI_DATA] != ELFDATA2LSB {
        return Some(ElfError::NotLittle);
    }
    if get_u16(bytes, E_TYPE) != ET_EXEC {
        return Some(ElfError::NotExec);
    }
    if get_u16(bytes, E_MACHINE) != EM_X86_64 {
        return Some(ElfError::NotX86);
    }
    if usize::from(get_u16(bytes, E_PHENTSIZE)) != ENTRY_LEN {
        return Some(ElfError::BadPhentSize);
    }
    if is_table_outside(bytes) {
        return Some(ElfError::TableOutside);
    }
    None
}
