//! Why a file is refused.
ghost use Rattle.std.specs.Prelude.{◌≡◌};
ghost use Rattle.elf_read.specs.Refusals.{number_of, told_entry};

use thiserror::Error;

/// Why a file is refused: the first of these rules that it breaks. `entry` is the index in the program header
/// table of the first entry that breaks it.
#[derive(Debug, Drop, Error)]
pub enum ElfError {
    /// The file has fewer than 64 bytes, the length of a header.
    #[error("the file is shorter than an ELF-64 header")]
    TooShort,
    /// `e_ident` doesn't begin with 7F 45 4C 46.
    #[error("the file isn't an ELF file")]
    BadMagic,
    /// `EI_CLASS` isn't ELFCLASS64.
    #[error("the file isn't of 64 bits")]
    NotClass64,
    /// `EI_DATA` isn't ELFDATA2LSB.
    #[error("the file isn't little endian")]
    NotLittle,
    /// `e_type` isn't ET_EXEC.
    #[error("the file isn't an executable at fixed addresses")]
    NotExec,
    /// `e_machine` isn't EM_X86_64.
    #[error("the file isn't for x86-64")]
    NotX86,
    /// `e_phentsize` isn't 56.
    #[error("the program header table's entries aren't of 56 bytes")]
    BadPhentSize,
    /// The program header table reaches past the file's end.
    #[error("the program header table reaches past the file's end")]
    TableOutside,
    /// An entry is a PT_DYNAMIC or a PT_INTERP.
    #[error("entry {entry} is for dynamic linking")]
    Dynamic { entry: u32 },
    /// The bytes of a PT_LOAD reach past the file's end.
    #[error("entry {entry} reaches past the file's end")]
    SegmentOutside { entry: u32 },
    /// `p_filesz` of a PT_LOAD exceeds its `p_memsz`.
    #[error("entry {entry} has more bytes in the file than in memory")]
    SizeOrder { entry: u32 },
    /// `p_offset` and `p_vaddr` of a nonempty PT_LOAD differ modulo 4,096.
    #[error("entry {entry} isn't aligned to pages")]
    Misaligned { entry: u32 },
    /// A nonempty PT_LOAD ends past 0x7FFF0000.
    #[error("entry {entry} is loaded too high")]
    AddressHigh { entry: u32 },
    /// A nonempty PT_LOAD begins below the lowest address of a program.
    #[error("entry {entry} is loaded too low")]
    AddressLow { entry: u32 },
    /// The first page of a nonempty PT_LOAD isn't above the last page of the nonempty PT_LOAD before it.
    #[error("entry {entry} isn't above the entry before it")]
    LoadOrder { entry: u32 },
    #[error("out of memory")]
    Memory,
}

impl ElfError {
    /// The rule's number in the order in which rules are tried, from 1 to 15.
    pub fn number(&self) -> Option<u32>
        ensures { result ≡ number_of self.now }
    {
        let number = match self {
            ElfError::TooShort => 1,
            ElfError::BadMagic => 2,
            ElfError::NotClass64 => 3,
            ElfError::NotLittle => 4,
            ElfError::NotExec => 5,
            ElfError::NotX86 => 6,
            ElfError::BadPhentSize => 7,
            ElfError::TableOutside => 8,
            ElfError::Dynamic { .. } => 9,
            ElfError::SegmentOutside { .. } => 10,
            ElfError::SizeOrder { .. } => 11,
            ElfError::Misaligned { .. } => 12,
            ElfError::AddressHigh { .. } => 13,
            ElfError::AddressLow { .. } => 14,
            ElfError::LoadOrder { .. } => 15,
            ElfError::Memory => return None,
        };
        Some(number)
    }

    /// The index of the entry that breaks the rule, where it is a rule of entries.
    pub fn entry(&self) -> Option<u32>
        ensures { result ≡ told_entry self.now }
    {
        match self {
            ElfError::Dynamic { entry }
            | ElfError::SegmentOutside { entry }
            | ElfError::SizeOrder { entry }
            | ElfError::Misaligned { entry }
            | ElfError::AddressHigh { entry }
            | ElfError::AddressLow { entry }
            | ElfError::LoadOrder { entry } => Some(*entry),
            _ => None,
        }
    }
}
