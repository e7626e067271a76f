//! Why a file isn't settled, and why one isn't unsettled.
ghost use Rattle.std.specs.Prelude.{◌≡◌};

use elf_read::refusal::ElfError;
use std::alloc::AllocError;
use thiserror::Error;

/// Why a file isn't settled at a base: the first of the rules that is broken.
#[derive(Debug, Drop, Error)]
pub enum SettleError {
    /// A rule of the header that other files keep too.
    #[error("{0}")]
    File(ElfError),
    /// `e_type` isn't ET_DYN.
    #[error("the file isn't position independent")]
    NotDyn,
    /// The table has more entries than 1,023: no kernel takes it with one more.
    #[error("the table has {count} entries")]
    TooManyEntries { count: u32 },
    /// The bytes of a PT_LOAD reach past the file's end.
    #[error("entry {entry} reaches past the file's end")]
    SegmentOutside { entry: u32 },
    /// The base isn't a multiple of the largest alignment.
    #[error("the base isn't a multiple of {align}")]
    BaseUnaligned { align: u64 },
    /// A rule that an entry of the settled file breaks.
    #[error("settled, {0}")]
    Settled(ElfError),
    /// No PT_LOAD has the file's own table.
    #[error("the program header table isn't loaded")]
    TableNotLoaded,
    /// The entry point is no byte that can be executed.
    #[error("the entry point isn't one of the file's instructions")]
    EntryOutside,
    #[error("out of memory")]
    Memory,
}

impl From<AllocError> for SettleError {
    ghost use Rattle.settle.specs.declared.error.SettleError.TheVariants.{Memory};

    ghost from_gives = { λ _ result. result ≡ Memory };

    fn from(_error: AllocError) -> SettleError {
        SettleError::Memory
    }
}

/// Why a file isn't unsettled.
#[derive(Debug, Drop, Error)]
pub enum UnsettleError {
    /// It isn't what is written for a file that is settled.
    #[error("the file isn't a settled one")]
    NotSettled,
    #[error("out of memory")]
    Memory,
}

impl From<AllocError> for UnsettleError {
    ghost use Rattle.settle.specs.declared.error.UnsettleError.TheVariants.{Memory};

    ghost from_gives = { λ _ result. result ≡ Memory };

    fn from(_error: AllocError) -> UnsettleError {
        UnsettleError::Memory
    }
}
