//! Why a file isn't restored.
ghost use Rattle.std.specs.Prelude.{◌≡◌};

use std::alloc::AllocError;
use thiserror::Error;

/// Why a file isn't restored: the first of these that holds.
#[derive(Debug, Drop, Error)]
pub enum UnpatchError {
    /// The report has version 1, which tells nothing of the original.
    #[error("the report doesn't tell what the original was")]
    NoOrigin,
    /// An original of the length that the report tells can't have been written as a file of this size.
    #[error("the original's length isn't one that the file can have")]
    OriginOutside,
    /// The file hasn't the byte that the report tells; `addr` is the least address where that is so.
    #[error("the byte at {addr:08X} isn't the report's")]
    BytesDiffer { addr: u32 },
    #[error("out of memory")]
    Memory,
}

impl From<AllocError> for UnpatchError {
    ghost use Rattle.unpatch.specs.declared.error.UnpatchError.TheVariants.{Memory};

    ghost from_gives = { λ _ result. result ≡ Memory };

    fn from(_error: AllocError) -> UnpatchError {
        UnpatchError::Memory
    }
}
