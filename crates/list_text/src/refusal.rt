//! Why a list is refused.
ghost use Rattle.std.specs.Prelude.{◌≡◌};
ghost use Rattle.list_text.specs.Lists.{number_of};
ghost use Rattle.list_text.specs.declared.refusal.ListError.TheVariants.{Memory};

use std::alloc::AllocFailed;
use thiserror::Error;

/// Why a list is refused: what its first refused line breaks. Lines count from 1.
#[derive(Debug, Drop, Error)]
pub enum ListError {
    /// The line isn't 1 to 8 hexadecimal digits, with or without `0x` before them.
    #[error("line {line} isn't a hexadecimal number of at most eight digits")]
    BadLine { line: u32 },
    /// The line's number isn't greater than that of the line before it.
    #[error("the number of line {line} isn't greater than the one before it")]
    NotAscending { line: u32 },
    /// There are more than `limit` lines, and the first `limit` are as they should be.
    #[error("the list has more than {limit} lines")]
    TooMany { limit: u32 },
    #[error("out of memory")]
    Memory,
}

impl<T: Drop> From<AllocFailed<T>> for ListError {
    ghost from_gives = { λ _ e. e ≡ Memory };

    fn from(_failed: AllocFailed<T>) -> ListError {
        ListError::Memory
    }
}

impl ListError {
    /// The refusal's number, from 1 to 3; want of memory has none.
    pub fn number(&self) -> Option<u32>
        ensures { result ≡ number_of self.now }
    {
        match self {
            ListError::BadLine { .. } => Some(1),
            ListError::NotAscending { .. } => Some(2),
            ListError::TooMany { .. } => Some(3),
            ListError::Memory => None,
        }
    }
}
