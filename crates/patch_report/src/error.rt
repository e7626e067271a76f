//! Why a text is no report.
ghost use Rattle.std.specs.Prelude.{◌≡◌};
ghost use Rattle.patch_report.specs.Answers.{number_of};
ghost use Rattle.patch_report.specs.declared.error.ReportError.TheVariants.{Memory};

use std::alloc::{AllocError, AllocFailed};
use thiserror::Error;

/// Why a text is no report. Lines count from 1.
#[derive(Debug, Drop, Error)]
pub enum ReportError {
    /// Some report agrees with the text up to this line, and none with this line too, which may be
    /// missing.
    #[error("line {line} belongs to no report")]
    BadReport { line: u32 },
    /// The first line names another version of reports.
    #[error("line {line} names another version")]
    BadVersion { line: u32 },
    #[error("out of memory")]
    Memory,
}

impl<T: Drop> From<AllocFailed<T>> for ReportError {
    ghost from_gives = { λ _ e. e ≡ Memory };

    fn from(_failed: AllocFailed<T>) -> ReportError {
        ReportError::Memory
    }
}

impl From<AllocError> for ReportError {
    ghost from_gives = { λ _ e. e ≡ Memory };

    fn from(_failed: AllocError) -> ReportError {
        ReportError::Memory
    }
}

impl ReportError {
    /// The refusal's number, 1 or 2; want of memory has none.
    pub fn number(&self) -> Option<u32>
        ensures { result ≡ number_of self.now }
    {
        match self {
            ReportError::BadReport { .. } => Some(1),
            ReportError::BadVersion { .. } => Some(2),
            ReportError::Memory => None,
        }
    }
}
