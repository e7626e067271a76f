//! Why a file can't be run under a script.
ghost use Rattle.std.specs.Prelude.{◌≡◌};
ghost use Rattle.image_step.specs.Running.{number_of};
ghost use Rattle.image_step.specs.declared.runner_error.RunnerError.TheVariants.{Memory};

use std::alloc::AllocError;
use thiserror::Error;

/// Why a file can't be run under a script.
#[derive(Debug, Drop, Error)]
pub enum RunnerError {
    /// A region of the script has an address in a page of the file's image: the least address at which such a one begins.
    #[error("the region from {lo:#x} on meets the file's image")]
    RegionMeets { lo: u64 },
    #[error("out of memory")]
    Memory,
}

impl From<AllocError> for RunnerError {
    ghost from_gives = { λ _ e. e ≡ Memory };

    fn from(_failed: AllocError) -> RunnerError {
        RunnerError::Memory
    }
}

impl RunnerError {
    /// The refusal's number; want of memory has none.
    pub fn number(&self) -> Option<u32>
        ensures { result ≡ number_of self.now }
    {
        match self {
            RunnerError::RegionMeets { .. } => Some(2),
            RunnerError::Memory => None,
        }
    }
}
