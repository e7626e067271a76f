//! Why a text is no script.
ghost use Rattle.std.specs.Prelude.{◌≡◌};
ghost use Rattle.image_step.specs.Answers.{number_of};
ghost use Rattle.image_step.specs.declared.error.ScriptError.TheVariants.{Memory};

use std::alloc::{AllocError, AllocFailed};
use thiserror::Error;

/// Why a text is no script. Lines count from 1.
#[derive(Debug, Drop, Error)]
pub enum ScriptError {
    /// The lines before this one begin a script, and this one doesn't go on with it, or is missing.
    #[error("line {line} belongs to no script")]
    BadScript { line: u32 },
    #[error("out of memory")]
    Memory,
}

impl<T: Drop> From<AllocFailed<T>> for ScriptError {
    ghost from_gives = { λ _ e. e ≡ Memory };

    fn from(_failed: AllocFailed<T>) -> ScriptError {
        ScriptError::Memory
    }
}

impl From<AllocError> for ScriptError {
    ghost from_gives = { λ _ e. e ≡ Memory };

    fn from(_failed: AllocError) -> ScriptError {
        ScriptError::Memory
    }
}

impl ScriptError {
    /// The refusal's number; want of memory has none.
    pub fn number(&self) -> Option<u32>
        ensures { result ≡ number_of self.now }
    {
        match self {
            ScriptError::BadScript { .. } => Some(1),
            ScriptError::Memory => None,
        }
    }
}
