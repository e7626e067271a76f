//! Why nothing is laid.
ghost use Rattle.std.specs.Prelude.{◌≡◌};
ghost use Rattle.loader_form.specs.Numbers.{number_of};

use thiserror::Error;

/// Why there is no place for the stub or its save page, or that there are too many runs for the
/// stub.
#[derive(Debug, Drop, Error)]
pub enum LoadError {
    /// There are this many runs of pages, and the stub maps at most 65,535.
    #[error("{count} runs of pages are more than a stub maps")]
    TooManyRuns { count: u32 },
    /// There is no run of this many free pages for the stub, or no free page for the save page.
    #[error("no {pages} free pages for the stub and one for what it saves")]
    NoLoader { pages: u32 },
    #[error("out of memory")]
    Memory,
}

impl LoadError {
    /// The refusal's number: 1 or 2.
    pub fn number(&self) -> Option<u32>
        ensures { result ≡ number_of self.now }
    {
        match self {
            LoadError::TooManyRuns { .. } => Some(1),
            LoadError::NoLoader { .. } => Some(2),
            LoadError::Memory => None,
        }
    }
}
