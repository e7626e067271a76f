//! Why a list of starts is refused.
ghost use Rattle.std.specs.Prelude.{◌≡◌};
ghost use Rattle.start_entries.specs.Refusals.{number_of};

use thiserror::Error;

/// Why a list of starts is refused: the first start that breaks the rule.
#[derive(Debug, Drop, Error)]
pub enum StartError {
    /// At this start stands no byte of the file in a PT_LOAD with PF_X and without PF_W.
    #[error("no byte that can be executed stands at {addr:08x}")]
    NotExecutable { addr: u32 },
    #[error("out of memory")]
    Memory,
}

impl StartError {
    /// The rule's number, 1. The number 2 was that of starts that share bytes, and isn't used again.
    pub fn number(&self) -> Option<u32>
        ensures { result ≡ number_of self.now }
    {
        match self {
            StartError::NotExecutable { .. } => Some(1),
            StartError::Memory => None,
        }
    }
}
