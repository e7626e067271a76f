//! Why no step is made.
ghost use Rattle.std.specs.Prelude.{◌≡◌};
ghost use Rattle.cpu_step.specs.Steps.{number_of};

use cpu_state::world::Question;
use thiserror::Error;

/// Why no step is made. But for `NoByte` the address is that of the instruction.
#[derive(Debug, PartialEq, Eq, Error, Drop)]
pub enum Stop {
    /// No byte is held at the address with the permission that is needed: to execute, to read or to write.
    #[error("a byte is missing at {addr:#x}")]
    NoByte { addr: u64 },
    /// The bytes are no instruction.
    #[error("no known instruction stands at {addr:#x}")]
    UnknownInsn { addr: u64 },
    /// The instruction ends the run.
    #[error("the instruction at {addr:#x} ends the run")]
    Ending { addr: u64 },
    /// A question is asked, and the world has no further entry.
    #[error("the world has no answer for the instruction at {addr:#x}")]
    WorldEmpty { addr: u64 },
    /// The world's next entry has another question.
    #[error("the world's next answer is not for the instruction at {addr:#x}")]
    WorldDiffers { addr: u64, asked: Question },
}

impl Stop {
    /// The stop's number, 1 to 5, in the order of the variants.
    pub fn number(&self) -> u32
        ensures { result ≡ number_of self.now }
    {
        match self {
            Stop::NoByte { .. } => 1,
            Stop::UnknownInsn { .. } => 2,
            Stop::Ending { .. } => 3,
            Stop::WorldEmpty { .. } => 4,
            Stop::WorldDiffers { .. } => 5,
        }
    }
}
