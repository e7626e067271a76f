//! Where text is printed.
ghost use Rattle.pun_base.specs.Shown.{SinkState};
ghost use Rattle.pun_base.specs.Sink.{Writes};

use crate::desk::PutError;
use std::alloc::Global;

/// Where text is printed, as standard output.
pub trait Sink {
    /// What the sink shows.
    ghost seen: { Self → SinkState };

    /// Writes bytes behind those that were written before.
    fn write(&mut self, alloc: Global, bytes: &[u8]) -> Result<(), PutError>
        ensures { Writes bytes.now (seen self.old) (seen self.new) result };
}
