//! Standard output as a sink.
ghost use Rattle.std.specs.Prelude.{◌≡◌, ℕ, None};
ghost use Rattle.pun_base.specs.Counting.{faults_after};
ghost use Rattle.pun_base.specs.Sink.{Writes};
ghost use Rattle.real_files.specs.FileDesk.{seen_output};
ghost use Rattle.real_files.specs.Streams.{AppendsWhole};

use crate::streams::write_bytes;
use pun_base::desk::PutError;
use pun_base::sink::Sink;
use std::alloc::Global;
use std::io::Write;
use std::marker::Model;

/// A writer as a sink, as standard output. As a sink it tells nothing of what was written.
#[derive(Drop)]
pub struct StdSink<W: Write + Drop> {
    to: W,
    faults: u64,
}

impl<W: Write + Drop> Model for StdSink<W> {
    ghost use Rattle.real_files.specs.FileDesk.{OutputState};

    ghost Value = { OutputState };

    ghost view = { λ s. record { bytes = W.contents s.to; faults = s.faults } };
}

impl<W: Write + Drop> StdSink<W> {
    /// A sink over this writer, no write of which has failed.
    pub fn new(to: W) -> StdSink<W>
        ensures { result ≡ record { bytes = W.contents to; faults = 0 } }
    {
        StdSink { to, faults: 0 }
    }
}

impl<W: Write + Drop> Sink for StdSink<W> {
    ghost seen = { seen_output };

    fn write(&mut self, _alloc: Global, bytes: &[u8]) -> Result<(), PutError>
        ensures writes { Writes bytes.now (seen_output self.old) (seen_output self.new) result }
        ensures grows { AppendsWhole bytes.now result self.old.bytes self.new.bytes }
        ensures faults { self.new.faults ≡ faults_after result self.old.faults }
    {
        let result = write_bytes(&mut self.to, bytes);
        if matches!(result, Err(PutError::Failed)) {
            self.faults = self.faults.saturating_add(1);
        }
        result
    }
}
