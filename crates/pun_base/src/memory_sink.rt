//! A sink in memory, for tests and for programs that keep what is printed.
ghost use Rattle.std.specs.Prelude.{◌≡◌, ◌↔◌, Err, Ok, None, Some, OnErr, IsErrOf};
ghost use Rattle.pun_base.specs.Shown.{SinkState};
ghost use Rattle.pun_base.specs.Sink.{Writes};
ghost use Rattle.pun_base.specs.Counting.{one_more, faults_after};
ghost use Rattle.pun_base.specs.MemSink.{MemSinkState, new_sink, seen_sink, IsWriteToFail};

use crate::desk::PutError;
use crate::sink::Sink;
use std::alloc::Global;
use std::marker::Model;

/// What was printed, in memory. One write may be made to fail, so that a caller's faults can be tried.
#[derive(Drop)]
pub struct MemSink {
    bytes: Vec<u8>,
    writes: u64,
    faults: u64,
    fail_at: Option<u64>,
}

impl Model for MemSink {
    ghost use Rattle.pun_base.specs.MemSink.{MemSinkState};

    ghost Value = { MemSinkState };

    ghost view = { λ s. record {
      bytes = s.bytes.items;
      writes = s.writes;
      faults = s.faults;
      fail_at = s.fail_at;
    } };
}

impl MemSink {
    /// An empty sink, whose `fail_at`-th write fails, counted from 1. It takes no memory.
    pub fn new(alloc: Global, fail_at: Option<u64>) -> MemSink
        ensures { result ≡ new_sink fail_at }
    {
        MemSink {
            bytes: Vec::new(alloc),
            writes: 0,
            faults: 0,
            fail_at,
        }
    }

    /// What was written.
    pub fn bytes(&self) -> &[u8]
        ensures { result.now ≡ self.now.bytes }
    {
        self.bytes.as_slice()
    }
}

impl Sink for MemSink {
    ghost seen = { seen_sink };

    fn write(&mut self, alloc: Global, bytes: &[u8]) -> Result<(), PutError>
        ensures writes { Writes bytes.now (seen_sink self.old) (seen_sink self.new) result }
        ensures fails { IsErrOf result PutError.Failed ↔ IsWriteToFail self.old }
        ensures kept { OnErr result (self.new.bytes ≡ self.old.bytes) }
        ensures counts { self.new.writes ≡ one_more self.old.writes }
        ensures faults { self.new.faults ≡ faults_after result self.old.faults }
        ensures fail_at { self.new.fail_at ≡ self.old.fail_at }
    {
        self.writes = self.writes.saturating_add(1);
        if self.fail_at == Some(self.writes) {
            self.faults = self.faults.saturating_add(1);
            return Err(PutError::Failed);
        }
        match self.bytes.extend_from_slice(bytes) {
            Ok(()) => Ok(()),
            Err(_) => Err(PutError::Memory),
        }
    }
}
