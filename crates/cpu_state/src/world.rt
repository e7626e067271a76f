//! What an instruction may ask of the world, and what the world answers.
ghost use Rattle.std.specs.Prelude.{◌≡◌};

use crate::page_list::PageList;
use pun_base::byte_list::ByteList;
use std::marker::Model;

/// What is asked: the bytes of an instruction, with zeros in place of a RIP displacement, and the address that it names.
#[derive(Debug, PartialEq, Eq, Drop)]
pub struct Question {
    pub bytes: ByteList,
    pub addr: Option<u64>,
}

/// Bytes that an answer writes from an address on. Addresses come round after the last one.
#[derive(Debug, Drop)]
pub struct MemWrite {
    pub addr: u64,
    pub bytes: PageList,
}

/// The writes of an answer, in order.
#[derive(Debug, Drop)]
pub struct MemWrites {
    writes: Vec<MemWrite>,
}

/// What the world answers. What it doesn't give stays as it was.
#[derive(Debug, Drop)]
pub struct Answer {
    /// In the order of `State::regs`.
    pub regs: [Option<u64>; 16],
    /// The flags word.
    pub flags: Option<u64>,
    pub fs: Option<u64>,
    pub gs: Option<u64>,
    pub writes: MemWrites,
}

/// A question and its answer.
#[derive(Debug, Drop)]
pub struct Entry {
    pub question: Question,
    pub answer: Answer,
}

/// The entries of a world, in order.
#[derive(Debug, Drop)]
pub struct Entries {
    entries: Vec<Entry>,
}

/// The answers that a program will be given: the entries from `place` on are left.
#[derive(Debug, Drop)]
pub struct World {
    pub entries: Entries,
    pub place: u32,
}

impl Model for MemWrites {
    ghost use Rattle.std.specs.Prelude.{List};
    ghost use Rattle.cpu_state.specs.declared.world.MemWrite.{MemWrite};

    ghost Value = { List MemWrite };

    ghost view = { λ w. w.writes.items };
}

impl MemWrites {
    /// The list of these writes.
    pub fn from_vec(writes: Vec<MemWrite>) -> Self
        ensures { result ≡ writes.items }
    {
        MemWrites { writes }
    }

    /// The writes, in order.
    pub fn into_vec(self) -> Vec<MemWrite>
        ensures { result.items ≡ self }
    {
        self.writes
    }

    /// The writes, in order.
    pub fn as_slice(&self) -> &[MemWrite]
        ensures { result.now ≡ self.now }
    {
        &self.writes
    }
}

impl Model for Entries {
    ghost use Rattle.std.specs.Prelude.{List};
    ghost use Rattle.cpu_state.specs.declared.world.Entry.{Entry};

    ghost Value = { List Entry };

    ghost view = { λ e. e.entries.items };
}

impl Entries {
    /// The list of these entries.
    pub fn from_vec(entries: Vec<Entry>) -> Self
        ensures { result ≡ entries.items }
    {
        Entries { entries }
    }

    /// The entries, in order.
    pub fn into_vec(self) -> Vec<Entry>
        ensures { result.items ≡ self }
    {
        self.entries
    }

    /// The entries, in order.
    pub fn as_slice(&self) -> &[Entry]
        ensures { result.now ≡ self.now }
    {
        &self.entries
    }
}
