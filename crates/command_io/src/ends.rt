//! How a command ends.
use crate::refusal::Refusal;

/// Which input is meant.
#[derive(Clone, Copy, Debug, PartialEq, Eq)]
pub enum Input {
    File,
    Starts,
    Sites,
    Out,
    Report,
    World,
}

/// What a command prints when it did its work, and the status that it answers then.
#[derive(Drop)]
pub struct Told {
    pub text: Vec<u8>,
    pub status: u8,
}

/// Why a command didn't do its work.
#[derive(Drop)]
pub enum Failure<'a> {
    /// The inputs are refused.
    Refused(Refusal),
    /// The input of this name couldn't be read.
    ReadFault(&'a str),
    /// The output of this name couldn't be written whole.
    WriteFault(&'a str),
    /// Memory ran out, and so nothing is printed.
    Memory,
}
