//! What an operation reads, and what it leaves.

use cpu_state::state::Core;

/// Some bytes in memory: an address and a number of bytes.
#[derive(Clone, Copy, Debug, PartialEq, Eq)]
pub struct Span {
    pub addr: u64,
    pub size: u8,
}

/// What an operation leaves once its operand in memory was read.
#[derive(Clone, Copy, Debug, PartialEq, Eq)]
pub struct Out {
    pub core: Core,
    /// Where the run goes on, if not at the next instruction.
    pub target: Option<u64>,
    /// What is written, where something is.
    pub value: u64,
    /// The flags that the manual leaves undefined: bits 0 to 5 for CF, PF, AF, ZF, SF and OF.
    pub undefined: u8,
}
