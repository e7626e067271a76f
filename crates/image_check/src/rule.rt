//! The rules of a sound image.

/// What a rule of a sound image is about. Rules are numbered from 1.
#[derive(Clone, Copy, Debug, PartialEq, Eq)]
pub enum Rule {
    /// What the original loads, the patched file loads with the same permissions, and outside runs the same byte.
    Byte = 1,
    /// A run tells the old and the new byte, and belongs to a start that has a trampoline.
    Write = 2,
    /// The patched bytes at the start of a trampoline lead to its place.
    Entry = 3,
    /// The patched file holds the code of each trampoline.
    Code = 4,
    /// What else the patched file loads is the header table, the private range or a page of trampolines.
    Range = 5,
    /// Sites are listed and descend, and entry point and private range are as they should be.
    Site = 6,
}
