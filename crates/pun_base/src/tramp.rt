//! Trampolines.

/// Where the code for one instruction stands.
#[derive(Clone, Copy, Debug, Default, PartialEq, Eq)]
pub struct Tramp {
    /// The address of the code.
    pub place: u32,
    /// The address of the instruction.
    pub start: u32,
    /// Whether the code records an event first.
    pub event: bool,
}
