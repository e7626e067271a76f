//! The parts of an instruction.

/// Which prefix bytes stand before an instruction, each at least once; the segments `26`, `2E`, `36` and `3E` are not told.
#[derive(Clone, Copy, Debug, Default, PartialEq, Eq)]
pub struct Prefixes {
    /// `F0`.
    pub lock: bool,
    /// `F2`.
    pub repne: bool,
    /// `F3`.
    pub rep: bool,
    /// `66`.
    pub opsize: bool,
    /// `67`.
    pub addrsize: bool,
    /// `64`.
    pub fs: bool,
    /// `65`.
    pub gs: bool,
}

/// The parts of an instruction; places and lengths are bytes from its first byte on.
#[derive(Clone, Copy, Debug, PartialEq, Eq)]
pub struct Parts {
    /// Bytes of the instruction, 1 to 15.
    pub len: u8,
    pub prefixes: Prefixes,
    /// The effective REX byte, or 0.
    pub rex: u8,
    /// The opcode map: 0 to 3 for one byte, `0F`, `0F 38` and `0F 3A`, and 4 to 6 for the VEX maps 1 to 3.
    pub map: u8,
    /// The place of the last opcode byte.
    pub opcode_at: u8,
    /// The last opcode byte.
    pub opcode: u8,
    pub modrm: Option<u8>,
    pub sib: Option<u8>,
    /// Where the displacement stands, or would.
    pub disp_at: u8,
    pub disp_len: u8,
    /// Where the immediate stands, or would.
    pub imm_at: u8,
    pub imm_len: u8,
}

/// What stands at the front of bytes.
#[derive(Clone, Copy, Debug, PartialEq, Eq)]
pub enum Shape {
    /// An instruction.
    Known(Parts),
    /// No instruction, however the bytes go on.
    Unknown,
    /// Too few bytes of an instruction.
    Short,
}
