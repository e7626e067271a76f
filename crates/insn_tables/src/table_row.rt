//! The rows of opcode maps.

/// The immediate of an instruction: its kind, from which the prefixes and the ModRM byte give its size.
#[derive(Clone, Copy, Debug, PartialEq, Eq)]
pub enum Imm {
    /// None.
    NoImm,
    /// One byte.
    I8,
    /// Two bytes.
    I16,
    /// Four bytes, but two under the operand-size prefix without REX.W.
    Z,
    /// Eight bytes under REX.W, else as `Z`.
    V,
    /// The eight bytes of an address, but four under the address-size prefix.
    Moffs,
    /// A branch's displacement of one byte.
    Rel8,
    /// A branch's displacement of four bytes.
    Rel32,
    /// Three bytes: `enter`'s frame size and level.
    I16I8,
    /// One byte where the ModRM byte's reg is 0 or 1, else none.
    Group8,
    /// As `Z` where the ModRM byte's reg is 0 or 1, else none.
    GroupZ,
}

/// What follows an opcode byte.
#[derive(Clone, Copy, Debug, PartialEq, Eq)]
pub struct TableRow {
    /// Whether an instruction has this opcode. The other fields mean nothing where none has.
    pub known: bool,
    /// Whether a ModRM byte follows.
    pub modrm: bool,
    /// The immediate at the instruction's end.
    pub imm: Imm,
}

impl TableRow {
    /// The row of an opcode that no instruction has.
    pub const UNDEFINED: TableRow = TableRow {
        known: false,
        modrm: false,
        imm: Imm::NoImm,
    };
}
