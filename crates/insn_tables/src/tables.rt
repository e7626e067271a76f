//! The seven opcode maps as tables, sixteen lines of sixteen bytes each, with the abbreviations of the Intel SDM,
//! volume 2, appendix A.2.

use crate::table_row::{Imm, TableRow};

/// What follows one opcode byte: `E` is a ModRM byte, `I` an immediate, `J` a branch's displacement, `O` an address, `G` a
/// ModRM byte whose reg 0 and 1 alone have the immediate; `b` is a byte, `w` two, `z` four or two, `v` also eight.
/// After `ok` nothing follows, and no instruction has `xx`.
macro_rules! cell {
    (xx) => { TableRow { known: false, modrm: false, imm: Imm::NoImm } };
    (ok) => { TableRow { known: true, modrm: false, imm: Imm::NoImm } };
    (Ib) => { TableRow { known: true, modrm: false, imm: Imm::I8 } };
    (Iw) => { TableRow { known: true, modrm: false, imm: Imm::I16 } };
    (Iz) => { TableRow { known: true, modrm: false, imm: Imm::Z } };
    (Iv) => { TableRow { known: true, modrm: false, imm: Imm::V } };
    (IwIb) => { TableRow { known: true, modrm: false, imm: Imm::I16I8 } };
    (O) => { TableRow { known: true, modrm: false, imm: Imm::Moffs } };
    (Jb) => { TableRow { known: true, modrm: false, imm: Imm::Rel8 } };
    (Jz) => { TableRow { known: true, modrm: false, imm: Imm::Rel32 } };
    (E) => { TableRow { known: true, modrm: true, imm: Imm::NoImm } };
    (EIb) => { TableRow { known: true, modrm: true, imm: Imm::I8 } };
    (EIz) => { TableRow { known: true, modrm: true, imm: Imm::Z } };
    (GIb) => { TableRow { known: true, modrm: true, imm: Imm::Group8 } };
    (GIz) => { TableRow { known: true, modrm: true, imm: Imm::GroupZ } };
}

/// The rows of the bytes 00 to FF, in order.
macro_rules! rows {
    ($($first:literal: $($cell:ident)*;)*) => {
        [$($(cell!($cell)),*),*]
    };
}

/// The one-byte opcodes.
pub(crate) static ONE_BYTE: [TableRow; 256] = rows! {
    0x00: E    E    E    E    Ib   Iz   xx   xx   E    E    E    E    Ib   Iz   xx   xx;
    0x10: E    E    E    E    Ib   Iz   xx   xx   E    E    E    E    Ib   Iz   xx   xx;
    0x20: E    E    E    E    Ib   Iz   xx   xx   E    E    E    E    Ib   Iz   xx   xx;
    0x30: E    E    E    E    Ib   Iz   xx   xx   E    E    E    E    Ib   Iz   xx   xx;
    0x40: xx   xx   xx   xx   xx   xx   xx   xx   xx   xx   xx   xx   xx   xx   xx   xx;
    0x50: ok   ok   ok   ok   ok   ok   ok   ok   ok   ok   ok   ok   ok   ok   ok   ok;
    0x60: xx   xx   xx   E    xx   xx   xx   xx   Iz   EIz  Ib   EIb  ok   ok   ok   ok;
    0x70: Jb   Jb   Jb   Jb   Jb   Jb   Jb   Jb   Jb   Jb   Jb   Jb   Jb   Jb   Jb   Jb;
    0x80: EIb  EIz  xx   EIb  E    E    E    E    E    E    E    E    E    E    E    E;
    0x90: ok   ok   ok   ok   ok   ok   ok   ok   ok   ok   xx   ok   ok   ok   ok   ok;
    0xa0: O    O    O    O    ok   ok   ok   ok   Ib   Iz   ok   ok   ok   ok   ok   ok;
    0xb0: Ib   Ib   Ib   Ib   Ib   Ib   Ib   Ib   Iv   Iv   Iv   Iv   Iv   Iv   Iv   Iv;
    0xc0: EIb  EIb  Iw   ok   xx   xx   EIb  EIz  IwIb ok   Iw   ok   ok   Ib   xx   ok;
    0xd0: E    E    E    E    xx   xx   xx   ok   E    E    E    E    E    E    E    E;
    0xe0: Jb   Jb   Jb   Jb   Ib   Ib   Ib   Ib   Jz   Jz   xx   Jb   ok   ok   ok   ok;
    0xf0: xx   ok   xx   xx   ok   ok   GIb  GIz  ok   ok   ok   ok   ok   ok   E    E;
};

/// The opcodes after `0F`.
pub(crate) static TWO_BYTE: [TableRow; 256] = rows! {
    0x00: E    E    E    E    xx   ok   ok   ok   ok   ok   xx   ok   xx   E    xx   xx;
    0x10: E    E    E    E    E    E    E    E    E    E    E    E    E    E    E    E;
    0x20: xx   xx   xx   xx   xx   xx   xx   xx   E    E    E    E    E    E    E    E;
    0x30: ok   ok   ok   ok   ok   ok   xx   ok   xx   xx   xx   xx   xx   xx   xx   xx;
    0x40: E    E    E    E    E    E    E    E    E    E    E    E    E    E    E    E;
    0x50: E    E    E    E    E    E    E    E    E    E    E    E    E    E    E    E;
    0x60: E    E    E    E    E    E    E    E    E    E    E    E    E    E    E    E;
    0x70: EIb  EIb  EIb  EIb  E    E    E    ok   xx   xx   xx   xx   E    E    E    E;
    0x80: Jz   Jz   Jz   Jz   Jz   Jz   Jz   Jz   Jz   Jz   Jz   Jz   Jz   Jz   Jz   Jz;
    0x90: E    E    E    E    E    E    E    E    E    E    E    E    E    E    E    E;
    0xa0: ok   ok   ok   E    EIb  E    xx   xx   ok   ok   ok   E    EIb  E    E    E;
    0xb0: E    E    E    E    E    E    E    E    E    xx   EIb  E    E    E    E    E;
    0xc0: E    E    EIb  E    EIb  EIb  EIb  E    ok   ok   ok   ok   ok   ok   ok   ok;
    0xd0: E    E    E    E    E    E    E    E    E    E    E    E    E    E    E    E;
    0xe0: E    E    E    E    E    E    E    E    E    E    E    E    E    E    E    E;
    0xf0: E    E    E    E    E    E    E    E    E    E    E    E    E    E    E    xx;
};

/// The opcodes after `0F 38`.
pub(crate) static BYTE_38: [TableRow; 256] = [cell!(E); 256];

/// The opcodes after `0F 3A`.
pub(crate) static BYTE_3A: [TableRow; 256] = [cell!(EIb); 256];

/// The opcodes of VEX map 1.
pub(crate) static VEX_1: [TableRow; 256] = rows! {
    0x00: E    E    E    E    E    E    E    E    E    E    E    E    E    E    E    E;
    0x10: E    E    E    E    E    E    E    E    E    E    E    E    E    E    E    E;
    0x20: E    E    E    E    E    E    E    E    E    E    E    E    E    E    E    E;
    0x30: E    E    E    E    E    E    E    E    E    E    E    E    E    E    E    E;
    0x40: E    E    E    E    E    E    E    E    E    E    E    E    E    E    E    E;
    0x50: E    E    E    E    E    E    E    E    E    E    E    E    E    E    E    E;
    0x60: E    E    E    E    E    E    E    E    E    E    E    E    E    E    E    E;
    0x70: EIb  EIb  EIb  EIb  E    E    E    ok   E    E    E    E    E    E    E    E;
    0x80: E    E    E    E    E    E    E    E    E    E    E    E    E    E    E    E;
    0x90: E    E    E    E    E    E    E    E    E    E    E    E    E    E    E    E;
    0xa0: E    E    E    E    E    E    E    E    E    E    E    E    E    E    E    E;
    0xb0: E    E    E    E    E    E    E    E    E    E    E    E    E    E    E    E;
    0xc0: E    E    EIb  E    EIb  EIb  EIb  E    E    E    E    E    E    E    E    E;
    0xd0: E    E    E    E    E    E    E    E    E    E    E    E    E    E    E    E;
    0xe0: E    E    E    E    E    E    E    E    E    E    E    E    E    E    E    E;
    0xf0: E    E    E    E    E    E    E    E    E    E    E    E    E    E    E    E;
};

/// The opcodes of VEX map 2.
pub(crate) static VEX_2: [TableRow; 256] = [cell!(E); 256];

/// The opcodes of VEX map 3.
pub(crate) static VEX_3: [TableRow; 256] = [cell!(EIb); 256];
