//! Instructions without their operands.

use cpu_alu::{AluOp, Width};

/// Where the manual's tables of operand encodings put an operand.
#[derive(Clone, Copy, Debug, PartialEq, Eq)]
pub enum Slot {
    /// ModRM:r/m.
    Rm,
    /// ModRM:reg.
    Reg,
    /// The low three bits of the opcode.
    Low,
    /// AL, AX, EAX or RAX.
    Accumulator,
}

/// Where a number comes from.
#[derive(Clone, Copy, Debug, PartialEq, Eq)]
pub enum Source {
    Slot(Slot),
    /// The immediate.
    Immediate,
    /// This number.
    Constant(u8),
    Cl,
}

/// What an opcode is, before its operands are filled in. Operands of byte forms have 8 bits.
#[derive(Clone, Copy, Debug, PartialEq, Eq)]
pub enum Template {
    Mov {
        byte: bool,
        dst: Slot,
        src: Source,
    },
    Extend {
        signed: bool,
        from: Width,
    },
    Lea,
    Xchg {
        byte: bool,
        a: Slot,
        b: Slot,
    },
    Nop,
    Push {
        src: Source,
    },
    Pop {
        dst: Slot,
    },
    Alu {
        op: AluOp,
        byte: bool,
        dst: Slot,
        src: Source,
        keep: bool,
    },
    Not {
        byte: bool,
    },
    Cmov {
        cc: u8,
    },
    Set {
        cc: u8,
    },
    Widen {
        high: bool,
    },
    Leave,
    Cmc,
    Clc,
    Stc,
    Sahf,
    Lahf,
    Jcc {
        cc: u8,
    },
    Loop {
        kind: u8,
    },
    Jmp,
    JmpThrough,
    Call,
    CallThrough,
    Ret,
    Asked {
        syscall: bool,
        copied: bool,
    },
    Ending,
}
