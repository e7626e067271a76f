//! Instructions with their operands (Intel SDM, volume 2, section 2.1 and the instructions' pages).

use cpu_alu::{AluOp, Width};

/// The segment whose base is added to an address.
#[derive(Clone, Copy, Debug, PartialEq, Eq)]
pub enum Seg {
    /// No base is added.
    Plain,
    /// The base of fs.
    Fs,
    /// The base of gs.
    Gs,
}

/// An operand in memory: base, index times scale, and displacement (Intel SDM, volume 1, section 3.7.5).
#[derive(Clone, Copy, Debug, PartialEq, Eq)]
pub struct MemForm {
    /// The code of the base register.
    pub base: Option<u8>,
    /// The code of the index register.
    pub index: Option<u8>,
    /// 1, 2, 4 or 8.
    pub scale: u8,
    pub disp: i32,
    /// Whether the address of the next instruction is added.
    pub rip: bool,
    pub seg: Seg,
    /// Whether the sum has 32 bits (prefix `67`).
    pub short: bool,
    /// Bytes of ModRM, SIB and displacement.
    pub tail: u8,
}

/// A place for a number.
#[derive(Clone, Copy, Debug, PartialEq, Eq)]
pub enum Spot {
    /// The low bits of a register, by its code: rax, rcx, rdx, rbx, rsp, rbp, rsi, rdi, and r8 to r15.
    Reg(u8),
    /// Bits 8 to 15 of a register: AH, CH, DH, BH for the codes 0 to 3.
    High(u8),
    /// Memory.
    Mem(MemForm),
}

/// A number that an operation takes.
#[derive(Clone, Copy, Debug, PartialEq, Eq)]
pub enum Value {
    Spot(Spot),
    /// A constant of the operation's width: a shorter one is sign-extended.
    Imm(u64),
    /// The low byte of rcx.
    Cl,
}

/// Where a branch leads.
#[derive(Clone, Copy, Debug, PartialEq, Eq)]
pub enum Target {
    /// So far from the next instruction.
    Rel(i32),
    /// To the address that is read.
    Through(Spot),
}

/// An operation of known meaning, with its operands.
#[derive(Clone, Copy, Debug, PartialEq, Eq)]
pub enum Op {
    Mov {
        width: Width,
        dst: Spot,
        src: Value,
    },
    /// `movzx`, and with `signed` `movsx` and `movsxd`.
    Extend {
        signed: bool,
        from: Width,
        width: Width,
        dst: u8,
        src: Spot,
    },
    Lea {
        width: Width,
        dst: u8,
        mem: MemForm,
    },
    /// Both are registers.
    Xchg {
        width: Width,
        a: Spot,
        b: Spot,
    },
    /// The displacement of a RIP operand, which is not read.
    Nop {
        rip_disp: Option<i32>,
    },
    Push {
        src: Value,
    },
    Pop {
        dst: Spot,
    },
    /// Without `keep` the result is not stored: `cmp` and `test`. For `inc` and `dec` the second operand is the constant 1, and for `neg` 0.
    Alu {
        op: AluOp,
        width: Width,
        dst: Spot,
        src: Value,
        keep: bool,
    },
    Not {
        width: Width,
        dst: Spot,
    },
    Cmov {
        cc: u8,
        width: Width,
        dst: u8,
        src: Spot,
    },
    Set {
        cc: u8,
        dst: Spot,
    },
    /// `cbw`, `cwde` and `cdqe`, and with `high` `cwd`, `cdq` and `cqo`.
    Widen {
        width: Width,
        high: bool,
    },
    Leave,
    Cmc,
    Clc,
    Stc,
    Sahf,
    Lahf,
    Jcc {
        cc: u8,
        rel: i32,
    },
    /// `loopne`, `loope`, `loop` and `jrcxz` are the kinds 0 to 3; `short` is prefix `67`.
    Loop {
        kind: u8,
        rel: i32,
        short: bool,
    },
    Jmp {
        target: Target,
    },
    Call {
        target: Target,
    },
    /// So many bytes more are taken off the stack.
    Ret {
        extra: u16,
    },
}

/// An instruction whose result the world gives.
#[derive(Clone, Copy, Debug, PartialEq, Eq)]
pub struct AskedForm {
    /// The displacement of a RIP operand.
    pub rip_disp: Option<i32>,
    pub syscall: bool,
    /// Whether a copy of it is taken.
    pub copied: bool,
}

/// An instruction by what decides over its step.
#[derive(Clone, Copy, Debug, PartialEq, Eq)]
pub enum Insn {
    /// The operation's meaning.
    Exact(Op),
    /// The world's answer.
    Asked(AskedForm),
    /// It has no step.
    Ending,
}
