//! Exact instructions by their opcodes, an operation or two a row (Intel SDM, volume 2, the operations' pages).
ghost use Rattle.std.specs.Prelude.{◌≡◌};
ghost use Rattle.insn_form.specs.Classes as classes;

use crate::template::{Slot, Source, Template};
use cpu_alu::{AluOp, Width};

/// The even one of two opcodes beside each other has operands of a byte.
fn is_byte(op: u8) -> bool
    ensures { result ≡ classes.is_byte op }
{
    op % 2 == 0
}

pub(crate) fn mov_row(op: u8, reg: u8) -> Option<Template>
    ensures { result ≡ classes.mov_row op reg }
{
    let byte = is_byte(op);
    let (byte, dst, src) = match op {
        0x88 | 0x89 => (byte, Slot::Rm, Source::Slot(Slot::Reg)),
        0x8a | 0x8b => (byte, Slot::Reg, Source::Slot(Slot::Rm)),
        0xb0..=0xb7 => (true, Slot::Low, Source::Immediate),
        0xb8..=0xbf => (false, Slot::Low, Source::Immediate),
        0xc6 | 0xc7 if reg == 0 => (byte, Slot::Rm, Source::Immediate),
        _ => return None,
    };
    Some(Template::Mov { byte, dst, src })
}

pub(crate) fn extend_one(op: u8, wide: u8) -> Option<Template>
    ensures { result ≡ classes.extend_one op wide }
{
    if op == 0x63 && wide == 1 {
        Some(Template::Extend {
            signed: true,
            from: Width::W32,
        })
    } else {
        None
    }
}

pub(crate) fn extend_two(op: u8, opsize: bool) -> Option<Template>
    ensures { result ≡ classes.extend_two op opsize }
{
    let (signed, from) = match op {
        0xb6 => (false, Width::W8),
        0xb7 if !opsize => (false, Width::W16),
        0xbe => (true, Width::W8),
        0xbf if !opsize => (true, Width::W16),
        _ => return None,
    };
    Some(Template::Extend { signed, from })
}

pub(crate) fn lea_row(op: u8, mode: u8) -> Option<Template>
    ensures { result ≡ classes.lea_row op mode }
{
    if op == 0x8d && mode != 3 {
        Some(Template::Lea)
    } else {
        None
    }
}

pub(crate) fn xchg_row(op: u8, mode: u8, b: u8) -> Option<Template>
    ensures { result ≡ classes.xchg_row op mode b }
{
    if (op == 0x86 || op == 0x87) && mode == 3 {
        Some(Template::Xchg {
            byte: is_byte(op),
            a: Slot::Rm,
            b: Slot::Reg,
        })
    } else if (0x91..=0x97).contains(&op) || op == 0x90 && b == 1 {
        Some(Template::Xchg {
            byte: false,
            a: Slot::Accumulator,
            b: Slot::Low,
        })
    } else {
        None
    }
}

pub(crate) fn nop_one(op: u8, b: u8) -> Option<Template>
    ensures { result ≡ classes.nop_one op b }
{
    if op == 0x90 && b == 0 {
        Some(Template::Nop)
    } else {
        None
    }
}

pub(crate) fn nop_two(op: u8) -> Option<Template>
    ensures { result ≡ classes.nop_two op }
{
    if op == 0x1f {
        Some(Template::Nop)
    } else {
        None
    }
}

pub(crate) fn stack_row(op: u8, reg: u8) -> Option<Template>
    ensures { result ≡ classes.stack_row op reg }
{
    match op {
        0x50..=0x57 => Some(Template::Push {
            src: Source::Slot(Slot::Low),
        }),
        0x58..=0x5f => Some(Template::Pop { dst: Slot::Low }),
        0x68 | 0x6a => Some(Template::Push {
            src: Source::Immediate,
        }),
        0xff if reg == 6 => Some(Template::Push {
            src: Source::Slot(Slot::Rm),
        }),
        0x8f => Some(Template::Pop { dst: Slot::Rm }),
        _ => None,
    }
}

pub(crate) fn unless_opsize(opsize: bool, template: Option<Template>) -> Option<Template>
    ensures { result ≡ classes.unless_opsize opsize template }
{
    if opsize { None } else { template }
}

/// The last of the eight, `cmp`, is `sub` whose result isn't stored.
fn operation(number: u8) -> AluOp
    ensures { result ≡ classes.operation number }
{
    match number {
        0 => AluOp::Add,
        1 => AluOp::Or,
        2 => AluOp::Adc,
        3 => AluOp::Sbb,
        4 => AluOp::And,
        5 => AluOp::Sub,
        6 => AluOp::Xor,
        _ => AluOp::Sub,
    }
}

fn two_operands(number: u8, op: u8) -> Template
    ensures { result ≡ classes.two_operands number op }
{
    let low = op % 8;
    let (dst, src) = if low < 2 {
        (Slot::Rm, Source::Slot(Slot::Reg))
    } else if low < 4 {
        (Slot::Reg, Source::Slot(Slot::Rm))
    } else {
        (Slot::Accumulator, Source::Immediate)
    };
    Template::Alu {
        op: operation(number),
        byte: is_byte(op),
        dst,
        src,
        keep: number != 7,
    }
}

pub(crate) fn alu_row(op: u8, reg: u8) -> Option<Template>
    ensures { result ≡ classes.alu_row op reg }
{
    if op < 0x40 && op % 8 < 6 {
        Some(two_operands(op / 8, op))
    } else if op == 0x80 || op == 0x81 || op == 0x83 {
        Some(Template::Alu {
            op: operation(reg),
            byte: is_byte(op),
            dst: Slot::Rm,
            src: Source::Immediate,
            keep: reg != 7,
        })
    } else {
        None
    }
}

pub(crate) fn test_row(op: u8, reg: u8) -> Option<Template>
    ensures { result ≡ classes.test_row op reg }
{
    let (dst, src) = match op {
        0x84 | 0x85 => (Slot::Rm, Source::Slot(Slot::Reg)),
        0xa8 | 0xa9 => (Slot::Accumulator, Source::Immediate),
        0xf6 | 0xf7 if reg == 0 => (Slot::Rm, Source::Immediate),
        _ => return None,
    };
    Some(Template::Alu {
        op: AluOp::And,
        byte: is_byte(op),
        dst,
        src,
        keep: false,
    })
}

/// An operation on one operand, whose second operand is this constant.
fn on_one(op: AluOp, byte: bool, second: u8) -> Template
    ensures { result ≡ classes.on_one op byte second }
{
    Template::Alu {
        op,
        byte,
        dst: Slot::Rm,
        src: Source::Constant(second),
        keep: true,
    }
}

pub(crate) fn unary_row(op: u8, reg: u8) -> Option<Template>
    ensures { result ≡ classes.unary_row op reg }
{
    let byte = is_byte(op);
    if (op == 0xfe || op == 0xff) && reg == 0 {
        Some(on_one(AluOp::Inc, byte, 1))
    } else if (op == 0xfe || op == 0xff) && reg == 1 {
        Some(on_one(AluOp::Dec, byte, 1))
    } else if (op == 0xf6 || op == 0xf7) && reg == 2 {
        Some(Template::Not { byte })
    } else if (op == 0xf6 || op == 0xf7) && reg == 3 {
        Some(on_one(AluOp::Neg, byte, 0))
    } else {
        None
    }
}

fn shift(reg: u8) -> Option<AluOp>
    ensures { result ≡ classes.shift reg }
{
    match reg {
        4 => Some(AluOp::Shl),
        5 => Some(AluOp::Shr),
        7 => Some(AluOp::Sar),
        _ => None,
    }
}

fn shifted_by(count: Source, byte: bool, op: Option<AluOp>) -> Option<Template>
    ensures { result ≡ classes.shifted_by count byte op }
{
    match op {
        Some(op) => Some(Template::Alu {
            op,
            byte,
            dst: Slot::Rm,
            src: count,
            keep: true,
        }),
        None => None,
    }
}

pub(crate) fn shift_row(op: u8, reg: u8) -> Option<Template>
    ensures { result ≡ classes.shift_row op reg }
{
    if op == 0xc0 || op == 0xc1 {
        shifted_by(Source::Immediate, is_byte(op), shift(reg))
    } else if op == 0xd0 || op == 0xd1 {
        shifted_by(Source::Constant(1), is_byte(op), shift(reg))
    } else if op == 0xd2 || op == 0xd3 {
        shifted_by(Source::Cl, is_byte(op), shift(reg))
    } else {
        None
    }
}

pub(crate) fn condition_row(op: u8) -> Option<Template>
    ensures { result ≡ classes.condition_row op }
{
    match op {
        0x40..=0x4f => Some(Template::Cmov { cc: op % 16 }),
        0x90..=0x9f => Some(Template::Set { cc: op % 16 }),
        _ => None,
    }
}

pub(crate) fn widen_row(op: u8) -> Option<Template>
    ensures { result ≡ classes.widen_row op }
{
    match op {
        0x98 => Some(Template::Widen { high: false }),
        0x99 => Some(Template::Widen { high: true }),
        _ => None,
    }
}

pub(crate) fn leave_row(op: u8) -> Option<Template>
    ensures { result ≡ classes.leave_row op }
{
    if op == 0xc9 {
        Some(Template::Leave)
    } else {
        None
    }
}

pub(crate) fn flag_row(op: u8) -> Option<Template>
    ensures { result ≡ classes.flag_row op }
{
    match op {
        0xf5 => Some(Template::Cmc),
        0xf8 => Some(Template::Clc),
        0xf9 => Some(Template::Stc),
        0x9e => Some(Template::Sahf),
        0x9f => Some(Template::Lahf),
        _ => None,
    }
}
