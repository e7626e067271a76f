//! Which instruction kills which place, by its form.
ghost use Rattle.std.specs.Prelude.{◌≡◌};
ghost use Rattle.killing.specs.Table as table;
ghost use Rattle.killing.specs.Laws.{KillsIf};
ghost use Rattle.killing.specs.declared.place.Place.TheVariants.{Register};

use crate::place::Place;
use cpu_alu::{AluOp, Width};
use insn_form::{Insn, MemForm, Op, Spot, Value};

/// The codes of rcx, rdx and rsp.
const RCX: u8 = 1;

const RDX: u8 = 2;

const RSP: u8 = 4;

fn shifts(width: Width, src: &Value) -> bool
    ensures { result ≡ table.shifts width src.now }
{
    match src {
        Value::Imm(n) => match width {
            Width::W64 => *n % 64 != 0,
            Width::W8 | Width::W16 | Width::W32 => *n % 32 != 0,
        },
        Value::Spot(_) | Value::Cl => false,
    }
}

fn sets_five(op: AluOp, width: Width, src: &Value) -> bool
    ensures { result ≡ table.sets_five op width src.now }
{
    match op {
        AluOp::Shl | AluOp::Shr | AluOp::Sar => shifts(width, src),
        _ => true,
    }
}

fn takes_carry(op: AluOp) -> bool
    ensures { result ≡ table.takes_carry op }
{
    matches!(op, AluOp::Adc | AluOp::Sbb | AluOp::Inc | AluOp::Dec)
}

fn names(reg: u8, part: Option<u8>) -> bool
    ensures { result ≡ table.names reg part }
{
    match part {
        None => false,
        Some(named) => named == reg,
    }
}

fn mem_reads(reg: u8, mem: &MemForm) -> bool
    ensures { result ≡ table.mem_reads reg mem.now }
{
    names(reg, mem.base) || names(reg, mem.index)
}

fn spot_reads(reg: u8, spot: &Spot) -> bool
    ensures { result ≡ table.spot_reads reg spot.now }
{
    match spot {
        Spot::Reg(code) | Spot::High(code) => *code == reg,
        Spot::Mem(mem) => mem_reads(reg, mem),
    }
}

fn value_reads(reg: u8, value: &Value) -> bool
    ensures { result ≡ table.value_reads reg value.now }
{
    match value {
        Value::Spot(spot) => spot_reads(reg, spot),
        Value::Imm(_) => false,
        Value::Cl => RCX == reg,
    }
}

fn is_wide(width: Width) -> bool
    ensures { result ≡ table.is_wide width }
{
    matches!(width, Width::W32 | Width::W64)
}

fn fills(reg: u8, width: Width, dst: u8) -> bool
    ensures { result ≡ table.fills reg width dst }
{
    dst == reg && is_wide(width)
}

fn forgets(op: AluOp) -> bool
    ensures { result ≡ table.forgets op }
{
    matches!(op, AluOp::Sbb | AluOp::Sub | AluOp::Xor)
}

fn kills_register(reg: u8, op: &Op) -> bool
    ensures { result ≡ table.kills_by (Register reg) op.now }
{
    match op {
        Op::Mov {
            width,
            dst: Spot::Reg(dst),
            src,
        } => fills(reg, *width, *dst) && !value_reads(reg, src),
        Op::Extend {
            width,
            dst,
            src,
            ..
        } => fills(reg, *width, *dst) && !spot_reads(reg, src),
        Op::Lea { width, dst, mem } => fills(reg, *width, *dst) && !mem_reads(reg, mem),
        Op::Alu {
            op,
            width,
            dst: Spot::Reg(dst),
            src: Value::Spot(Spot::Reg(src)),
            keep: true,
        } => fills(reg, *width, *dst) && *src == reg && forgets(*op),
        Op::Pop {
            dst: Spot::Reg(dst),
        } => *dst == reg && RSP != reg,
        Op::Widen { width, high: true } => fills(reg, *width, RDX),
        _ => false,
    }
}

fn kills_by(place: Place, op: &Op) -> bool
    ensures { result ≡ table.kills_by place op.now }
{
    match (place, op) {
        (Place::FiveFlags, Op::Alu { op, width, src, .. }) => sets_five(*op, *width, src),
        (Place::SixFlags, Op::Alu { op, width, src, .. }) => sets_five(*op, *width, src)
            && !takes_carry(*op),
        (Place::Register(reg), _) => kills_register(reg, op),
        (Place::FiveFlags | Place::SixFlags, _) => false,
    }
}

fn is_listed(insn: &Insn, place: Place) -> bool
    ensures { result ≡ table.kills place insn.now }
{
    match insn {
        Insn::Exact(op) => kills_by(place, op),
        Insn::Ending | Insn::Asked(_) => false,
    }
}

/// Whether the table lists a place for an instruction; then the instruction kills it.
pub fn kills(insn: &Insn, place: Place) -> bool
    ensures exact { result ≡ table.kills place insn.now }
    ensures sound { KillsIf result place insn.now }
{
    is_listed(insn, place)
}

fn destination(op: &Op) -> Option<u8>
    ensures { result ≡ table.destination op.now }
{
    match op {
        Op::Mov {
            dst: Spot::Reg(dst),
            ..
        }
        | Op::Extend { dst, .. }
        | Op::Lea { dst, .. }
        | Op::Alu {
            dst: Spot::Reg(dst),
            keep: true,
            ..
        }
        | Op::Pop {
            dst: Spot::Reg(dst),
        } => Some(*dst),
        Op::Widen { high: true, .. } => Some(RDX),
        _ => None,
    }
}

fn filled_register(insn: &Insn) -> Option<u8>
    ensures { result ≡ table.filled_register insn.now }
{
    match insn {
        Insn::Exact(op) => destination(op),
        Insn::Asked(_) | Insn::Ending => None,
    }
}

fn is_scratch(reg: u8) -> bool
    ensures { result ≡ table.is_scratch reg }
{
    reg < 3 || (reg > 5 && reg < 12)
}

fn usable_register(killed: bool, reg: u8) -> Option<Place>
    ensures { result ≡ table.usable_register killed reg }
{
    if killed && is_scratch(reg) {
        Some(Place::Register(reg))
    } else {
        None
    }
}

fn register_of(insn: &Insn, reg: Option<u8>) -> Option<Place>
    ensures { result ≡ table.register_of insn.now reg }
{
    match reg {
        None => None,
        Some(code) => usable_register(is_listed(insn, Place::Register(code)), code),
    }
}

fn first_place(six: bool, five: bool, register: Option<Place>) -> Option<Place>
    ensures { result ≡ table.first_place six five register }
{
    if six {
        Some(Place::SixFlags)
    } else if five {
        Some(Place::FiveFlags)
    } else {
        register
    }
}

/// What an event in front of an instruction may use: six flags before five, and these before a register that a function may change.
pub fn killed(insn: &Insn) -> Option<Place>
    ensures { result ≡ table.killed insn.now }
{
    first_place(
        is_listed(insn, Place::SixFlags),
        is_listed(insn, Place::FiveFlags),
        register_of(insn, filled_register(insn)),
    )
}

fn in_register(spot: &Spot) -> bool
    ensures { result ≡ table.in_register spot.now }
{
    !matches!(spot, Spot::Mem(_))
}

fn without_memory(value: &Value) -> bool
    ensures { result ≡ table.without_memory value.now }
{
    match value {
        Value::Spot(spot) => in_register(spot),
        Value::Imm(_) | Value::Cl => true,
    }
}

/// Whether an instruction is of a form that kills and has no operand in memory, so that it can't fault.
pub fn cannot_fault(insn: &Insn) -> bool
    ensures { result ≡ table.cannot_fault insn.now }
{
    match insn {
        Insn::Exact(Op::Alu { dst, src, .. } | Op::Mov { dst, src, .. }) => in_register(dst)
            && without_memory(src),
        Insn::Exact(Op::Extend { src, .. }) => in_register(src),
        Insn::Exact(Op::Lea { .. } | Op::Widen { .. }) => true,
        Insn::Exact(_) | Insn::Asked(_) | Insn::Ending => false,
    }
}
