//! Registers, addresses and operands (Intel SDM, volume 1, sections 3.4.1, 3.7.5 and 3.7.5.1).
//!
//! `next` is the address of the next instruction, from which RIP operands count, and `read` is what was read from memory.
ghost use Rattle.std.specs.Prelude.{◌≡◌, ℕ, ◌<◌, ◌≤◌, ◌^◌, slice_set, Option, IfSome};
ghost use Rattle.cpu_alu.specs.Widths.{bits};
ghost use Rattle.insn_form.specs.Operands as operands;
ghost use Rattle.cpu_state.specs.Parts.{core_of};
ghost use Rattle.cpu_step.specs.declared.going.Put.{Put};
ghost use Rattle.cpu_step.specs.Changing.{put_into, put_regs};
ghost use Rattle.cpu_alu.specs.declared.operation.Width.TheVariants.{W8};
ghost use Rattle.insn_form.specs.declared.form.Spot.TheVariants.{Reg, High};
ghost use Rattle.insn_form.specs.Resolving.{resolved_mem, resolved_spot, resolved_value};

use crate::going::Put;
use cpu_alu::Width;
use cpu_state::state::{Core, State};
use insn_form::{MemForm, Seg, Span, Spot, Value};

/// The codes of registers.
pub(crate) const RAX: u8 = 0;

pub(crate) const RCX: u8 = 1;

pub(crate) const RDX: u8 = 2;

pub(crate) const RSP: u8 = 4;

pub(crate) const RBP: u8 = 5;

pub(crate) fn word(number: i32) -> u64
    ensures { result ≡ operands.word_of number }
{
    i64::from(number).cast_unsigned()
}

fn size_of(width: Width) -> u8
    ensures value { result ≡ operands.size_of width }
    ensures small { result ≤ 8 }
{
    match width {
        Width::W8 => 1,
        Width::W16 => 2,
        Width::W32 => 4,
        Width::W64 => 8,
    }
}

pub(crate) fn reg(state: &State, code: u8) -> u64
    ensures { result ≡ operands.reg (core_of state.now) code }
{
    state.regs.get(usize::from(code)).copied().unwrap_or(0)
}

#[tactic(auto, using(std::proofs::lemmas::List::set_past))]
fn set_reg(regs: &mut [u64], code: u8, value: u64)
    ensures { regs.new ≡ slice_set regs.old code value }
{
    let place = usize::from(code);
    if place < regs.len() {
        regs[place] = value;
    }
}

/// Registers, flags and bases with a number in a register.
pub(crate) fn with_reg(core: &Core, code: u8, value: u64) -> Core
    ensures { result ≡ operands.with_reg core.now code value }
{
    let mut core = *core;
    set_reg(&mut core.regs, code, value);
    core
}

/// The registers after one change at most.
pub(crate) fn put_reg(regs: &mut [u64], put: Option<Put>)
    ensures { regs.new ≡ put_regs put regs.old }
{
    if let Some(put) = put {
        set_reg(regs, put.code, put.value);
    }
}

/// A register of registers that are changed.
#[inline(never)]
fn changed_reg(state: &State, put: Option<Put>, code: u8) -> u64
    ensures { result ≡ operands.reg (put_into put (core_of state.now)) code }
{
    let mut core = state.core();
    put_reg(&mut core.regs, put);
    core.regs.get(usize::from(code)).copied().unwrap_or(0)
}

/// A register after one change at most.
pub(crate) fn reg_after(state: &State, put: Option<Put>, code: u8) -> u64
    ensures { result ≡ operands.reg (put_into put (core_of state.now)) code }
{
    match put {
        None => reg(state, code),
        Some(_) => changed_reg(state, put, code),
    }
}

fn reg_or_zero(state: &State, put: Option<Put>, code: Option<u8>) -> u64
    ensures { result ≡ operands.reg_or_zero (put_into put (core_of state.now)) code }
{
    match code {
        Some(code) => reg_after(state, put, code),
        None => 0,
    }
}

fn segment_base(state: &State, seg: Seg) -> u64
    ensures { (put : Option Put)
        → result ≡ operands.segment_base (put_into put (core_of state.now)) seg }
{
    match seg {
        Seg::Plain => 0,
        Seg::Fs => state.fs,
        Seg::Gs => state.gs,
    }
}

/// The displacement, counted from 0.
fn displacement(next: u64, form: MemForm) -> u64
    ensures { result ≡ operands.word_of (resolved_mem next form).disp }
{
    if form.rip {
        next.wrapping_add(word(form.disp))
    } else {
        word(form.disp)
    }
}

/// The address without a segment's base, after one change at most.
pub(crate) fn offset(state: &State, put: Option<Put>, next: u64, form: MemForm) -> u64
    ensures { result ≡ operands.offset (put_into put (core_of state.now))
        (resolved_mem next form) }
{
    let index = reg_or_zero(state, put, form.index).wrapping_mul(u64::from(form.scale));
    let sum = reg_or_zero(state, put, form.base)
        .wrapping_add(index)
        .wrapping_add(displacement(next, form));
    if form.short { sum % (1 << 32) } else { sum }
}

fn place(state: &State, put: Option<Put>, next: u64, form: MemForm) -> u64
    ensures { result ≡ operands.place (put_into put (core_of state.now))
        (resolved_mem next form) }
{
    offset(state, put, next, form).wrapping_add(segment_base(state, form.seg))
}

/// The bytes in memory of an operand, after one change at most.
#[inline(always)]
pub(crate) fn span_after(
    state: &State,
    put: Option<Put>,
    next: u64,
    width: Width,
    spot: Spot,
) -> Option<Span>
    ensures value { result ≡ operands.spot_span (put_into put (core_of state.now)) width
        (resolved_spot next spot) }
    ensures small { IfSome result (λ s. s.size ≤ 8) }
{
    match spot {
        Spot::Reg(_) | Spot::High(_) => None,
        Spot::Mem(form) => Some(Span {
            addr: place(state, put, next, form),
            size: size_of(width),
        }),
    }
}

pub(crate) fn spot_span(state: &State, next: u64, width: Width, spot: Spot) -> Option<Span>
    ensures value { result ≡ operands.spot_span (core_of state.now) width
        (resolved_spot next spot) }
    ensures small { IfSome result (λ s. s.size ≤ 8) }
{
    span_after(state, None, next, width, spot)
}

pub(crate) fn value_span(state: &State, next: u64, width: Width, value: Value) -> Option<Span>
    ensures value { result ≡ operands.value_span (core_of state.now) width (resolved_value next value) }
    ensures small { IfSome result (λ s. s.size ≤ 8) }
{
    match value {
        Value::Spot(spot) => spot_span(state, next, width, spot),
        Value::Imm(_) | Value::Cl => None,
    }
}

/// Bits 8 to 15 of a register.
pub(crate) fn high_byte(state: &State, code: u8) -> u64
    ensures value { result ≡ operands.spot_number (core_of state.now) W8 0 (High code) }
    ensures bound { result < 2 ^ 8 }
{
    (reg(state, code) >> 8) % (1 << 8)
}

pub(crate) fn spot_number(state: &State, width: Width, read: u64, spot: Spot) -> u64
    ensures value { (next : ℕ) → result ≡ operands.spot_number (core_of state.now) width read
        (resolved_spot next spot) }
    ensures bound { result < 2 ^ bits width }
{
    match spot {
        Spot::Reg(code) => width.cut(reg(state, code)),
        Spot::High(code) => high_byte(state, code),
        Spot::Mem(_) => width.cut(read),
    }
}

pub(crate) fn value_number(state: &State, width: Width, read: u64, value: Value) -> u64
    ensures { (next : ℕ) → result ≡ operands.value_number (core_of state.now) width read
        (resolved_value next value) }
{
    match value {
        Value::Spot(spot) => spot_number(state, width, read, spot),
        Value::Imm(number) => width.cut(number),
        Value::Cl => Width::W8.cut(reg(state, RCX)),
    }
}

/// A register after a result of the width.
fn merged(width: Width, old: u64, value: u64) -> u64
    ensures { result ≡ operands.merged width old value }
{
    match width {
        Width::W8 => old - old % (1 << 8) + width.cut(value),
        Width::W16 => old - old % (1 << 16) + width.cut(value),
        Width::W32 | Width::W64 => width.cut(value),
    }
}

/// A register after a result in its bits 8 to 15.
fn merged_high(old: u64, value: u64) -> u64
    ensures { result ≡ operands.merged_high old value }
{
    old - old % (1 << 16) + Width::W8.cut(value) * (1 << 8) + old % (1 << 8)
}

/// What a result of the width in the low bits of a register changes, after one change at most.
pub(crate) fn put_low(
    state: &State,
    before: Option<Put>,
    width: Width,
    code: u8,
    value: u64,
) -> Option<Put>
    ensures { put_into result (put_into before (core_of state.now))
        ≡ operands.with_spot (put_into before (core_of state.now)) width (Reg code) value }
{
    let value = merged(width, reg_after(state, before, code), value);
    Some(Put { code, value })
}

/// What a result in bits 8 to 15 of a register changes, after one change at most.
pub(crate) fn put_high(state: &State, before: Option<Put>, code: u8, value: u64) -> Option<Put>
    ensures { put_into result (put_into before (core_of state.now))
        ≡ operands.with_spot (put_into before (core_of state.now)) W8 (High code) value }
{
    let value = merged_high(reg_after(state, before, code), value);
    Some(Put { code, value })
}

/// What a result of the width changes, after one change at most.
#[inline(always)]
pub(crate) fn put_spot(
    state: &State,
    before: Option<Put>,
    width: Width,
    spot: Spot,
    value: u64,
) -> Option<Put>
    ensures { (next : ℕ) → put_into result (put_into before (core_of state.now))
        ≡ operands.with_spot (put_into before (core_of state.now)) width
        (resolved_spot next spot) value }
{
    match spot {
        Spot::Reg(code) => put_low(state, before, width, code, value),
        Spot::High(code) => put_high(state, before, code, value),
        Spot::Mem(_) => None,
    }
}
