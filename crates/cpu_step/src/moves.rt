//! Moves (Intel SDM, volume 2: MOV, MOVZX, MOVSX/MOVSXD, LEA, XCHG, CMOVcc, SETcc, CBW/CWDE/CDQE, CWD/CDQ/CQO).
ghost use Rattle.std.specs.Prelude.{◌≡◌, ℕ, ◌<◌, ◌^◌};
ghost use Rattle.cpu_alu.specs.Widths.{bits};
ghost use Rattle.cpu_state.specs.Parts.{core_of};
ghost use Rattle.cpu_step.specs.Changing.{left_by};
ghost use Rattle.insn_form.specs.Moves as moves;
ghost use Rattle.insn_form.specs.Resolving.{resolved_mem, resolved_spot, resolved_value};

use crate::conditions::is_met;
use crate::going::{Changes, to_next, twice_to_next};
use crate::operands::{RAX, RDX, offset, put_low, put_spot, reg, spot_number, value_number};
use cpu_alu::Width;
use cpu_state::state::State;
use insn_form::{MemForm, Spot, Value};

pub(crate) fn mov(state: &State, width: Width, dst: Spot, src: Value, read: u64) -> Changes
    ensures { (next : ℕ) → left_by result (core_of state.now)
        ≡ (moves.mov width (resolved_spot next dst)
        (resolved_value next src) (core_of state.now)).out read }
{
    let value = value_number(state, width, read, src);
    to_next(put_spot(state, None, width, dst, value), value)
}

/// The number of one width in another one, its sign or zeros above it.
fn extended(is_signed: bool, from: Width, width: Width, value: u64) -> u64
    requires { value < 2 ^ bits from }
    ensures { result ≡ moves.extended is_signed from width value }
{
    if is_signed {
        width.cut(from.signed(value).cast_unsigned())
    } else {
        value
    }
}

pub(crate) fn movx(
    state: &State,
    is_signed: bool,
    from: Width,
    width: Width,
    dst: u8,
    src: Spot,
    read: u64,
) -> Changes
    ensures { (next : ℕ) → left_by result (core_of state.now)
        ≡ (moves.movx is_signed from width dst
        (resolved_spot next src) (core_of state.now)).out read }
{
    let value = extended(is_signed, from, width, spot_number(state, from, read, src));
    to_next(put_low(state, None, width, dst, value), 0)
}

pub(crate) fn lea(state: &State, width: Width, dst: u8, mem: MemForm, next: u64) -> Changes
    ensures { left_by result (core_of state.now)
        ≡ (moves.lea width dst (resolved_mem next mem) (core_of state.now)).out 0 }
{
    let address = offset(state, None, next, mem);
    to_next(put_low(state, None, width, dst, address), 0)
}

pub(crate) fn xchg(state: &State, width: Width, a: Spot, b: Spot) -> Changes
    ensures { (next : ℕ) → left_by result (core_of state.now)
        ≡ (moves.xchg width (resolved_spot next a)
        (resolved_spot next b) (core_of state.now)).out 0 }
{
    let first = spot_number(state, width, 0, a);
    let second = spot_number(state, width, 0, b);
    let put = put_spot(state, None, width, a, second);
    twice_to_next(put, put_spot(state, put, width, b, first), 0)
}

pub(crate) fn cmov(state: &State, code: u8, width: Width, dst: u8, src: Spot, read: u64) -> Changes
    ensures { (next : ℕ) → left_by result (core_of state.now) ≡ (moves.cmov code width dst
        (resolved_spot next src) (core_of state.now)).out read }
{
    let value = if is_met(code, &state.flags) {
        spot_number(state, width, read, src)
    } else {
        width.cut(reg(state, dst))
    };
    to_next(put_low(state, None, width, dst, value), 0)
}

pub(crate) fn setcc(state: &State, code: u8, dst: Spot) -> Changes
    ensures { (next : ℕ) → left_by result (core_of state.now)
        ≡ (moves.setcc code (resolved_spot next dst) (core_of state.now)).out 0 }
{
    let value = u64::from(is_met(code, &state.flags));
    to_next(put_spot(state, None, Width::W8, dst, value), value)
}

fn half(width: Width) -> Width
    ensures { result ≡ moves.half width }
{
    match width {
        Width::W8 | Width::W16 => Width::W8,
        Width::W32 => Width::W16,
        Width::W64 => Width::W32,
    }
}

/// The lower half at the width, with its sign.
fn widened(width: Width, value: u64) -> u64
    ensures { result ≡ moves.widened width value }
{
    let half = half(width);
    extended(true, half, width, half.cut(value))
}

/// The sign at the width, in each bit.
fn sign_filled(width: Width, value: u64) -> u64
    ensures { result ≡ moves.sign_filled width value }
{
    if width.cut(value) >> (width.bits() - 1) == 1 {
        width.cut(u64::MAX)
    } else {
        0
    }
}

pub(crate) fn widen(state: &State, width: Width, high: bool) -> Changes
    ensures { (v : ℕ) → left_by result (core_of state.now)
        ≡ (moves.widen width high (core_of state.now)).out v }
{
    let number = reg(state, RAX);
    if high {
        to_next(
            put_low(state, None, width, RDX, sign_filled(width, number)),
            0,
        )
    } else {
        to_next(put_low(state, None, width, RAX, widened(width, number)), 0)
    }
}
