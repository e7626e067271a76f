//! Arithmetic (Intel SDM, volume 2: ADC, ADD, AND, CMP, DEC, INC, NEG, NOT, OR, SAL/SAR/SHL/SHR, SBB, SUB, TEST, XOR).
ghost use Rattle.std.specs.Prelude.{◌≡◌, ℕ, ◌-◌, ◌^◌, ◌<◌, if◌then◌else◌};
ghost use Rattle.cpu_alu.specs.Widths.{bits};
ghost use Rattle.cpu_state.specs.Parts.{core_of};
ghost use Rattle.cpu_step.specs.Changing.{left_by, put_into};
ghost use Rattle.insn_form.specs.Computing as computing;
ghost use Rattle.insn_form.specs.Operands as operands;
ghost use Rattle.insn_form.specs.Resolving.{resolved_spot, resolved_value};

use crate::going::{Changes, Put, to_next};
use crate::operands::{put_spot, spot_number, value_number};
use cpu_alu::{AluOp, AluOut, Width, alu};
use cpu_state::state::State;
use insn_form::{Spot, Value};

/// What a result changes if it is kept.
fn stored(state: &State, width: Width, dst: Spot, value: u64, keep: bool) -> Option<Put>
    ensures { (next : ℕ) → put_into result (core_of state.now)
        ≡ (if keep then operands.with_spot (core_of state.now) width (resolved_spot next dst) value
        else core_of state.now) }
{
    if keep {
        put_spot(state, None, width, dst, value)
    } else {
        None
    }
}

/// The result is stored if it is kept; the flags are set.
fn computed(state: &State, out: AluOut, width: Width, dst: Spot, keep: bool) -> Changes
    ensures { (next : ℕ) → left_by result (core_of state.now)
        ≡ computing.computed out width
        (resolved_spot next dst) keep (core_of state.now) }
{
    Changes {
        first: stored(state, width, dst, out.value, keep),
        second: None,
        flags: Some(out.flags),
        target: None,
        value: out.value,
        undefined: out.undefined,
    }
}

pub(crate) fn computing(
    state: &State,
    op: AluOp,
    width: Width,
    dst: Spot,
    src: Value,
    keep: bool,
    read: u64,
) -> Changes
    ensures { (next : ℕ) → left_by result (core_of state.now)
        ≡ (computing.computing op width (resolved_spot next dst)
        (resolved_value next src) keep (core_of state.now)).out read }
{
    let first = spot_number(state, width, read, dst);
    let second = value_number(state, width, read, src);
    computed(
        state,
        alu(op, width, first, second, state.flags),
        width,
        dst,
        keep,
    )
}

/// Each bit of a number of the width, turned.
fn complement(width: Width, value: u64) -> u64
    requires { value < 2 ^ bits width }
    ensures { result ≡ 2 ^ bits width - 1 - value }
{
    match width {
        Width::W8 => 0xff - value,
        Width::W16 => 0xffff - value,
        Width::W32 => 0xffff_ffff - value,
        Width::W64 => u64::MAX - value,
    }
}

pub(crate) fn invert(state: &State, width: Width, dst: Spot, read: u64) -> Changes
    ensures { (next : ℕ) → left_by result (core_of state.now)
        ≡ (computing.invert width (resolved_spot next dst) (core_of state.now)).out
        read }
{
    let value = complement(width, spot_number(state, width, read, dst));
    to_next(put_spot(state, None, width, dst, value), value)
}
