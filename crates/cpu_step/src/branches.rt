//! Branches (Intel SDM, volume 2: CALL, Jcc, JMP, LOOP/LOOPcc, RET).
ghost use Rattle.std.specs.Prelude.{◌≡◌, ℕ, ◌≤◌, IfSome};
ghost use Rattle.cpu_state.specs.Parts.{core_of};
ghost use Rattle.cpu_step.specs.Changing.{left_by, put_into};
ghost use Rattle.insn_form.specs.Branches as branches;
ghost use Rattle.insn_form.specs.Resolving.{absolute, resolved_target};

use crate::going::{Changes, Put, to_next, to_target};
use crate::operands::{RCX, RSP, reg, spot_number, spot_span, word};
use crate::stack::lowered;
use cpu_alu::{Flags, Width};
use cpu_state::state::State;
use insn_form::{Span, Target};

pub(crate) fn target_span(state: &State, next: u64, target: Target) -> Option<Span>
    ensures value { result ≡ branches.target_span (core_of state.now) (resolved_target next target) }
    ensures small { IfSome result (λ s. s.size ≤ 8) }
{
    match target {
        Target::Rel(_) => None,
        Target::Through(spot) => spot_span(state, next, Width::W64, spot),
    }
}

fn target_address(state: &State, next: u64, target: Target, read: u64) -> u64
    ensures { result ≡ branches.target_address (core_of state.now) read (resolved_target next target) }
{
    match target {
        Target::Rel(rel) => next.wrapping_add(word(rel)),
        Target::Through(spot) => spot_number(state, Width::W64, read, spot),
    }
}

/// To a target if a condition holds, else to the next instruction, with one change at most.
pub(crate) fn jcc(state: &State, put: Option<Put>, taken: bool, rel: i32, next: u64) -> Changes
    ensures { left_by result (core_of state.now)
        ≡ (branches.jcc taken (absolute next rel) (put_into put (core_of state.now))).out 0 }
{
    if taken {
        to_target(next.wrapping_add(word(rel)), put, 0)
    } else {
        to_next(put, 0)
    }
}

fn goes_round(kind: u8, count: u64, flags: Flags) -> bool
    ensures { result ≡ branches.goes_round kind count flags }
{
    count != 0
        && match kind {
            0 => !flags.zf,
            1 => flags.zf,
            _ => true,
        }
}

fn is_empty(short: bool, count: u64) -> bool
    ensures { result ≡ branches.is_empty short count }
{
    if short {
        count % (1 << 32) == 0
    } else {
        count == 0
    }
}

pub(crate) fn loopcc(state: &State, kind: u8, rel: i32, short: bool, next: u64) -> Changes
    ensures { (v : ℕ) → left_by result (core_of state.now)
        ≡ (branches.loopcc kind (absolute next rel) short (core_of state.now)).out v }
{
    if kind == 3 {
        return jcc(state, None, is_empty(short, reg(state, RCX)), rel, next);
    }
    let count = reg(state, RCX).wrapping_sub(1);
    let taken = goes_round(kind, count, state.flags);
    let put = Put {
        code: RCX,
        value: count,
    };
    jcc(state, Some(put), taken, rel, next)
}

pub(crate) fn jmp(state: &State, target: Target, next: u64, read: u64) -> Changes
    ensures { left_by result (core_of state.now)
        ≡ (branches.jmp (resolved_target next target) (core_of state.now)).out read }
{
    to_target(target_address(state, next, target, read), None, 0)
}

pub(crate) fn call(state: &State, target: Target, next: u64, read: u64) -> Changes
    ensures { left_by result (core_of state.now)
        ≡ (branches.call (resolved_target next target) next (core_of state.now)).out read }
{
    let target = target_address(state, next, target, read);
    to_target(target, Some(lowered(state)), next)
}

pub(crate) fn ret(state: &State, extra: u16, read: u64) -> Changes
    ensures { left_by result (core_of state.now)
        ≡ (branches.ret extra (core_of state.now)).out read }
{
    let above = Put {
        code: RSP,
        value: reg(state, RSP).wrapping_add(8 + u64::from(extra)),
    };
    to_target(read, Some(above), 0)
}
