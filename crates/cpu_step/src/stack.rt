//! The stack of 64-bit entries (Intel SDM, volume 2: PUSH, POP, LEAVE).
ghost use Rattle.std.specs.Prelude.{◌≡◌, ℕ, Some};
ghost use Rattle.cpu_state.specs.Parts.{core_of};
ghost use Rattle.cpu_step.specs.Changing.{left_by, put_into};
ghost use Rattle.insn_form.specs.Stack as stack;
ghost use Rattle.insn_form.specs.Resolving.{resolved_spot, resolved_value};

use crate::going::{Changes, Put, to_next, twice_to_next};
use crate::operands::{RBP, RSP, put_spot, reg, reg_after, value_number};
use cpu_alu::Width;
use cpu_state::state::State;
use insn_form::{Span, Spot, Value};

/// rsp one entry lower.
pub(crate) fn lowered(state: &State) -> Put
    ensures { put_into (Some result) (core_of state.now) ≡ stack.lowered (core_of state.now) }
{
    Put {
        code: RSP,
        value: reg(state, RSP).wrapping_sub(8),
    }
}

/// rsp one entry higher.
pub(crate) fn raised(state: &State) -> Put
    ensures { put_into (Some result) (core_of state.now) ≡ stack.raised (core_of state.now) }
{
    Put {
        code: RSP,
        value: reg(state, RSP).wrapping_add(8),
    }
}

pub(crate) fn entry_at(addr: u64) -> Span
    ensures { result ≡ stack.entry_at addr }
{
    Span { addr, size: 8 }
}

/// The entry at rsp.
pub(crate) fn top(state: &State) -> Span
    ensures { result ≡ stack.top (core_of state.now) }
{
    entry_at(reg(state, RSP))
}

/// The entry at rsp once that is one entry lower.
pub(crate) fn top_below(state: &State) -> Span
    ensures { result ≡ stack.top (stack.lowered (core_of state.now)) }
{
    entry_at(reg_after(state, Some(lowered(state)), RSP))
}

pub(crate) fn push(state: &State, src: Value, read: u64) -> Changes
    ensures { (next : ℕ) → left_by result (core_of state.now)
        ≡ (stack.push (resolved_value next src) (core_of state.now)).out read }
{
    to_next(
        Some(lowered(state)),
        value_number(state, Width::W64, read, src),
    )
}

pub(crate) fn pop(state: &State, dst: Spot, read: u64) -> Changes
    ensures { (next : ℕ) → left_by result (core_of state.now)
        ≡ (stack.pop (resolved_spot next dst) (core_of state.now)).out read }
{
    let above = Some(raised(state));
    twice_to_next(above, put_spot(state, above, Width::W64, dst, read), read)
}

pub(crate) fn leave_frame(state: &State, read: u64) -> Changes
    ensures { left_by result (core_of state.now)
        ≡ (stack.leave_frame (core_of state.now)).out read }
{
    let above = Put {
        code: RSP,
        value: reg(state, RBP).wrapping_add(8),
    };
    let frame = Put {
        code: RBP,
        value: read,
    };
    twice_to_next(Some(above), Some(frame), 0)
}
