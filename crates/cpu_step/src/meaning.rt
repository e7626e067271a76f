//! What each operation reads and writes, and what it leaves.
ghost use Rattle.std.specs.Prelude.{◌≡◌, ◌≤◌, IfSome};
ghost use Rattle.cpu_state.specs.Parts.{core_of};
ghost use Rattle.cpu_step.specs.Changing.{left_by};
ghost use Rattle.insn_form.specs.Meaning.{effect};
ghost use Rattle.insn_form.specs.Resolving.{resolved};

use crate::branches::{call, jcc, jmp, loopcc, ret, target_span};
use crate::computing::{computing, invert};
use crate::conditions::is_met;
use crate::flag_moves::{flags_from_ah, flags_into_ah, set_carry};
use crate::going::{Changes, to_next};
use crate::moves::{cmov, lea, mov, movx, setcc, widen, xchg};
use crate::operands::{RBP, reg, span_after, spot_span, value_span};
use crate::stack::{entry_at, leave_frame, pop, push, raised, top, top_below};
use cpu_alu::Width;
use cpu_state::state::State;
use insn_form::{Op, Span};

/// The bytes in memory that the operation reads, in front of the instruction at `next`.
#[tactic(auto, unfolding(insn_form::specs::Meaning::effect))]
pub(crate) fn read_span(op: Op, next: u64, state: &State) -> Option<Span>
    ensures value { result ≡ (effect (resolved next op) next (core_of state.now)).read }
    ensures small { IfSome result (λ s. s.size ≤ 8) }
{
    match op {
        Op::Mov { width, src, .. } => value_span(state, next, width, src),
        Op::Extend { from, src, .. } => spot_span(state, next, from, src),
        Op::Push { src } => value_span(state, next, Width::W64, src),
        Op::Pop { .. } | Op::Ret { .. } => Some(top(state)),
        Op::Leave => Some(entry_at(reg(state, RBP))),
        Op::Alu {
            width,
            dst,
            src,
            ..
        } => match spot_span(state, next, width, dst) {
            Some(span) => Some(span),
            None => value_span(state, next, width, src),
        },
        Op::Not { width, dst } => spot_span(state, next, width, dst),
        Op::Cmov { width, src, .. } => spot_span(state, next, width, src),
        Op::Jmp { target } | Op::Call { target } => target_span(state, next, target),
        Op::Lea { .. }
        | Op::Xchg { .. }
        | Op::Nop { .. }
        | Op::Set { .. }
        | Op::Widen { .. }
        | Op::Cmc
        | Op::Clc
        | Op::Stc
        | Op::Sahf
        | Op::Lahf
        | Op::Jcc { .. }
        | Op::Loop { .. } => None,
    }
}

/// The bytes in memory that it writes.
#[tactic(auto, unfolding(insn_form::specs::Meaning::effect))]
pub(crate) fn write_span(op: Op, next: u64, state: &State) -> Option<Span>
    ensures value { result ≡ (effect (resolved next op) next (core_of state.now)).write }
    ensures small { IfSome result (λ s. s.size ≤ 8) }
{
    match op {
        Op::Mov { width, dst, .. } => spot_span(state, next, width, dst),
        Op::Push { .. } | Op::Call { .. } => Some(top_below(state)),
        Op::Pop { dst } => span_after(state, Some(raised(state)), next, Width::W64, dst),
        Op::Alu {
            width,
            dst,
            keep,
            ..
        } => {
            if keep {
                spot_span(state, next, width, dst)
            } else {
                None
            }
        }
        Op::Not { width, dst } => spot_span(state, next, width, dst),
        Op::Set { dst, .. } => spot_span(state, next, Width::W8, dst),
        Op::Extend { .. }
        | Op::Lea { .. }
        | Op::Xchg { .. }
        | Op::Nop { .. }
        | Op::Cmov { .. }
        | Op::Widen { .. }
        | Op::Leave
        | Op::Cmc
        | Op::Clc
        | Op::Stc
        | Op::Sahf
        | Op::Lahf
        | Op::Jcc { .. }
        | Op::Loop { .. }
        | Op::Jmp { .. }
        | Op::Ret { .. } => None,
    }
}

/// What it leaves once the number `read` was read, 0 where nothing is.
#[tactic(auto, unfolding(insn_form::specs::Meaning::effect))]
pub(crate) fn out_of(op: Op, next: u64, state: &State, read: u64) -> Changes
    ensures { left_by result (core_of state.now)
        ≡ (effect (resolved next op) next (core_of state.now)).out read }
{
    match op {
        Op::Mov { width, dst, src } => mov(state, width, dst, src, read),
        Op::Extend {
            signed,
            from,
            width,
            dst,
            src,
        } => movx(state, signed, from, width, dst, src, read),
        Op::Lea { width, dst, mem } => lea(state, width, dst, mem, next),
        Op::Xchg { width, a, b } => xchg(state, width, a, b),
        Op::Nop { .. } => to_next(None, 0),
        Op::Push { src } => push(state, src, read),
        Op::Pop { dst } => pop(state, dst, read),
        Op::Alu {
            op,
            width,
            dst,
            src,
            keep,
        } => computing(state, op, width, dst, src, keep, read),
        Op::Not { width, dst } => invert(state, width, dst, read),
        Op::Cmov {
            cc,
            width,
            dst,
            src,
        } => cmov(state, cc, width, dst, src, read),
        Op::Set { cc, dst } => setcc(state, cc, dst),
        Op::Widen { width, high } => widen(state, width, high),
        Op::Leave => leave_frame(state, read),
        Op::Cmc => set_carry(state, !state.flags.cf),
        Op::Clc => set_carry(state, false),
        Op::Stc => set_carry(state, true),
        Op::Sahf => flags_from_ah(state),
        Op::Lahf => flags_into_ah(state),
        Op::Jcc { cc, rel } => jcc(state, None, is_met(cc, &state.flags), rel, next),
        Op::Loop { kind, rel, short } => loopcc(state, kind, rel, short, next),
        Op::Jmp { target } => jmp(state, target, next, read),
        Op::Call { target } => call(state, target, next, read),
        Op::Ret { extra } => ret(state, extra, read),
    }
}
