//! Operations on flags alone (Intel SDM, volume 2: CMC, CLC, STC, SAHF, LAHF).
ghost use Rattle.std.specs.Prelude.{◌≡◌};
ghost use Rattle.cpu_state.specs.Parts.{core_of};
ghost use Rattle.cpu_step.specs.Changing.{left_by};
ghost use Rattle.insn_form.specs.FlagMoves as flag_moves;

use crate::going::{Changes, flags_to_next, to_next};
use crate::operands::{RAX, high_byte, put_high};
use cpu_alu::{Flags, is_set};
use cpu_state::state::State;

pub(crate) fn set_carry(state: &State, carry: bool) -> Changes
    ensures { left_by result (core_of state.now)
        ≡ (flag_moves.set_carry carry (core_of state.now)).out 0 }
{
    let flags = Flags {
        cf: carry,
        ..state.flags
    };
    flags_to_next(flags)
}

fn flags_from(byte: u64, flags: Flags) -> Flags
    ensures { result ≡ flag_moves.flags_from byte flags }
{
    Flags {
        cf: is_set(byte, 0),
        pf: is_set(byte, 2),
        af: is_set(byte, 4),
        zf: is_set(byte, 6),
        sf: is_set(byte, 7),
        ..flags
    }
}

pub(crate) fn flags_from_ah(state: &State) -> Changes
    ensures { left_by result (core_of state.now)
        ≡ (flag_moves.flags_from_ah (core_of state.now)).out 0 }
{
    let byte = high_byte(state, RAX);
    flags_to_next(flags_from(byte, state.flags))
}

/// SF, ZF, 0, AF, 0, PF, 1 and CF from bit 7 to bit 0.
fn low_flags(flags: Flags) -> u64
    ensures { result ≡ flag_moves.low_flags flags }
{
    (u64::from(flags.sf) << 7)
        + (u64::from(flags.zf) << 6)
        + (u64::from(flags.af) << 4)
        + (u64::from(flags.pf) << 2)
        + 2
        + u64::from(flags.cf)
}

pub(crate) fn flags_into_ah(state: &State) -> Changes
    ensures { left_by result (core_of state.now)
        ≡ (flag_moves.flags_into_ah (core_of state.now)).out 0 }
{
    to_next(put_high(state, None, RAX, low_flags(state.flags)), 0)
}
