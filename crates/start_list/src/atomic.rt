//! Which instructions may be displaced where threads share memory.
ghost use Rattle.std.specs.Prelude.{◌≡◌};
ghost use Rattle.trampoline.specs.Atomic.{spot_is_atomic, target_is_atomic, op_is_atomic, is_atomic};

use insn_form::{Insn, Op, Spot, Target};

/// Whether a call through an operand is one step: through a register other than rsp.
fn spot_is_atomic(spot: &Spot) -> bool
    ensures { result ≡ spot_is_atomic spot.now }
{
    match spot {
        Spot::Reg(register) => *register != 4,
        Spot::High(_) | Spot::Mem(_) => false,
    }
}

fn target_is_atomic(target: &Target) -> bool
    ensures { result ≡ target_is_atomic target.now }
{
    match target {
        Target::Rel(_) => true,
        Target::Through(spot) => spot_is_atomic(spot),
    }
}

fn op_is_atomic(op: &Op) -> bool
    ensures { result ≡ op_is_atomic op.now }
{
    match op {
        Op::Call { target } => target_is_atomic(target),
        _ => true,
    }
}

/// Whether an instruction isn't an indirect call through memory or through rsp.
pub(crate) fn is_atomic(insn: &Insn) -> bool
    ensures { result ≡ is_atomic insn.now }
{
    match insn {
        Insn::Exact(op) => op_is_atomic(op),
        Insn::Asked(_) | Insn::Ending => true,
    }
}
