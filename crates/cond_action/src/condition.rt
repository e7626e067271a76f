//! When a condition holds.
ghost use Rattle.std.specs.Prelude.{◌≡◌, ◌<◌, slice_index};
ghost use Rattle.pun_base.specs.Actions.{listed};
ghost use Rattle.cond_action.specs.Conditions.{NameRegisters, compares};
ghost use Rattle.cond_action.specs.Conditions as conditions;

use pun_base::action::{CompareOp, Comparison, Comparisons};

/// Whether a comparison holds.
fn is_so(one: Comparison, regs: &[u64; 16]) -> bool
    requires { one.reg < 16 }
    ensures { result ≡ compares one.op (slice_index regs.now one.reg) one.value }
{
    let x = regs[usize::from(one.reg)];
    let n = u64::from(one.value);
    match one.op {
        CompareOp::Eq => x == n,
        CompareOp::Ne => x != n,
        CompareOp::Lt => x < n,
        CompareOp::Le => x <= n,
        CompareOp::Gt => x > n,
        CompareOp::Ge => x >= n,
    }
}

/// Whether all comparisons hold of the registers, which are listed by their codes (Intel SDM, volume 2, table 2-4).
pub fn holds(list: Comparisons, regs: &[u64; 16]) -> bool
    requires { NameRegisters (listed list) }
    ensures { result ≡ conditions.holds list regs.now }
{
    match list {
        Comparisons::One(a) => is_so(a, regs),
        Comparisons::Two(a, b) => is_so(a, regs) && is_so(b, regs),
        Comparisons::Three(a, b, c) => is_so(a, regs) && is_so(b, regs) && is_so(c, regs),
    }
}
