//! The operations.
ghost use Rattle.std.specs.Prelude.{◌≡◌};
ghost use Rattle.cpu_alu.specs.Arithmetic.{arithmetic, logical};

use crate::flag_word::Flags;
use crate::operation::{AluOp, Width};
use crate::outcome::AluOut;
use crate::shifts::{masked, shift_left, shift_right, shift_signed};
use crate::sums::{difference, sum};

fn logical(width: Width, value: u64, rest: u64) -> AluOut
    ensures { result ≡ logical width value rest }
{
    AluOut::new(width, value, Some(false), None, Some(false), rest)
}

/// The operation on two numbers of the width, of which only the low bits count. The flags are those before.
/// A shift's count is `b`; `Inc`, `Dec` and `Neg` have the operand `a` alone.
pub fn alu(op: AluOp, width: Width, a: u64, b: u64, flags: Flags) -> AluOut
    ensures { result ≡ arithmetic op width a b flags }
{
    let x = width.cut(a);
    let y = width.cut(b);
    match op {
        AluOp::Add => sum(width, x, y, false, flags.rest),
        AluOp::Adc => sum(width, x, y, flags.cf, flags.rest),
        AluOp::Inc => sum(width, x, 1, false, flags.rest).keeping(flags.cf),
        AluOp::Sub => difference(width, x, y, false, flags.rest),
        AluOp::Sbb => difference(width, x, y, flags.cf, flags.rest),
        AluOp::Dec => difference(width, x, 1, false, flags.rest).keeping(flags.cf),
        AluOp::Neg => difference(width, 0, x, false, flags.rest),
        AluOp::And => logical(width, x & y, flags.rest),
        AluOp::Or => logical(width, x | y, flags.rest),
        AluOp::Xor => logical(width, x ^ y, flags.rest),
        AluOp::Shl => shift_left(width, x, masked(width, y), flags),
        AluOp::Shr => shift_right(width, x, masked(width, y), flags),
        AluOp::Sar => shift_signed(width, x, masked(width, y), flags),
    }
}
