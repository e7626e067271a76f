//! What an operation leaves.
ghost use Rattle.std.specs.Prelude.{◌≡◌};
ghost use Rattle.cpu_alu.specs.Outcome.{is_even};

use crate::flag_word::Flags;
use crate::operation::Width;

/// The value and the flags that an operation leaves.
#[derive(Clone, Copy, Debug, PartialEq, Eq)]
pub struct AluOut {
    /// The result, below 2 to the width.
    pub value: u64,
    /// The flags. One that the manual leaves undefined is false here.
    pub flags: Flags,
    /// The flags that the manual leaves undefined: bits 0 to 5 for CF, PF, AF, ZF, SF and OF.
    pub undefined: u8,
}

/// Whether the low eight bits have an even number of ones.
#[tactic(auto, unfolding(crate::specs::Outcome::is_even))]
fn is_even(value: u64) -> bool
    ensures { result ≡ is_even value }
{
    (value % 256).count_ones() % 2 == 0
}

impl AluOut {
    ghost use Rattle.cpu_alu.specs.Outcome.{outcome};
    ghost use Rattle.cpu_alu.specs.Arithmetic.{keeping};

    /// The value with its flags. CF, AF and OF may be undefined.
    pub(crate) fn new(
        width: Width,
        value: u64,
        carry: Option<bool>,
        half: Option<bool>,
        overflow: Option<bool>,
        rest: u64,
    ) -> AluOut
        ensures { result ≡ outcome width value carry half overflow rest }
    {
        let undefined = u8::from(carry.is_none())
            + (u8::from(half.is_none()) << 2)
            + (u8::from(overflow.is_none()) << 5);
        AluOut {
            value,
            flags: Flags {
                cf: carry.unwrap_or(false),
                pf: is_even(value),
                af: half.unwrap_or(false),
                zf: value == 0,
                sf: width.is_negative(value),
                of: overflow.unwrap_or(false),
                rest,
            },
            undefined,
        }
    }

    /// The same with another CF.
    pub(crate) fn keeping(self, carry: bool) -> AluOut
        ensures { result ≡ keeping carry self }
    {
        AluOut {
            flags: Flags {
                cf: carry,
                ..self.flags
            },
            ..self
        }
    }
}
