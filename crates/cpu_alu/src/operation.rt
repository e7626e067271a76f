//! Operations and the widths of their operands.
ghost use Rattle.std.specs.Prelude.{◌≡◌, ◌<◌, ◌^◌};

/// How many bits an operand has (Intel SDM, volume 1, section 3.6, operand-size attribute).
#[derive(Clone, Copy, Debug, PartialEq, Eq)]
pub enum Width {
    /// A byte.
    W8,
    /// A word.
    W16,
    /// A doubleword.
    W32,
    /// A quadword.
    W64,
}

/// An operation, named by the manual's mnemonic.
#[derive(Clone, Copy, Debug, PartialEq, Eq)]
pub enum AluOp {
    /// The sum.
    Add,
    /// Each bit that is in one of the operands.
    Or,
    /// The sum with CF.
    Adc,
    /// The difference with CF as a borrow.
    Sbb,
    /// Each bit that is in both operands.
    And,
    /// The difference.
    Sub,
    /// Each bit that is in one operand alone.
    Xor,
    /// One more.
    Inc,
    /// One less.
    Dec,
    /// The difference from 0.
    Neg,
    /// Shift left.
    Shl,
    /// Shift right, zeros coming in.
    Shr,
    /// Shift right, the sign coming in.
    Sar,
}

impl Width {
    ghost use Rattle.cpu_alu.specs.Widths.{bits, cut, is_negative, signed};
    ghost use Rattle.cpu_alu.specs.Arithmetic.{differ};

    /// How many bits.
    pub fn bits(self) -> u32
        ensures { result ≡ bits self }
    {
        match self {
            Width::W8 => 8,
            Width::W16 => 16,
            Width::W32 => 32,
            Width::W64 => 64,
        }
    }

    /// The low bits of a number.
    pub fn cut(self, value: u64) -> u64
        ensures value { result ≡ cut self value }
        ensures bound { result < 2 ^ bits self }
    {
        match self {
            Width::W8 => value % (1 << 8),
            Width::W16 => value % (1 << 16),
            Width::W32 => value % (1 << 32),
            Width::W64 => value,
        }
    }

    /// Whether the top bit is set.
    pub(crate) fn is_negative(self, value: u64) -> bool
        ensures { result ≡ is_negative self value }
    {
        value >= 1 << (self.bits() - 1)
    }

    /// Whether one number's top bit is set and the other's is clear.
    pub(crate) fn signs_differ(self, x: u64, y: u64) -> bool
        ensures { result ≡ differ (is_negative self x) (is_negative self y) }
    {
        self.is_negative(x) != self.is_negative(y)
    }

    /// The number that the bits mean in two's complement.
    #[tactic(auto, unfolding(crate::specs::Widths::signed))]
    pub fn signed(self, value: u64) -> i64
        requires { value < 2 ^ bits self }
        ensures { result ≡ signed self value }
    {
        match self {
            Width::W8 => i64::from((value as u8).cast_signed()),
            Width::W16 => i64::from((value as u16).cast_signed()),
            Width::W32 => i64::from((value as u32).cast_signed()),
            Width::W64 => value.cast_signed(),
        }
    }
}
