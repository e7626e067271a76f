//! The opcode bytes before the last one, which choose the opcode map.
ghost use Rattle.std.specs.Prelude.{◌≡◌, length};
ghost use Rattle.length_decode.specs.Rules as rules;
ghost use Rattle.length_decode.specs.Parse as parse;

use insn_tables::{TableRow, row};

/// The opcode bytes before the last one.
#[derive(Clone, Copy, Debug, PartialEq, Eq)]
pub enum Escape {
    /// None.
    OneByte,
    /// `0F`.
    TwoByte,
    /// `0F 38`.
    Byte38,
    /// `0F 3A`.
    Byte3A,
    /// `C5` and its byte.
    Vex2(u8),
    /// `C4` and its two bytes.
    Vex3(u8, u8),
}

/// How many they are.
#[inline(always)]
pub(crate) fn size(escape: Escape) -> u8
    ensures { result ≡ length (rules.escape_bytes escape) }
{
    match escape {
        Escape::OneByte => 0,
        Escape::TwoByte => 1,
        Escape::Byte38 | Escape::Byte3A | Escape::Vex2(_) => 2,
        Escape::Vex3(_, _) => 3,
    }
}

/// The opcode map that they choose.
#[inline(always)]
pub(crate) fn map(escape: Escape) -> u8
    ensures { result ≡ rules.map_of escape }
{
    match escape {
        Escape::OneByte => 0,
        Escape::TwoByte => 1,
        Escape::Byte38 => 2,
        Escape::Byte3A => 3,
        Escape::Vex2(_) => 4,
        Escape::Vex3(first, _) => match first % 32 {
            1 => 4,
            2 => 5,
            _ => 6,
        },
    }
}

/// What follows an opcode byte of that map.
#[inline(always)]
pub(crate) fn row_after(escape: Escape, opcode: u8) -> TableRow
    ensures { result ≡ rules.row_after escape opcode }
{
    match map(escape) {
        0 => row::<0>(opcode),
        1 => row::<1>(opcode),
        2 => row::<2>(opcode),
        3 => row::<3>(opcode),
        4 => row::<4>(opcode),
        5 => row::<5>(opcode),
        6 => row::<6>(opcode),
        _ => TableRow::UNDEFINED,
    }
}

/// The fewest bytes from the last opcode byte on.
#[inline(always)]
pub(crate) fn least_after(escape: Escape) -> usize
    ensures { result ≡ parse.least_after escape }
{
    match escape {
        Escape::OneByte | Escape::TwoByte | Escape::Vex2(_) => 1,
        Escape::Byte38 => 2,
        Escape::Byte3A => 3,
        Escape::Vex3(first, _) => match first % 32 {
            1 => 1,
            2 => 2,
            _ => 3,
        },
    }
}
