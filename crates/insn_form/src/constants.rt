//! Displacements and immediates: little-endian numbers in two's complement (Intel SDM, volume 2, section 2.2.1.5).
ghost use Rattle.std.specs.Prelude.{◌≡◌};
ghost use Rattle.insn_form.specs.Filling as filling;

use cpu_alu::Width;

/// A displacement, of one or four bytes in two's complement; 0 where there is none.
pub fn integer(bytes: &[u8]) -> i32
    ensures { result ≡ filling.integer_of bytes.now }
{
    if bytes.len() == 4 {
        i32::from_le_bytes([bytes[0], bytes[1], bytes[2], bytes[3]])
    } else if bytes.len() == 1 {
        i32::from(bytes[0].cast_signed())
    } else {
        0
    }
}

/// An immediate of one, two, four or eight bytes.
fn constant(bytes: &[u8]) -> i64
    ensures { result ≡ filling.constant_of bytes.now }
{
    if bytes.len() == 1 {
        i64::from(bytes[0].cast_signed())
    } else if bytes.len() == 2 {
        i64::from(i16::from_le_bytes([bytes[0], bytes[1]]))
    } else if bytes.len() == 4 {
        i64::from(i32::from_le_bytes([bytes[0], bytes[1], bytes[2], bytes[3]]))
    } else if bytes.len() == 8 {
        i64::from_le_bytes([
            bytes[0], bytes[1], bytes[2], bytes[3], bytes[4], bytes[5], bytes[6], bytes[7],
        ])
    } else {
        0
    }
}

pub(crate) fn immediate(width: Width, bytes: &[u8]) -> u64
    ensures { result ≡ filling.immediate width bytes.now }
{
    width.cut(constant(bytes).cast_unsigned())
}

pub(crate) fn extra(bytes: &[u8]) -> u16
    ensures { result ≡ filling.extra_of bytes.now }
{
    if bytes.len() == 2 {
        u16::from_le_bytes([bytes[0], bytes[1]])
    } else {
        0
    }
}
