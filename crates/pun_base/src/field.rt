//! Numbers in fields of bytes, low byte first, as ELF-64 files of x86-64 and its instructions have them.
//! A field begins at a byte's place, which may be any.
ghost use Rattle.std.specs.Prelude.{◌≡◌, ◌+◌, ◌≤◌, length, take, drop};
ghost use Rattle.byteorder.specs.Endian.{little_bytes};
ghost use Rattle.pun_base.specs.Field.{field, with_field};

use byteorder::{ByteOrder, LittleEndian};

/// The number of the two bytes from `at` on.
pub fn get_u16(bytes: &[u8], at: usize) -> u16
    requires { at + 2 ≤ length bytes.now }
    ensures value { result ≡ field 2 at bytes.now }
    ensures spelled { little_bytes 2 result ≡ take 2 (drop at bytes.now) }
{
    LittleEndian::read_u16(&bytes[at..at + 2])
}

/// The number of the four bytes from `at` on.
pub fn get_u32(bytes: &[u8], at: usize) -> u32
    requires { at + 4 ≤ length bytes.now }
    ensures value { result ≡ field 4 at bytes.now }
    ensures spelled { little_bytes 4 result ≡ take 4 (drop at bytes.now) }
{
    LittleEndian::read_u32(&bytes[at..at + 4])
}

/// The number of the eight bytes from `at` on.
pub fn get_u64(bytes: &[u8], at: usize) -> u64
    requires { at + 8 ≤ length bytes.now }
    ensures value { result ≡ field 8 at bytes.now }
    ensures spelled { little_bytes 8 result ≡ take 8 (drop at bytes.now) }
{
    LittleEndian::read_u64(&bytes[at..at + 8])
}

/// Makes `value` the number of the two bytes from `at` on.
pub fn put_u16(bytes: &mut [u8], at: usize, value: u16)
    requires { at + 2 ≤ length bytes.old }
    ensures changed { bytes.new ≡ with_field 2 at value bytes.old }
    ensures reads { field 2 at bytes.new ≡ value }
{
    LittleEndian::write_u16(&mut bytes[at..at + 2], value);
}

/// Makes `value` the number of the four bytes from `at` on.
pub fn put_u32(bytes: &mut [u8], at: usize, value: u32)
    requires { at + 4 ≤ length bytes.old }
    ensures changed { bytes.new ≡ with_field 4 at value bytes.old }
    ensures reads { field 4 at bytes.new ≡ value }
{
    LittleEndian::write_u32(&mut bytes[at..at + 4], value);
}

/// Makes `value` the number of the eight bytes from `at` on.
pub fn put_u64(bytes: &mut [u8], at: usize, value: u64)
    requires { at + 8 ≤ length bytes.old }
    ensures changed { bytes.new ≡ with_field 8 at value bytes.old }
    ensures reads { field 8 at bytes.new ≡ value }
{
    LittleEndian::write_u64(&mut bytes[at..at + 8], value);
}
