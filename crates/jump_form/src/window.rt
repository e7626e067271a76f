//! Where a jump can lead whose high displacement bytes are given.
ghost use Rattle.std.specs.Prelude.{◌≡◌, ℤ, pos, ◌+◌, ◌^◌, ◌≤◌, ◌-ℤ◌, ◌≤ℤ◌, ◌<ℤ◌, ◌↔◌, [], ◌++◌, length};
ghost use Rattle.jump_form.specs.Windows.{IsAllowed, filler, lowest_displacement};

use pun_base::field::get_u32;
use pun_base::limits::JUMP_LEN;

/// The targets from `lo` up to and without `hi`. A target may be negative.
#[derive(Clone, Copy, Debug, PartialEq, Eq)]
pub struct Targets {
    pub lo: i64,
    pub hi: i64,
}

/// The bytes of the lowest displacement whose bytes above the `own` low ones are `fixed`.
fn lowest_bytes(own: u8, fixed: &[u8]) -> [u8; 4]
    requires { own + length fixed.now ≡ 4 }
    ensures { result ≡ filler own fixed.now ++ fixed.now }
{
    if own == 4 {
        return [0, 0, 0, 0x80];
    }
    let mut bytes = [0; 4];
    bytes[usize::from(own)..].copy_from_slice(fixed);
    bytes
}

/// The lowest displacement whose bytes above the `own` low ones are `fixed`.
fn lowest(own: u8, fixed: &[u8]) -> i64
    requires { own + length fixed.now ≡ 4 }
    ensures value { result ≡ lowest_displacement [] own fixed.now }
    ensures low { (pos 0 -ℤ pos (2 ^ 31)) ≤ℤ result }
    ensures high { result <ℤ pos (2 ^ 31) }
{
    let number = get_u32(&lowest_bytes(own, fixed), 0);
    i64::from(number.cast_signed())
}

/// The number of values that so many bytes have.
pub fn value_count(count: u8) -> u64
    requires { count ≤ 4 }
    ensures value { result ≡ 256 ^ count }
    ensures bound { result ≤ 2 ^ 32 }
{
    1 << (8 * count)
}

/// The address after a jump.
fn next(addr: u32, pads: u8) -> i64
    ensures { result ≡ pos (addr + pads + 5) }
{
    i64::from(addr) + i64::from(pads) + i64::from(JUMP_LEN)
}

/// The targets of a `jmp rel32` at `addr` after `pads` pads, whose displacement's low `own` bytes are free and whose high bytes
/// are `fixed` (Intel SDM volume 2, JMP: the displacement has a sign and counts from the next instruction).
pub fn window(addr: u32, pads: u8, own: u8, fixed: &[u8]) -> Targets
    requires { own + length fixed.now ≡ 4 }
    ensures { (target : ℤ) → IsAllowed (addr + pads + 5) [] own fixed.now target
        ↔ ((result.lo ≤ℤ target) × (target <ℤ result.hi)) }
{
    let lo = next(addr, pads) + lowest(own, fixed);
    Targets {
        lo,
        hi: lo + value_count(own) as i64,
    }
}
