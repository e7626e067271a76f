//! The bytes of a jump.
ghost use Rattle.std.specs.Prelude.{◌≡◌, ℕ, pos, ◌+◌, ◌≤◌, Ok, length, ⊤};
ghost use Rattle.jump_form.specs.Jumps.{IsJump};

use arrayvec::ArrayVec;
use pun_base::limits::JUMP_LEN;
use std::alloc::AllocError;
use std::marker::Model;

/// The bytes of a jump: at most fifteen, as an instruction has, which lie in the value itself.
#[derive(Debug, PartialEq, Eq, Drop)]
pub struct JumpBytes {
    bytes: ArrayVec<u8, 15>,
}

impl Model for JumpBytes {
    ghost use Rattle.std.specs.Prelude.{ℕ, List};

    ghost Value = { List ℕ };

    ghost view = { λ j. j.bytes.items };

    ghost inverse = { λ xs. record { bytes = record { items = xs } } };
}

impl JumpBytes {
    /// The bytes, in order.
    pub fn as_slice(&self) -> &[u8]
        ensures value { result.now ≡ self.now }
        ensures fits { length result.now ≤ 15 }
    {
        self.bytes.as_slice()
    }
}

impl Clone for JumpBytes {
    ghost is_clone = { λ bytes copy. copy ≡ bytes };

    ghost is_infallible = { λ _. ⊤ };

    fn clone(&self) -> Result<Self, AllocError>
        ensures { result ≡ Ok self.now }
    {
        let mut bytes = ArrayVec::new();
        bytes.try_extend_from_slice(self.as_slice()).unwrap();
        Ok(JumpBytes { bytes })
    }
}

/// A jump at the address `addr` to `target`: `pads` times the byte `pad_byte`, then `jmp rel32` (E9 cd; Intel SDM volume 2, JMP).
///
/// A pad is a REX prefix that changes nothing (Intel SDM volume 2, section 2.2.1).
pub fn spell(addr: u32, pads: u8, pad_byte: u8, target: u32) -> JumpBytes
    requires pads { pads ≤ 10 }
    requires pad_byte { (0x40 ≤ pad_byte) × (pad_byte ≤ 0x4F) }
    requires place { addr + pads + 5 ≤ 0x7FFF0000 }
    requires target { target ≤ 0x7FFF0000 }
    ensures { IsJump addr pads pad_byte (pos target) result }
{
    let next = addr + u32::from(pads) + u32::from(JUMP_LEN);
    let mut bytes = ArrayVec::new();
    for _ in 0..pads {
        bytes.push(pad_byte);
    }
    bytes.push(0xE9);
    let displacement = target.wrapping_sub(next).to_le_bytes();
    bytes.try_extend_from_slice(&displacement).unwrap();
    JumpBytes { bytes }
}
