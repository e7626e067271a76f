//! Code that is written piece by piece.
ghost use Rattle.std.specs.Prelude.{◌≡◌, ◌+◌, ◌≤◌, ◌<◌, ◌^◌, ◌++◌, [], length};
ghost use Rattle.insn_form.specs.Moved.{rel_bytes};
ghost use Rattle.relocate_insn.specs.Pieces.{four, jump_code, store_rax, load_rax, push_code};
ghost use Rattle.relocate_insn.specs.Pieces as pieces;

use arrayvec::ArrayVec;
use code_bytes::code::{Code, CodeBytes};
use pun_base::limits::JUMP_LEN;
use std::marker::Model;

/// The bytes of code so far: at most 128, which lie in the value itself.
#[derive(Drop)]
pub struct CodeWriter {
    bytes: ArrayVec<u8, 128>,
}

impl Model for CodeWriter {
    ghost use Rattle.std.specs.Prelude.{ℕ, List};

    ghost Value = { List ℕ };

    ghost view = { λ w. w.bytes.items };
}

impl CodeWriter {
    /// No code yet.
    pub fn new() -> Self
        ensures { result ≡ [] }
    {
        CodeWriter {
            bytes: ArrayVec::new(),
        }
    }

    /// Writes bytes.
    pub fn put(&mut self, bytes: &[u8])
        requires { length self.old + length bytes.now ≤ 128 }
        ensures { self.new ≡ self.old ++ bytes.now }
    {
        self.bytes.try_extend_from_slice(bytes).unwrap();
    }

    /// Writes a number of 32 bits, the low byte first (Intel SDM, volume 1, section 1.3.1).
    pub fn put_address(&mut self, addr: u32)
        requires { length self.old + 4 ≤ 128 }
        ensures { self.new ≡ self.old ++ four addr }
    {
        self.put(&addr.to_le_bytes());
    }

    /// Writes the displacement by which an instruction in front of `next` names `target`.
    pub fn put_relative(&mut self, next: u32, target: u32)
        requires { length self.old + 4 ≤ 128 }
        ensures { self.new ≡ self.old ++ rel_bytes next target }
    {
        self.put_address(target.wrapping_sub(next));
    }

    /// Writes, at `place`, `jmp rel32` to `target` (Intel SDM, volume 2, JMP).
    pub fn put_jump(&mut self, place: u32, target: u32)
        requires room { length self.old + 5 ≤ 128 }
        requires place { place < 2 ^ 31 }
        ensures { self.new ≡ self.old ++ jump_code place target }
    {
        self.put(&[0xE9]);
        self.put_relative(place + JUMP_LEN as u32, target);
    }

    /// Writes `mov [addr], rax` (Intel SDM, volume 2, MOV). An address below 2^31 names itself.
    pub fn put_store(&mut self, addr: u32)
        requires { length self.old + 8 ≤ 128 }
        ensures { self.new ≡ self.old ++ store_rax addr }
    {
        self.put(&[0x48, 0x89, 0x04, 0x25]);
        self.put_address(addr);
    }

    /// Writes `mov rax, [addr]` (Intel SDM, volume 2, MOV).
    pub fn put_load(&mut self, addr: u32)
        requires { length self.old + 8 ≤ 128 }
        ensures { self.new ≡ self.old ++ load_rax addr }
    {
        self.put(&[0x48, 0x8B, 0x04, 0x25]);
        self.put_address(addr);
    }

    /// Writes `push imm32` (Intel SDM, volume 2, PUSH). A number below 2^31 is pushed as it is.
    pub fn put_push(&mut self, number: u32)
        requires { length self.old + 5 ≤ 128 }
        ensures { self.new ≡ self.old ++ push_code number }
    {
        self.put(&[0x68]);
        self.put_address(number);
    }

    /// Writes `jmp [addr]` (Intel SDM, volume 2, JMP).
    pub fn put_jump_through(&mut self, addr: u32)
        requires { length self.old + 7 ≤ 128 }
        ensures { self.new ≡ self.old ++ pieces.jump_through addr }
    {
        self.put(&[0xFF, 0x24, 0x25]);
        self.put_address(addr);
    }

    /// Writes `mov ecx, imm32` (Intel SDM, volume 2, MOV).
    pub fn put_ecx(&mut self, number: u32)
        requires { length self.old + 5 ≤ 128 }
        ensures { self.new ≡ self.old ++ pieces.ecx_code number }
    {
        self.put(&[0xB9]);
        self.put_address(number);
    }

    /// The code, which may go on to the byte after it or not.
    pub fn code(&self, falls: bool) -> Code
        ensures bytes { result.bytes ≡ self.now }
        ensures falls { result.falls ≡ falls }
    {
        Code {
            bytes: CodeBytes::from_slice(self.bytes.as_slice()),
            falls,
        }
    }
}
