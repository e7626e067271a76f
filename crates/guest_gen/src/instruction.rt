//! The instructions of a guest (Intel SDM, volume 2, the page of each).
ghost use Rattle.std.specs.Prelude.{◌≡◌, ◌+◌, ◌^◌, ◌<◌, ◌++◌, OnOk};
ghost use Rattle.std.specs.Int.{to_le_bytes, w32};
ghost use Rattle.insn_form.specs.Moved.{rel_bytes};
ghost use Rattle.guest_gen.specs.Instructions.{spelled};

use elf_read::writing::TEXT_ADDR;
use pun_base::limits::JUMP_LEN;
use std::alloc::AllocError;

/// Where the text begins, with a ret.
pub(crate) const TEXT_START: u32 = TEXT_ADDR as u32;

/// Where the first block begins, and the program starts.
pub(crate) const BLOCKS_START: u32 = TEXT_START + 1;

/// Where the page begins that the blocks read and write.
pub const DATA_START: u32 = 0x60_0000;

/// An instruction of a guest.
#[derive(Clone, Copy, Debug, PartialEq, Eq)]
pub enum GuestInsn {
    /// `ret`
    Ret,
    /// `mov rax, rbx`
    MovRaxRbx,
    /// `add rbx, rax`
    AddRbxRax,
    /// `mov eax, imm32`
    MovEax(u32),
    /// `add rbx, imm32`
    AddRbx(u32),
    /// `add rcx, 1`
    AddRcxOne,
    /// `push rax`
    PushRax,
    /// `pop rax`
    PopRax,
    /// `cmp rax, rbx`
    CmpRaxRbx,
    /// `je` over the three bytes of `inc rdx`
    JeOverInc,
    /// `inc rdx`
    IncRdx,
    /// `mov rax, [rbp+8]`
    LoadRax,
    /// `mov [rbp+16], rax`
    StoreRax,
    /// `call` to the ret at the text's beginning
    CallRet,
    /// `lea rax, [rip+disp32]` of the page of data
    LeaData,
    /// `xor rax, rcx`
    XorRaxRcx,
    /// `nop`
    Nop,
    /// `cpuid`
    Cpuid,
    /// `lea rcx, [rcx+rax+4]`
    LeaRcx,
    /// `call rsi`
    CallRsi,
    /// `jmp` to the first block
    JmpBack,
}

/// Appends opcode bytes and a number of four bytes, low byte first.
fn put_number(bytes: &mut Vec<u8>, opcode: &[u8], number: u32) -> Result<(), AllocError>
    ensures { OnOk result (bytes.new.items
        ≡ bytes.old.items ++ (opcode.now ++ to_le_bytes w32 number)) }
{
    bytes.extend_from_slice(opcode)?;
    bytes.extend_from_slice(&number.to_le_bytes())
}

/// Appends opcode bytes and the displacement by which an instruction in front of `next` names `target`.
fn put_relative(
    bytes: &mut Vec<u8>,
    opcode: &[u8],
    next: u32,
    target: u32,
) -> Result<(), AllocError>
    ensures { OnOk result (bytes.new.items
        ≡ bytes.old.items ++ (opcode.now ++ rel_bytes next target)) }
{
    put_number(bytes, opcode, target.wrapping_sub(next))
}

impl GuestInsn {
    /// Appends the instruction as it stands at an address.
    pub(crate) fn put(self, bytes: &mut Vec<u8>, at: u32) -> Result<(), AllocError>
        requires { at + 7 < 2 ^ 32 }
        ensures { OnOk result (bytes.new.items ≡ bytes.old.items ++ spelled self at) }
    {
        match self {
            GuestInsn::Ret => bytes.extend_from_slice(&[0xC3]),
            GuestInsn::MovRaxRbx => bytes.extend_from_slice(&[0x48, 0x89, 0xD8]),
            GuestInsn::AddRbxRax => bytes.extend_from_slice(&[0x48, 0x01, 0xC3]),
            GuestInsn::MovEax(number) => put_number(bytes, &[0xB8], number),
            GuestInsn::AddRbx(number) => put_number(bytes, &[0x48, 0x81, 0xC3], number),
            GuestInsn::AddRcxOne => bytes.extend_from_slice(&[0x48, 0x83, 0xC1, 0x01]),
            GuestInsn::PushRax => bytes.extend_from_slice(&[0x50]),
            GuestInsn::PopRax => bytes.extend_from_slice(&[0x58]),
            GuestInsn::CmpRaxRbx => bytes.extend_from_slice(&[0x48, 0x39, 0xD8]),
            GuestInsn::JeOverInc => bytes.extend_from_slice(&[0x74, 0x03]),
            GuestInsn::IncRdx => bytes.extend_from_slice(&[0x48, 0xFF, 0xC2]),
            GuestInsn::LoadRax => bytes.extend_from_slice(&[0x48, 0x8B, 0x45, 0x08]),
            GuestInsn::StoreRax => bytes.extend_from_slice(&[0x48, 0x89, 0x45, 0x10]),
            GuestInsn::CallRet => put_relative(bytes, &[0xE8], at + 5, TEXT_START),
            GuestInsn::LeaData => put_relative(bytes, &[0x48, 0x8D, 0x05], at + 7, DATA_START),
            GuestInsn::XorRaxRcx => bytes.extend_from_slice(&[0x48, 0x31, 0xC8]),
            GuestInsn::Nop => bytes.extend_from_slice(&[0x90]),
            GuestInsn::Cpuid => bytes.extend_from_slice(&[0x0F, 0xA2]),
            GuestInsn::LeaRcx => bytes.extend_from_slice(&[0x48, 0x8D, 0x4C, 0x01, 0x04]),
            GuestInsn::CallRsi => bytes.extend_from_slice(&[0xFF, 0xD6]),
            GuestInsn::JmpBack => {
                put_relative(bytes, &[0xE9], at + JUMP_LEN as u32, BLOCKS_START)
            }
        }
    }
}
