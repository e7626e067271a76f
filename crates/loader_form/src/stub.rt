//! The stub's pages: its code, the text, the records, and zeros.
ghost use Rattle.std.specs.Prelude.{◌≡◌, ◌+◌, ◌-◌, ◌*◌, ◌^◌, ◌<◌, ◌≤◌, ◌++◌, length, map, replicate, IfOk, OnOk};
ghost use Rattle.std.specs.List.{AllByRecursion};
ghost use Rattle.std.specs.Int.{to_le_bytes, w64};
ghost use Rattle.relocate_insn.specs.Pieces.{four};
ghost use Rattle.loader_form.specs.Stub.{Stub, store, load, stores, loads, opening, preparing, looking, leaving, end_of, stub_code, record_of, records_of};
ghost use Rattle.loader_form.specs.Laid.{run_of, stub_bytes, RecordFits};

use crate::lay::{RECORD_LEN, RECORDS_AT};
use crate::used::Used;
use elf_emit::runs::Run;
use pun_base::limits::PAGE_LEN;
use std::alloc::{AllocError, Global};

/// The file that a process runs, with zeros up to 16 bytes.
const TEXT: [u8; 16] = [
    0x2F, 0x70, 0x72, 0x6F, 0x63, 0x2F, 0x73, 0x65, 0x6C, 0x66, 0x2F, 0x65, 0x78, 0x65, 0, 0,
];

/// The registers that the stub saves, in their places of the save page.
const USED: [Used; 10] = [
    Used::Rax,
    Used::Rcx,
    Used::Rdx,
    Used::Rbx,
    Used::Rsi,
    Used::Rdi,
    Used::Reg8,
    Used::Reg9,
    Used::Reg10,
    Used::Reg11,
];

/// Appends a number of four bytes, low byte first.
fn push_u32(out: &mut Vec<u8>, value: u32) -> Result<(), AllocError>
    ensures { OnOk result (out.new.items ≡ out.old.items ++ four value) }
{
    out.extend_from_slice(&value.to_le_bytes())
}

/// Appends a number of eight bytes, low byte first.
fn push_u64(out: &mut Vec<u8>, value: u64) -> Result<(), AllocError>
    ensures { OnOk result (out.new.items ≡ out.old.items ++ to_le_bytes w64 value) }
{
    out.extend_from_slice(&value.to_le_bytes())
}

/// Appends `mov [at], register`.
fn push_store(out: &mut Vec<u8>, register: Used, at: u32) -> Result<(), AllocError>
    ensures { OnOk result (out.new.items ≡ out.old.items ++ store register at) }
{
    out.extend_from_slice(&[register.rex(), 0x89, register.modrm(), 0x25])?;
    push_u32(out, at)?;
    Ok(())
}

/// Appends `mov register, [at]`.
fn push_load(out: &mut Vec<u8>, register: Used, at: u32) -> Result<(), AllocError>
    ensures { OnOk result (out.new.items ≡ out.old.items ++ load register at) }
{
    out.extend_from_slice(&[register.rex(), 0x8B, register.modrm(), 0x25])?;
    push_u32(out, at)?;
    Ok(())
}

/// Appends the code that saves registers, from the address `save` on.
fn push_stores(out: &mut Vec<u8>, registers: &[Used], save: u32) -> Result<(), AllocError>
    requires { save + 8 * length registers.now < 2 ^ 32 }
    ensures { OnOk result (out.new.items ≡ out.old.items ++ stores save registers.now) }
{
    let mut at = save;
    for register in registers {
        push_store(out, *register, at)?;
        at += 8;
    }
    Ok(())
}

/// Appends the code that restores registers, from the address `save` on.
fn push_loads(out: &mut Vec<u8>, registers: &[Used], save: u32) -> Result<(), AllocError>
    requires { save + 8 * length registers.now < 2 ^ 32 }
    ensures { OnOk result (out.new.items ≡ out.old.items ++ loads save registers.now) }
{
    let mut at = save;
    for register in registers {
        push_load(out, *register, at)?;
        at += 8;
    }
    Ok(())
}

/// Appends the call of `open`, and a jump over the exit where it does not fail.
fn push_opening(out: &mut Vec<u8>, text: u32) -> Result<(), AllocError>
    ensures { OnOk result (out.new.items ≡ out.old.items ++ opening text) }
{
    out.extend_from_slice(&[0xB8, 2, 0, 0, 0, 0xBF])?;
    push_u32(out, text)?;
    out.extend_from_slice(&[
        0xBE, 0, 0, 0, 0, 0x0F, 0x05, 0x48, 0x99, 0x89, 0xD1, 0xE3, 13,
    ])?;
    Ok(())
}

/// Appends the code before the loop over the records, the first of which is at `first`.
fn push_preparing(out: &mut Vec<u8>, first: u32) -> Result<(), AllocError>
    ensures { OnOk result (out.new.items ≡ out.old.items ++ preparing first) }
{
    out.extend_from_slice(&[0x49, 0x89, 0xC0, 0xBB])?;
    push_u32(out, first)?;
    out.extend_from_slice(&[0x41, 0xBA, 0x12, 0, 0, 0])?;
    Ok(())
}

/// Appends the loop's head, which leaves the loop where the records end.
fn push_looking(out: &mut Vec<u8>, end: u32) -> Result<(), AllocError>
    requires { 0 < end }
    ensures { OnOk result (out.new.items ≡ out.old.items ++ looking end) }
{
    out.extend_from_slice(&[0x8D, 0x8B])?;
    push_u32(out, u32::MAX - end + 1)?;
    out.extend_from_slice(&[0xE3, 33])?;
    Ok(())
}

/// Appends the jump to the original's entry point, whose address stands right after the jump.
fn push_leaving(out: &mut Vec<u8>, at: u32, entry: u64) -> Result<(), AllocError>
    requires { at + 7 < 2 ^ 32 }
    ensures { OnOk result (out.new.items ≡ out.old.items ++ leaving at entry) }
{
    out.extend_from_slice(&[0xFF, 0x24, 0x25])?;
    push_u32(out, at + 7)?;
    push_u64(out, entry)?;
    Ok(())
}

/// `exit_group(127)` and `hlt`.
const EXITING: [u8; 13] = [0xBF, 0x7F, 0, 0, 0, 0xB8, 0xE7, 0, 0, 0, 0x0F, 0x05, 0xF4];

/// The loop's body: `mmap` of a record, and the exit where it fails.
const MAPPING: [u8; 33] = [
    0x8B, 0x3B, 0x8B, 0x73, 0x04, 0x4C, 0x8B, 0x4B, 0x08, 0xBA, 5, 0, 0, 0, 0xB8, 9, 0, 0, 0, 0x0F,
    0x05, 0x48, 0x8D, 0x5B, 0x10, 0x48, 0x99, 0x89, 0xD1, 0xE3, 0xD9, 0xEB, 0xBC,
];

/// `close`.
const CLOSING: [u8; 10] = [0xB8, 3, 0, 0, 0, 0x4C, 0x89, 0xC7, 0x0F, 0x05];

/// Appends the code of a stub at `at`, whose records end at `end`.
fn push_code(out: &mut Vec<u8>, at: u32, save: u32, end: u32, entry: u64) -> Result<(), AllocError>
    requires low { at + 4112 < 2 ^ 32 }
    requires save { save + 80 < 2 ^ 32 }
    requires end { 0 < end }
    ensures { OnOk result ((b : Stub) → b.at ≡ at → b.save ≡ save → end_of b ≡ end
        → b.entry ≡ entry → out.new.items ≡ out.old.items ++ stub_code b) }
{
    push_stores(out, &USED, save)?;
    push_opening(out, at + PAGE_LEN)?;
    out.extend_from_slice(&EXITING)?;
    push_preparing(out, at + RECORDS_AT)?;
    push_looking(out, end)?;
    out.extend_from_slice(&MAPPING)?;
    out.extend_from_slice(&CLOSING)?;
    push_loads(out, &USED, save)?;
    push_leaving(out, at + 261, entry)?;
    Ok(())
}

/// Appends a record of each run, where the group pages begin at `at` in the file.
fn push_records(out: &mut Vec<u8>, runs: &[Run], at: u64) -> Result<(), AllocError>
    requires { AllByRecursion (RecordFits at) runs.now }
    ensures { OnOk result (out.new.items
        ≡ out.old.items ++ records_of (map (run_of at) runs.now)) }
{
    for run in runs {
        push_record(out, run, at)?;
    }
    Ok(())
}

/// Appends a run's record: its address, its length in bytes, and its place in the file.
fn push_record(out: &mut Vec<u8>, run: &Run, at: u64) -> Result<(), AllocError>
    requires { RecordFits at run.now }
    ensures { OnOk result (out.new.items ≡ out.old.items ++ record_of (run_of at run.now)) }
{
    push_u32(out, run.addr)?;
    push_u32(out, (PAGE_LEN as u64 * run.count) as u32)?;
    push_u64(out, at + PAGE_LEN as u64 * u64::from(run.first))?;
    Ok(())
}

/// The bytes of a stub at `at` that maps these runs, with zeros up to `len` bytes.
pub(crate) fn stub_bytes(
    alloc: Global,
    at: u32,
    save: u32,
    entry: u64,
    runs: &[Run],
    pages_at: u64,
    len: u32,
) -> Result<Vec<u8>, AllocError>
    requires low { at + 4112 + 16 * length runs.now < 2 ^ 32 }
    requires save { save + 80 < 2 ^ 32 }
    requires runs { AllByRecursion (RecordFits pages_at) runs.now }
    requires len { 4112 + 16 * length runs.now ≤ len }
    ensures { IfOk result (λ v. (b : Stub) → b.at ≡ at → b.save ≡ save → b.entry ≡ entry
        → b.runs ≡ map (run_of pages_at) runs.now
        → v.items ≡ stub_bytes b ++ replicate (len - length (stub_bytes b)) 0) }
{
    let end = at + RECORDS_AT + RECORD_LEN * runs.len() as u32;
    let mut bytes = Vec::new(alloc);
    push_code(&mut bytes, at, save, end, entry)?;
    bytes.resize(PAGE_LEN as usize, 0)?;
    bytes.extend_from_slice(&TEXT)?;
    push_records(&mut bytes, runs, pages_at)?;
    bytes.resize(len as usize, 0)?;
    Ok(bytes)
}
