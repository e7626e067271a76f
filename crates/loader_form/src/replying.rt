//! What the kernel's answer to a call of the stub does.
ghost use Rattle.std.specs.Prelude.{◌≡◌, ℕ, ◌+◌, ◌-◌, ◌%◌, ◌^◌, ◌≤◌, Option, [], length, IfOk, OnOk};
ghost use Rattle.pun_base.specs.Memory.{joined};
ghost use Rattle.cpu_state.specs.Adding.{IsFree, laid};
ghost use Rattle.cpu_state.specs.Parts.{core_of};
ghost use Rattle.cpu_state.specs.Regions.{cell_at};
ghost use Rattle.insn_form.specs.Machine.{Machine};
ghost use Rattle.insn_form.specs.Operands as operands;
ghost use Rattle.insn_form.specs.Operands.{reg, with_reg};
ghost use Rattle.cpu_step.specs.Stepping.{machine_of};
ghost use Rattle.loader_form.specs.Kernel as kernel;
ghost use Rattle.loader_form.specs.Kernel.{IsAnswer, Call, Asks, IsReplied, mapped};
ghost use Rattle.loader_form.specs.Answers.{by_zero, Answers};

use crate::kernel::MapAnswer;
use cpu_state::memory::{AddError, Memory};
use cpu_state::state::State;
use elf_read::elf::Elf;
use elf_read::segment::{PF_R, PF_X};
use std::alloc::{AllocError, Global};

/// The numbers of calls.
const OPEN: u64 = 2;

const MMAP: u64 = 9;

/// The registers that calls use, by their places in a state.
pub(crate) const RAX: usize = 0;

const RCX: usize = 1;

const RSI: usize = 6;

const RDI: usize = 7;

const REG_9: usize = 9;

const REG_11: usize = 11;

/// How many bytes SYSCALL has.
const CALL_LEN: u64 = 2;

/// Adds bytes that can be read and executed at addresses where memory has none; all other bytes
/// stay.
fn show(alloc: Global, memory: &mut Memory, place: u64, bytes: &[u8]) -> Result<(), AllocError>
    requires fits { place + length bytes.now ≤ 2 ^ 64 }
    requires free { IsFree (cell_at memory.old) place (place + length bytes.now) }
    ensures { OnOk result (cell_at memory.new
        ≡ joined (cell_at memory.old) (laid place 5 bytes.now)) }
{
    if bytes.is_empty() {
        return Ok(());
    }
    match memory.add(alloc, place, (PF_R | PF_X) as u8, bytes, 0) {
        Ok(()) => Ok(()),
        Err(AddError::Memory) => Err(AllocError),
        Err(AddError::Meets { .. }) => unreachable!(),
    }
}

/// Maps the file's bytes that the registers name, as mmap does.
fn map(alloc: Global, file: &Elf<'_>, state: &mut State) -> Result<(), AllocError>
    requires inside { reg (core_of state.old) kernel.r9 + reg (core_of state.old) kernel.rsi
        ≤ length file.now.bytes }
    requires low { reg (core_of state.old) kernel.rdi + reg (core_of state.old) kernel.rsi
        ≤ 2 ^ 47 }
    requires free { IsFree (cell_at state.old.mem) (reg (core_of state.old) kernel.rdi)
        (reg (core_of state.old) kernel.rdi + reg (core_of state.old) kernel.rsi) }
    ensures memory { OnOk result (cell_at state.new.mem
        ≡ mapped file.now.bytes (reg (core_of state.old) kernel.rdi)
        (reg (core_of state.old) kernel.rsi) (reg (core_of state.old) kernel.r9)
        (cell_at state.old.mem)) }
    ensures core { core_of state.new ≡ core_of state.old }
    ensures rip { state.new.rip ≡ state.old.rip }
{
    let place = state.regs[RDI];
    let size = state.regs[RSI] as usize;
    let rest = &file.file()[state.regs[REG_9] as usize..];
    show(alloc, &mut state.mem, place, &rest[..size])
}

/// Sets what rax, rcx, r11 and the instruction pointer hold after a call.
fn set_answered(state: &mut State, value: u64)
    ensures core { core_of state.new ≡ with_reg (with_reg (with_reg (core_of state.old)
        operands.rax value) operands.rcx state.new.rip) kernel.r11 0 }
    ensures rip { state.new.rip ≡ (state.old.rip + 2) % 2 ^ 64 }
    ensures memory { state.new.mem ≡ state.old.mem }
{
    let next = state.rip.wrapping_add(CALL_LEN);
    state.regs[RAX] = value;
    state.regs[RCX] = next;
    state.regs[REG_11] = 0;
    state.rip = next;
}

/// An error as a call answers it: its negative, modulo 2^64.
fn negative(error: u16) -> u64
    requires { 1 ≤ error }
    ensures { result ≡ 2 ^ 64 - error }
{
    u64::MAX - (u64::from(error) - 1)
}

/// The number in rax after a call. For `mmap` the bytes are mapped first.
fn answer_call(
    alloc: Global,
    file: &Elf<'_>,
    state: &mut State,
    answer: MapAnswer,
) -> Result<u64, AllocError>
    requires good { IsAnswer answer }
    requires asks { (number : Option ℕ) × (call : Call) × Asks file.now.bytes number
        (core_of state.old) (cell_at state.old.mem) call }
    ensures value { IfOk result (λ value. Answers file.now.bytes (core_of state.old)
        (cell_at state.old.mem) (cell_at state.new.mem) answer value) }
    ensures core { core_of state.new ≡ core_of state.old }
    ensures rip { state.new.rip ≡ state.old.rip }
{
    match answer {
        MapAnswer::Failed(error) => Ok(negative(error)),
        MapAnswer::Ok(number) => match state.regs[RAX] {
            OPEN => Ok(u64::from(number)),
            MMAP => {
                map(alloc, file, state)?;
                Ok(state.regs[RDI])
            }
            _ => Ok(0),
        },
    }
}

/// Replies to the call that stands at the instruction pointer, which isn't the one that ends the
/// program.
pub(crate) fn reply(
    alloc: Global,
    file: &Elf<'_>,
    state: &mut State,
    answer: MapAnswer,
) -> Result<(), AllocError>
    requires good { IsAnswer answer }
    requires calls { (number : Option ℕ) × (later : Option ℕ) × (t : Machine)
        × IsReplied file.now.bytes number (machine_of state.old []) (by_zero answer) later t }
    ensures { OnOk result ((number : Option ℕ) (later : Option ℕ) (t : Machine)
        → IsReplied file.now.bytes number (machine_of state.old []) (by_zero answer) later t
        → t ≡ machine_of state.new []) }
{
    let value = answer_call(alloc, file, state, answer)?;
    set_answered(state, value);
    Ok(())
}
