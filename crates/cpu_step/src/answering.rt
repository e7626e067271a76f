//! What an answer of the world makes of a state.
ghost use Rattle.std.specs.Prelude.{◌≡◌, length};
ghost use Rattle.cpu_state.specs.Regions.{cell_at, extents};
ghost use Rattle.insn_form.specs.Machine.{put_all};
ghost use Rattle.insn_form.specs.Plan as plan;
ghost use Rattle.cpu_step.specs.Stepping as stepping;
ghost use Rattle.cpu_step.specs.Steps.{ByAnswer, written_or_stop};

use crate::asking::answer_to;
use crate::operands::{RCX, with_reg};
use crate::stop::Stop;
use cpu_alu::{Flags, unpack};
use cpu_state::memory::Memory;
use cpu_state::state::{Core, State};
use cpu_state::world::{Answer, Entry, MemWrite, Question};

/// The first byte of the writes, in order, that isn't held with W.
fn lacking_writes(memory: &Memory, writes: &[MemWrite]) -> Option<u64>
    ensures { result ≡ plan.lacking_writes (cell_at memory.now) writes.now }
{
    for write in writes {
        let lacking = memory.lacking(2, write.addr, write.bytes.as_slice().len());
        if lacking.is_some() {
            return lacking;
        }
    }
    None
}

fn check_writes(memory: &Memory, writes: &[MemWrite]) -> Result<(), Stop>
    ensures { result ≡ written_or_stop (cell_at memory.now) writes.now }
{
    match lacking_writes(memory, writes) {
        Some(addr) => Err(Stop::NoByte { addr }),
        None => Ok(()),
    }
}

/// The world's answer to an asked instruction. The question is asked first, and then each byte that the answer writes
/// has to be held with W.
pub(crate) fn held_answer<'a>(
    state: &State,
    asked: Question,
    next: Option<&'a Entry>,
) -> Result<&'a Answer, Stop>
    ensures { ByAnswer asked state.now next.entry result }
{
    let answer = answer_to(state.rip, asked, next)?;
    check_writes(&state.mem, answer.writes.as_slice())?;
    Ok(answer)
}

/// Changes each register that is given.
fn answer_regs(given: &[Option<u64>], regs: &mut [u64])
    requires { length given.now ≡ length regs.old }
    ensures { regs.new ≡ plan.answered given.now regs.old }
{
    for place in 0..regs.len() {
        regs[place] = given[place].unwrap_or(regs[place]);
    }
}

fn answered_flags(given: Option<u64>, flags: Flags) -> Flags
    ensures { result ≡ plan.answered_flags given flags }
{
    match given {
        Some(word) => unpack(word),
        None => flags,
    }
}

fn answered_core(answer: &Answer, core: &Core) -> Core
    ensures { result ≡ plan.answered_core answer.now core.now }
{
    let mut regs = core.regs;
    answer_regs(&answer.regs, &mut regs);
    Core {
        regs,
        flags: answered_flags(answer.flags, core.flags),
        fs: answer.fs.unwrap_or(core.fs),
        gs: answer.gs.unwrap_or(core.gs),
    }
}

/// Registers, flags and bases after an answer, in front of the instruction at `after`.
pub(crate) fn after_answer(syscall: bool, after: u64, answer: &Answer, core: &Core) -> Core
    ensures { result ≡ plan.after_answer syscall after answer.now core.now }
{
    let core = answered_core(answer, core);
    if syscall {
        with_reg(&core, RCX, after)
    } else {
        core
    }
}

pub(crate) fn write_all(memory: &mut Memory, writes: &[MemWrite])
    ensures value { cell_at memory.new ≡ put_all (cell_at memory.old) writes.now }
    ensures extents { extents memory.new ≡ extents memory.old }
{
    for write in writes {
        memory.write(write.addr, write.bytes.as_slice());
    }
}

/// Whether some byte is written.
pub(crate) fn has_byte(writes: &[MemWrite]) -> bool
    ensures { result ≡ stepping.has_byte writes.now }
{
    match writes.first() {
        Some(write) => !write.bytes.as_slice().is_empty(),
        None => false,
    }
}
