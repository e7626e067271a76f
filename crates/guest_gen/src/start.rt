//! The state from which a guest runs, and its script.
ghost use Rattle.std.specs.Prelude.{◌≡◌, ◌+◌, ◌≤◌, ◌<◌, ◌++◌, length, replicate, IfOk, OnOk};
ghost use Rattle.pun_base.specs.Memory.{joined};
ghost use Rattle.cpu_state.specs.Adding.{IsFree, laid};
ghost use Rattle.cpu_state.specs.Regions.{cell_at};
ghost use Rattle.guest_gen.specs.Starting.{IsStartState, start_memory};
ghost use Rattle.guest_gen.specs.Worlds.{IsGuestScript};

use crate::instruction::{BLOCKS_START, DATA_START, TEXT_START};
use cpu_alu::unpack;
use cpu_state::memory::{AddError, Memory};
use cpu_state::script::Script;
use cpu_state::script_regions::Regions;
use cpu_state::state::State;
use cpu_state::world::{Entries, Entry, World};
use elf_read::segment::{PF_R, PF_W, PF_X};
use pun_base::limits::PAGE_LEN;
use std::alloc::{AllocError, Global};

/// The stack begins in the page of data, and grows down.
const STACK_TOP: u64 = DATA_START as u64 + 0xF00;

/// The number of bytes of the page of data.
const DATA_LEN: u64 = PAGE_LEN as u64;

/// The registers at the start, in the order of `State::regs`: rsp, rbp and rsi aren't 0.
const REGS: [u64; 16] = [
    0,
    0,
    0,
    0,
    STACK_TOP,
    DATA_START as u64,
    TEXT_START as u64,
    0,
    0,
    0,
    0,
    0,
    0,
    0,
    0,
    0,
];

/// The flags word at the start: interrupts are enabled (Intel SDM, volume 1, section 3.4.3, EFLAGS).
const FLAGS: u64 = 0x202;

/// Adds bytes and zeros behind them, where nothing is. What is there stays.
fn add(
    alloc: Global,
    memory: &mut Memory,
    lo: u64,
    perms: u32,
    bytes: &[u8],
    zeros: u64,
) -> Result<(), AllocError>
    requires some { 0 < length bytes.now + zeros }
    requires fits { lo + (length bytes.now + zeros) ≤ 2147483648 }
    requires perms { perms < 8 }
    requires free { IsFree (cell_at memory.old) lo (lo + (length bytes.now + zeros)) }
    ensures { OnOk result (cell_at memory.new
        ≡ joined (cell_at memory.old) (laid lo perms (bytes.now ++ replicate zeros 0))) }
{
    match memory.add(alloc, lo, perms as u8, bytes, zeros) {
        Ok(()) => Ok(()),
        Err(AddError::Memory) => Err(AllocError),
        Err(AddError::Meets { .. }) => unreachable!(),
    }
}

/// The memory of a text: the text, which can be read and executed, and the page of data, which can be read and written.
fn start_memory(alloc: Global, text: &[u8]) -> Result<Memory, AllocError>
    requires some { 0 < length text.now }
    requires few { length text.now ≤ 1048576 }
    ensures { IfOk result (λ memory. cell_at memory ≡ start_memory text.now) }
{
    let mut memory = Memory::empty(alloc);
    add(alloc, &mut memory, TEXT_START as u64, PF_R | PF_X, text, 0)?;
    add(
        alloc,
        &mut memory,
        DATA_START as u64,
        PF_R | PF_W,
        &[],
        DATA_LEN,
    )?;
    Ok(memory)
}

/// The state from which a text runs.
pub(crate) fn start_state(alloc: Global, text: &[u8]) -> Result<State, AllocError>
    requires some { 0 < length text.now }
    requires few { length text.now ≤ 1048576 }
    ensures { IfOk result (λ state. IsStartState text.now state) }
{
    let mem = start_memory(alloc, text)?;
    Ok(State {
        regs: REGS,
        rip: BLOCKS_START as u64,
        flags: unpack(FLAGS),
        fs: 0,
        gs: 0,
        mem,
    })
}

/// The script of a guest, with these entries.
pub(crate) fn script_with(alloc: Global, entries: Vec<Entry>) -> Script
    ensures script { IsGuestScript result }
    ensures entries { result.world.entries ≡ entries.items }
{
    Script {
        regs: REGS,
        flags: FLAGS,
        fs: 0,
        gs: 0,
        regions: Regions::from_vec(Vec::new(alloc)),
        world: World {
            entries: Entries::from_vec(entries),
            place: 0,
        },
    }
}
