//! A state that is given registers, an instruction pointer and bytes from outside.
ghost use Rattle.std.specs.Prelude.{◌≡◌};
ghost use Rattle.cpu_state.specs.Regions.{cell_at, extents};
ghost use Rattle.cpu_state.specs.Parts.{core_of};
ghost use Rattle.insn_form.specs.Machine.{put_all};

use crate::answering::write_all;
use cpu_state::state::{Core, State};
use cpu_state::world::MemWrite;

/// Gives registers, flags and bases and an instruction pointer to a state, and makes writes, in order, where bytes are held.
pub fn place(state: &mut State, core: &Core, rip: u64, writes: &[MemWrite])
    ensures core { core_of state.new ≡ core.now }
    ensures rip { state.new.rip ≡ rip }
    ensures memory { cell_at state.new.mem ≡ put_all (cell_at state.old.mem) writes.now }
    ensures extents { extents state.new.mem ≡ extents state.old.mem }
{
    state.regs = core.regs;
    state.flags = core.flags;
    state.fs = core.fs;
    state.gs = core.gs;
    state.rip = rip;
    write_all(&mut state.mem, writes);
}
