//! Whether a delivery fits a state.
ghost use Rattle.std.specs.Prelude.{◌≡◌, [], ◌∷◌, List, true};
ghost use Rattle.cpu_state.specs.Regions.{cell_at};
ghost use Rattle.cpu_state.specs.declared.world.Entry.{Entry};
ghost use Rattle.cpu_step.specs.Stepping.{machine_of};
ghost use Rattle.image_step.specs.Fitting.{addresses_from, first_refused, is_open, unfit_at, written};
ghost use Rattle.image_runs.specs.Listed.{are_short, is_start};

use crate::quieting::{is_listed_byte, stand};
use cpu_state::memory::Memory;
use cpu_state::state::State;
use cpu_state::world::MemWrite;
use image_runs::delivery::Delivery;
use start_entries::starts::Starts;

/// Whether a delivery may write the byte at an address.
fn is_open(starts: &Starts, memory: &Memory, addr: u64) -> bool
    requires { are_short starts.now ≡ true }
    ensures { result ≡ is_open starts.now (cell_at memory.now) addr }
{
    memory.lacking(2, addr, 1).is_none() && !is_listed_byte(starts, addr)
}

/// The first of so many addresses at which it may not.
fn first_in(starts: &Starts, memory: &Memory, addr: u64, count: usize) -> Option<u64>
    requires { are_short starts.now ≡ true }
    ensures { result ≡ first_refused (is_open starts.now (cell_at memory.now))
        (addresses_from addr count) }
{
    let mut at = addr;
    for _turn in 0..count {
        if !is_open(starts, memory, at) {
            return Some(at);
        }
        at = at.wrapping_add(1);
    }
    None
}

/// The first address of writes, in order, at which it may not.
fn first_written(starts: &Starts, memory: &Memory, writes: &[MemWrite]) -> Option<u64>
    requires { are_short starts.now ≡ true }
    ensures { result ≡ first_refused (is_open starts.now (cell_at memory.now))
        (written writes.now) }
{
    for write in writes {
        let first = first_in(starts, memory, write.addr, write.bytes.as_slice().len());
        if first.is_some() {
            return first;
        }
    }
    None
}

/// The first of two addresses that isn't a listed start.
fn first_beside(starts: &Starts, here: u64, there: u64) -> Option<u64>
    ensures { result ≡ first_refused (is_start starts.now) (here ∷ there ∷ []) }
{
    if !stand(starts, 0, here).start {
        return Some(here);
    }
    if !stand(starts, 0, there).start {
        return Some(there);
    }
    None
}

/// The first address at which a delivery doesn't fit a state.
pub(crate) fn unfit_at(starts: &Starts, state: &State, delivery: &Delivery) -> Option<u64>
    requires { are_short starts.now ≡ true }
    ensures { (world : List Entry)
        → result ≡ unfit_at starts.now (machine_of state.now world) delivery.now }
{
    let beside = first_beside(starts, state.rip, delivery.rip);
    if beside.is_some() {
        return beside;
    }
    first_written(starts, &state.mem, delivery.writes.as_slice())
}
