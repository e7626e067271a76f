//! One step of a thread, over a state.
ghost use Rattle.std.specs.Prelude.{◌≡◌, ◌≤◌, true, false, length, option_copied};
ghost use Rattle.cpu_state.specs.Bytes.{code_at};
ghost use Rattle.cpu_state.specs.Regions.{cell_at};
ghost use Rattle.thread_runs.specs.ThreadJudging.{StepsThread, begins_locked, begins_xadd, xadd_address, Exchanges};

use cpu_alu::{AluOp, Width, alu};
use cpu_state::memory::NoByte;
use cpu_state::state::State;
use cpu_state::world::Entry;
use cpu_step::step::step;
use cpu_step::stop::Stop;

/// The first bytes of LOCK INC of eight bytes at an address of four bytes: the prefix, REX.W, the
/// opcode, ModRM and SIB (Intel SDM, volume 2, LOCK, INC).
const LOCKED_INC: [u8; 5] = [0xF0, 0x48, 0xFF, 0x04, 0x25];

/// The first bytes of LOCK XADD of four bytes at an address of four bytes with eax: the prefix, the two of the
/// opcode, ModRM and SIB (Intel SDM, volume 2, LOCK, XADD).
const LOCKED_XADD: [u8; 5] = [0xF0, 0x0F, 0xC1, 0x04, 0x25];

/// How many bytes each of the two has.
const LOCKED_LEN: usize = 9;

fn begins_locked(code: &[u8]) -> bool
    ensures { result ≡ begins_locked code.now }
{
    code.len() >= LOCKED_LEN && code[..5] == LOCKED_INC[..]
}

fn begins_xadd(code: &[u8]) -> bool
    ensures { result ≡ begins_xadd code.now }
{
    code.len() >= LOCKED_LEN && code[..5] == LOCKED_XADD[..]
}

/// The address that LOCK XADD names.
fn exchanged_address(code: &[u8]) -> u64
    requires { 9 ≤ length code.now }
    ensures { result ≡ xadd_address code.now }
{
    let number = i32::from_le_bytes([code[5], code[6], code[7], code[8]]);
    i64::from(number).cast_unsigned()
}

/// The four bytes at an address rise by eax, which gets what they were.
fn exchange(state: &mut State, addr: u64) -> Result<bool, Stop>
    ensures { Exchanges addr state.old state.new result }
{
    let number = match state.load(addr, 4) {
        Ok(number) => number,
        Err(NoByte { addr }) => return Err(Stop::NoByte { addr }),
    };
    let sum = alu(AluOp::Add, Width::W32, number, state.regs[0], state.flags);
    match state.store(addr, 4, sum.value) {
        Ok(()) => {
            state.regs[0] = number % 0x1_0000_0000;
            state.flags = sum.flags;
            state.rip = state.rip.wrapping_add(LOCKED_LEN as u64);
            Ok(false)
        }
        Err(NoByte { addr }) => Err(Stop::NoByte { addr }),
    }
}

/// The step of LOCK XADD.
fn step_xadd(state: &mut State, _next: Option<&Entry>) -> Result<bool, Stop>
    requires { begins_xadd (code_at (cell_at state.old.mem) state.old.rip 15) ≡ true }
    ensures { StepsThread (option_copied _next.entry) state.old state.new result }
{
    let code = state.fetch();
    let addr = exchanged_address(code.as_slice());
    exchange(state, addr)
}

/// The step of LOCK INC: that of its bytes without F0, which stand one address further and end at
/// the same one.
fn step_locked(state: &mut State, next: Option<&Entry>) -> Result<bool, Stop>
    requires { begins_locked (code_at (cell_at state.old.mem) state.old.rip 15) ≡ true }
    ensures { StepsThread (option_copied next.entry) state.old state.new result }
{
    let rip = state.rip;
    state.rip = rip.wrapping_add(1);
    match step(state, next) {
        Ok(info) => Ok(info.used),
        Err(stop) => {
            state.rip = rip;
            Err(stop)
        }
    }
}

/// The step of an instruction other than these two: a single processor's.
fn step_alone(state: &mut State, next: Option<&Entry>) -> Result<bool, Stop>
    requires locked { begins_locked (code_at (cell_at state.old.mem) state.old.rip 15) ≡ false }
    requires xadd { begins_xadd (code_at (cell_at state.old.mem) state.old.rip 15) ≡ false }
    ensures { StepsThread (option_copied next.entry) state.old state.new result }
{
    match step(state, next) {
        Ok(info) => Ok(info.used),
        Err(stop) => Err(stop),
    }
}

/// One step of a thread, and whether it used up the world's next entry, which is `next`. After a stop the state is as it was.
pub(crate) fn thread_step(state: &mut State, next: Option<&Entry>) -> Result<bool, Stop>
    ensures { StepsThread (option_copied next.entry) state.old state.new result }
{
    let code = state.fetch();
    if begins_locked(code.as_slice()) {
        step_locked(state, next)
    } else if begins_xadd(code.as_slice()) {
        step_xadd(state, next)
    } else {
        step_alone(state, next)
    }
}
