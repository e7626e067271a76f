//! What an exact instruction changes, found without a change.
ghost use Rattle.std.specs.Prelude.{◌≡◌, ◌≤◌, IfSome, IfOk};
ghost use Rattle.cpu_state.specs.Regions.{cell_at};
ghost use Rattle.insn_form.specs.declared.form.Insn.TheVariants.{Exact};
ghost use Rattle.cpu_step.specs.Kept.{asked_of};
ghost use Rattle.cpu_step.specs.Stepping.{insn_in};
ghost use Rattle.cpu_step.specs.Steps.{number_or_stop, all_or_stop, Plans};

use crate::asking::complete;
use crate::going::Changes;
use crate::kept::KeptInsn;
use crate::meaning::{out_of, read_span, write_span};
use crate::stop::Stop;
use cpu_alu::Flags;
use cpu_state::memory::{Memory, NoByte};
use cpu_state::state::State;
use cpu_state::world::Entry;
use insn_form::{Op, Span};

/// What an exact instruction reads, writes and leaves.
#[derive(Drop)]
pub(crate) struct Planned {
    pub(crate) read: Option<Span>,
    pub(crate) write: Option<Span>,
    pub(crate) changes: Changes,
    /// The flags, where they change, with those that the world tells.
    pub(crate) flags: Option<Flags>,
    pub(crate) rip: u64,
    /// Whether the world's next entry is used up.
    pub(crate) used: bool,
}

fn read_number(memory: &Memory, span: Option<Span>) -> Result<u64, Stop>
    requires { IfSome span (λ s. s.size ≤ 8) }
    ensures { result ≡ number_or_stop (cell_at memory.now) span }
{
    match span {
        None => Ok(0),
        Some(span) => match memory.load(span.addr, span.size) {
            Ok(number) => Ok(number),
            Err(NoByte { addr }) => Err(Stop::NoByte { addr }),
        },
    }
}

fn check_write(memory: &Memory, span: Option<Span>) -> Result<(), Stop>
    ensures { result ≡ all_or_stop (cell_at memory.now) span }
{
    if let Some(span) = span
        && let Some(addr) = memory.lacking(2, span.addr, usize::from(span.size))
    {
        return Err(Stop::NoByte { addr });
    }
    Ok(())
}

/// The reads are checked first, then the writes, and at last the world is asked.
pub(crate) fn plan_exact(
    state: &State,
    op: Op,
    insn: &KeptInsn,
    after: u64,
    next: Option<&Entry>,
) -> Result<Planned, Stop>
    ensures small { IfOk result (λ p. IfSome p.write (λ s. s.size ≤ 8)) }
    ensures taken { Plans (insn_in (Exact op) (asked_of insn.now.bytes after) after)
        state.now next.entry result }
{
    let read = read_span(op, after, state);
    let write = write_span(op, after, state);
    let number = read_number(&state.mem, read)?;
    check_write(&state.mem, write)?;
    let changes = out_of(op, after, state, number);
    let flags = complete(state, changes, insn, after, next)?;
    Ok(Planned {
        read,
        write,
        changes,
        flags,
        rip: changes.target.unwrap_or(after),
        used: changes.undefined != 0,
    })
}
