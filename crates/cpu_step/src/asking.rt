//! The world's answer to a question, and the undefined flags that it gives.
ghost use Rattle.std.specs.Prelude.{◌≡◌, ◌<◌, option_copied, unwrap_or};
ghost use Rattle.cpu_alu.specs.FlagWord.{unpacked};
ghost use Rattle.cpu_state.specs.Parts.{core_of};
ghost use Rattle.insn_form.specs.Plan as plan;
ghost use Rattle.cpu_step.specs.Changing.{core_or_stop, left_by};
ghost use Rattle.cpu_step.specs.Kept.{asked_of};
ghost use Rattle.cpu_step.specs.Steps.{Answers, completed_by, completed_or_stop};

use crate::going::Changes;
use crate::kept::KeptInsn;
use crate::stop::Stop;
use cpu_alu::{Flags, is_set, unpack};
use cpu_state::state::State;
use cpu_state::world::{Answer, Entry, Question};

fn is_same(asked: &Question, other: &Question) -> bool
    ensures { result ≡ plan.same_question asked.now other.now }
{
    asked == other
}

/// The answer of the world's next entry to the question of the instruction at `rip`.
pub(crate) fn answer_to<'a>(
    rip: u64,
    asked: Question,
    next: Option<&'a Entry>,
) -> Result<&'a Answer, Stop>
    ensures { Answers asked (option_copied next.entry) rip result }
{
    match next {
        None => Err(Stop::WorldEmpty { addr: rip }),
        Some(entry) if is_same(&asked, &entry.question) => Ok(&entry.answer),
        Some(_) => Err(Stop::WorldDiffers { addr: rip, asked }),
    }
}

fn chosen(mask: u8, bit: u32, told: bool, own: bool) -> bool
    requires { bit < 8 }
    ensures { result ≡ plan.chosen mask bit told own }
{
    if is_set(u64::from(mask), bit) {
        told
    } else {
        own
    }
}

/// The flags of the mask are those that were told.
fn with_undefined(mask: u8, told: Flags, own: Flags) -> Flags
    ensures { result ≡ plan.with_undefined mask told own }
{
    Flags {
        cf: chosen(mask, 0, told.cf, own.cf),
        pf: chosen(mask, 1, told.pf, own.pf),
        af: chosen(mask, 2, told.af, own.af),
        zf: chosen(mask, 3, told.zf, own.zf),
        sf: chosen(mask, 4, told.sf, own.sf),
        of: chosen(mask, 5, told.of, own.of),
        rest: own.rest,
    }
}

/// Flags of which an answer tells those of the mask.
fn told_flags(mask: u8, own: Flags, answer: &Answer) -> Flags
    ensures { result ≡ plan.with_undefined mask (unpacked (unwrap_or answer.now.flags 0)) own }
{
    let told = unpack(answer.flags.unwrap_or(0));
    with_undefined(mask, told, own)
}

/// The flags after an operation that left some undefined, which the world tells.
#[inline(never)]
fn complete_by(
    state: &State,
    changes: Changes,
    asked: Question,
    next: Option<&Entry>,
) -> Result<Option<Flags>, Stop>
    ensures { core_or_stop changes (core_of state.now) result
        ≡ completed_by asked (option_copied next.entry) state.now.rip
        (left_by changes (core_of state.now)) }
{
    let answer = answer_to(state.rip, asked, next)?;
    let own = changes.flags.unwrap_or(state.flags);
    Ok(Some(told_flags(changes.undefined, own, answer)))
}

/// The flags after an operation, where they change. The world tells those that it left undefined.
pub(crate) fn complete(
    state: &State,
    changes: Changes,
    insn: &KeptInsn,
    after: u64,
    next: Option<&Entry>,
) -> Result<Option<Flags>, Stop>
    ensures { core_or_stop changes (core_of state.now) result
        ≡ completed_or_stop (asked_of insn.now.bytes after) (option_copied next.entry)
        state.now.rip (left_by changes (core_of state.now)) }
{
    if changes.undefined == 0 {
        return Ok(changes.flags);
    }
    complete_by(state, changes, insn.asked(after), next)
}
