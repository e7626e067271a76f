//! The stub's run by a list of answers.
ghost use Rattle.std.specs.Prelude.{[], IfOk};
ghost use Rattle.cpu_step.specs.Stepping.{machine_of};
ghost use Rattle.loader_form.specs.Answers.{AreAnswers, IsStubRun, IsStubStart, StepsOn};

use crate::kernel::{MapAnswer, StubEnd};
use crate::replying::{RAX, reply};
use cpu_state::state::State;
use cpu_step::step::step;
use elf_read::elf::Elf;
use std::alloc::{AllocError, Global};

/// The number of the call that ends the program: exit_group.
const EXIT: u64 = 231;

/// Makes the step of the instruction at the instruction pointer, and answers `false` where it is a
/// call, which only the kernel answers.
fn steps_on(state: &mut State) -> bool
    ensures { StepsOn result state.old state.new }
{
    match step(state, None) {
        Ok(_) => true,
        Err(_) => false,
    }
}

/// Runs the stub of a file of the loader form from a state in which the file starts, by these
/// answers of the kernel, until it comes to the original's entry, to the call that ends the
/// program, or to a call for which no answer is left.
///
/// The call at which the run ends is no step. The number that `open` gives is the one that its
/// answer carries, and a call leaves 0 in r11.
pub fn stub_run(
    alloc: Global,
    file: &Elf<'_>,
    original_entry: u64,
    state: &mut State,
    answers: &[MapAnswer],
) -> Result<StubEnd, AllocError>
    requires starts { IsStubStart file.now.bytes original_entry (machine_of state.old []) }
    requires answers { AreAnswers answers.now }
    ensures { IfOk result (λ end. IsStubRun file.now.bytes original_entry
        (machine_of state.old []) answers.now end (machine_of state.new [])) }
{
    let mut used = 0;
    for steps in 0..u64::MAX {
        if state.rip == original_entry {
            return Ok(StubEnd::Entry { steps });
        }
        if steps_on(state) {
            continue;
        }
        if state.regs[RAX] == EXIT {
            return Ok(StubEnd::Exit { steps });
        }
        let Some(answer) = answers.get(used) else {
            return Ok(StubEnd::Short { steps });
        };
        reply(alloc, file, state, *answer)?;
        used += 1;
    }
    unreachable!()
}
