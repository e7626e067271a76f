//! The steps of a guest, and what they ask.
ghost use Rattle.std.specs.Prelude.{◌≡◌, [], IfOk, OnOk};
ghost use Rattle.cpu_step.specs.Stepping.{machine_of};
ghost use Rattle.guest_gen.specs.Running.{Advances, Answered, CanRun, HasStep, MakesStep, asked_in};
ghost use Rattle.guest_gen.specs.Running as running;
ghost use Rattle.guest_gen.specs.Worlds.{nothing};

use cpu_state::state::State;
use cpu_state::world::{Answer, Entry, MemWrites, Question};
use cpu_step::kept::KeptInsns;
use cpu_step::step::step_kept;
use cpu_step::stop::Stop;
use pun_base::byte_list::ByteList;
use std::alloc::{AllocError, Global};

/// A question with the answer that sets nothing.
fn entry(alloc: Global, question: Question) -> Entry
    ensures { result ≡ record { question = question; answer = nothing } }
{
    Entry {
        question,
        answer: Answer {
            regs: [None; 16],
            flags: None,
            fs: None,
            gs: None,
            writes: MemWrites::from_vec(Vec::new(alloc)),
        },
    }
}

/// An entry that answers no instruction: its question has no byte.
fn blank(alloc: Global) -> Entry
    ensures { result ≡ running.blank }
{
    entry(
        alloc,
        Question {
            bytes: ByteList::new(),
            addr: None,
        },
    )
}

/// What was asked, where a stop is that the world's next entry has another question.
fn asked_by(stop: Stop) -> Option<Question>
    ensures { result ≡ asked_in stop }
{
    match stop {
        Stop::NoByte { .. } => None,
        Stop::UnknownInsn { .. } => None,
        Stop::Ending { .. } => None,
        Stop::WorldEmpty { .. } => None,
        Stop::WorldDiffers { asked, .. } => Some(asked),
    }
}

/// One step by an entry that answers it.
fn answer(state: &mut State, kept: &mut KeptInsns, entry: &Entry)
    requires { HasStep state.old entry.now }
    ensures { MakesStep state.old entry.now state.new }
{
    match step_kept(state, kept, Some(entry)) {
        Ok(_) => {}
        Err(_) => unreachable!(),
    }
}

/// One step of a guest. Where it asks a question, an entry that answers it by nothing is used, and kept.
fn advance(
    alloc: Global,
    state: &mut State,
    kept: &mut KeptInsns,
    blank: &Entry,
    entries: &mut Vec<Entry>,
) -> Result<(), AllocError>
    requires blank { blank.now ≡ running.blank }
    requires runs { CanRun (machine_of state.old []) }
    ensures { OnOk result (Advances state.old state.new entries.old.items entries.new.items) }
{
    match step_kept(state, kept, Some(blank)) {
        Ok(_) => Ok(()),
        Err(stop) => {
            let Some(asked) = asked_by(stop) else {
                unreachable!()
            };
            let entry = entry(alloc, asked);
            answer(state, kept, &entry);
            entries.push(entry)?;
            Ok(())
        }
    }
}

/// The entries that answer so many steps of a guest.
pub(crate) fn answer_run(alloc: Global, state: State, steps: u32) -> Result<Vec<Entry>, AllocError>
    requires { CanRun (machine_of state []) }
    ensures { IfOk result (λ entries. Answered steps state entries.items) }
{
    let blank = blank(alloc);
    let mut state = state;
    let mut kept = KeptInsns::new(alloc);
    let mut entries = Vec::new(alloc);
    for _step in 0..steps {
        advance(alloc, &mut state, &mut kept, &blank, &mut entries)?;
    }
    Ok(entries)
}
