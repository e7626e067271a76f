//! A processor's numbers: each state and each world has them.
ghost use Rattle.std.specs.Prelude.{◌^◌, ◌<◌, IfSome};
ghost use Rattle.cpu_state.specs.Parts.{core_of};
ghost use Rattle.cpu_state.specs.Processor.{IsProcessorCore, AreWords, GiveWords};

use crate::state::State;
use crate::world::{Entry, World};

/// The registers of each state are a processor's.
pub fn processor_core(state: &State)
    ensures { IsProcessorCore (core_of state.now) }
{
    state.core();
}

/// A number that is given has 64 bits.
fn word(given: Option<u64>)
    ensures { IfSome given (λ v. v < 2 ^ 64) }
{
    match given {
        Some(number) => {}
        None => {}
    }
}

/// So have those that an answer gives.
fn words(given: &[Option<u64>])
    ensures { AreWords given.now }
{
    if let Some((first, rest)) = given.split_first() {
        word(*first);
        words(rest);
    }
}

/// And those that a list of entries gives.
fn entry_words(entries: &[Entry])
    ensures { GiveWords entries.now }
{
    if let Some((entry, rest)) = entries.split_first() {
        words(&entry.answer.regs);
        entry_words(rest);
    }
}

/// What the entries of each world give to registers are a processor's numbers.
pub fn world_words(world: &World)
    ensures { GiveWords world.now.entries }
{
    entry_words(world.entries.as_slice());
}
