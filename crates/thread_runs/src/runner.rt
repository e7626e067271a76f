//! A guest of several threads that runs, and why a schedule ends early.
ghost use Rattle.std.specs.Prelude.{◌≤◌, length};

use cpu_state::memory::Memory;
use cpu_state::state::State;
use cpu_state::world::Entry;
use cpu_step::stop::Stop;
use thiserror::Error;

/// A thread of a guest: its state, which has the memory only while the thread steps, and the world
/// that it borrows.
#[derive(Drop)]
pub(crate) struct RunnerThread<'a> {
    pub(crate) state: State,
    pub(crate) world: &'a [Entry],
    pub(crate) used: usize,
    pub ghost within: { used ≤ length world.now },
}

/// A guest of several threads that runs: threads under scripts of their own, and the one memory that they share.
#[derive(Drop)]
pub struct ThreadRunner<'a> {
    pub(crate) threads: Vec<RunnerThread<'a>>,
    pub(crate) memory: Memory,
}

/// Why a schedule isn't run to its end, with the place of an entry, the first of which is at 0.
#[derive(Debug, PartialEq, Eq, Error, Drop)]
pub enum ScheduleError {
    /// The entry names no thread.
    #[error("the schedule's entry at {at} names no thread")]
    NoThread { at: u32 },
    /// The thread that the entry names has no step.
    #[error("at the schedule's entry at {at}: {stop}")]
    Stopped { at: u32, stop: Stop },
}
