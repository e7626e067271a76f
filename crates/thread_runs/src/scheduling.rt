//! Steps of a guest of several threads, by a schedule.
ghost use Rattle.std.specs.Prelude.{◌≡◌, ◌≤◌, ◌<◌, ◌^◌, length};
ghost use Rattle.cpu_state.specs.Numbers.{loaded};
ghost use Rattle.cpu_state.specs.Regions.{cell_at};
ghost use Rattle.thread_runs.specs.Running.{guest_in, ShowsThread, Runs, StepsOn, StepsOnce};

use crate::runner::{RunnerThread, ScheduleError, ThreadRunner};
use crate::single_step::thread_step;
use cpu_state::memory::{Memory, NoByte};
use cpu_state::state::State;
use cpu_step::stop::Stop;
use std::mem;

/// One step of a thread, over the memory that is shared.
fn step_on(thread: &mut RunnerThread, memory: &mut Memory) -> Result<(), Stop>
    ensures { StepsOn thread.old (cell_at memory.old) thread.new (cell_at memory.new) result }
{
    let next = thread.world.get(thread.used);
    mem::swap(&mut thread.state.mem, memory);
    let answer = thread_step(&mut thread.state, next);
    mem::swap(&mut thread.state.mem, memory);
    match answer {
        Ok(true) => {
            thread.used += 1;
            Ok(())
        }
        Ok(false) => Ok(()),
        Err(stop) => Err(stop),
    }
}

impl<'a> ThreadRunner<'a> {
    /// One step of the thread that the entry at `at` names.
    fn advance(&mut self, at: u32, number: u32) -> Result<(), ScheduleError>
        ensures { StepsOnce at number (guest_in self.old) (guest_in self.new) result }
    {
        let place = number as usize;
        if self.threads.len() <= place {
            return Err(ScheduleError::NoThread { at });
        }
        match step_on(&mut self.threads[place], &mut self.memory) {
            Ok(()) => Ok(()),
            Err(stop) => Err(ScheduleError::Stopped { at, stop }),
        }
    }

    /// Makes a step for each entry of the schedule, of the thread that the entry names. Where an
    /// entry names no thread, or its thread has no step, the steps before it stay made.
    pub fn run(&mut self, schedule: &[u32]) -> Result<(), ScheduleError>
        requires { length schedule.now < 2 ^ 32 }
        ensures { Runs schedule.now (guest_in self.old) (guest_in self.new) result }
    {
        for (at, number) in schedule.iter().enumerate() {
            self.advance(at as u32, *number)?;
        }
        Ok(())
    }

    /// The registers of thread `k`, whose number is its script's place. The memory isn't part of
    /// its state.
    pub fn thread(&self, k: u32) -> Option<&State>
        ensures { ShowsThread (guest_in self.now).threads k result }
    {
        match self.threads.get(k as usize) {
            Some(thread) => Some(&thread.state),
            None => None,
        }
    }

    /// The number that the `size` bytes from `addr` on spell, each of which has to be held with R.
    pub fn load(&self, addr: u64, size: u8) -> Result<u64, NoByte>
        requires { size ≤ 8 }
        ensures { result ≡ loaded (guest_in self.now).mem addr size }
    {
        self.memory.load(addr, size)
    }
}
