//! The start of a guest of several threads.
ghost use Rattle.std.specs.Prelude.{◌≡◌, ◌<◌, ◌^◌, true, length, map, Some, None, IfErr, IfOk};
ghost use Rattle.std.specs.List.Sorted.{IsStrictlyIncreasing};
ghost use Rattle.cpu_state.specs.Script.{are_regions};
ghost use Rattle.image_step.specs.Running.{Meets};
ghost use Rattle.thread_runs.specs.Running.{has_no_region, only_first_has_regions, shared_regions, start_guest, start_thread, thread_in, guest_in};

use crate::runner::{RunnerThread, ThreadRunner};
use cpu_alu::unpack;
use cpu_state::memory::Memory;
use cpu_state::script::Script;
use cpu_state::script_regions::Region;
use cpu_state::state::State;
use elf_read::elf::Elf;
use image_step::runner_error::RunnerError;
use image_step::start_memory::memory_of;
use std::alloc::{AllocError, Global};

/// Whether a script has no region.
fn has_no_region(script: &Script) -> bool
    ensures { result ≡ has_no_region script.now }
{
    script.regions.as_slice().is_empty()
}

/// Whether no script but the first has a region.
pub fn only_first_has_regions(threads: &[Script]) -> bool
    ensures { result ≡ only_first_has_regions threads.now }
{
    threads.iter().skip(1).all(has_no_region)
}

/// The regions that the threads share.
fn regions_of(threads: &[Script]) -> &[Region]
    ensures regions { result.now ≡ shared_regions threads.now }
    ensures bounded { are_regions result.now ≡ true }
{
    match threads.first() {
        Some(script) => script.regions.as_slice(),
        None => &[],
    }
}

/// The start of a thread.
fn start_thread<'a>(alloc: Global, elf: &Elf, script: &'a Script) -> RunnerThread<'a>
    ensures { thread_in result ≡ start_thread elf.now.bytes script.now }
{
    RunnerThread {
        state: State {
            regs: script.regs,
            rip: elf.entry(),
            flags: unpack(script.flags),
            fs: script.fs,
            gs: script.gs,
            mem: Memory::empty(alloc),
        },
        world: script.world.entries.as_slice(),
        used: 0,
    }
}

/// The starts of the threads, in the order of their scripts.
fn start_threads<'a>(
    alloc: Global,
    elf: &Elf,
    scripts: &'a [Script],
) -> Result<Vec<RunnerThread<'a>>, AllocError>
    ensures { IfOk result (λ ts. map thread_in ts.items ≡ map (start_thread elf.now.bytes) scripts.now) }
{
    let mut threads = Vec::new(alloc);
    for script in scripts {
        threads.push(start_thread(alloc, elf, script))?;
    }
    Ok(threads)
}

impl<'a> ThreadRunner<'a> {
    /// The guest at its start, with a thread for each script: the script's values and world, and
    /// the instruction pointer at `e_entry`. The file's image, with the permissions of `p_flags`
    /// (ELF-64, "Program Header"), and the first script's regions are the memory of all threads. No
    /// step depends on the starts.
    pub fn new(
        alloc: Global,
        elf: &Elf,
        threads: &'a [Script],
        starts: &[u32],
    ) -> Result<ThreadRunner<'a>, RunnerError>
        requires few { length threads.now < 2 ^ 32 }
        requires shared { only_first_has_regions threads.now ≡ true }
        requires starts { IsStrictlyIncreasing starts.now }
        ensures refused { IfErr result (λ error. Meets elf.now.bytes (shared_regions threads.now)
            (Some error)) }
        ensures accepted { IfOk result (λ r. Meets elf.now.bytes (shared_regions threads.now)
            None) }
        ensures shows { IfOk result (λ r. guest_in r ≡ start_guest elf.now.bytes threads.now) }
    {
        let memory = memory_of(alloc, elf, regions_of(threads))?;
        let threads = start_threads(alloc, elf, threads)?;
        Ok(ThreadRunner { threads, memory })
    }
}
