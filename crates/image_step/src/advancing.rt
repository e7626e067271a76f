//! Steps of a file that runs.
ghost use Rattle.std.specs.Prelude.{◌≡◌, ◌+◌, ◌-◌, ◌^◌, ◌<◌, ◌≤◌, ◌&&◌, if◌then◌else◌, List, [], length, Some, IfErr, IfOk};
ghost use Rattle.std.specs.List.Sorted.{IsStrictlyIncreasing};
ghost use Rattle.start_entries.specs.Entries.{entries_of};
ghost use Rattle.insn_form.specs.Machine.{Machine};
ghost use Rattle.image_step.specs.Scheduled.{GoesOn};
ghost use Rattle.image_step.specs.Running.{Advances, Ends, Goes, Meets, Shows, machine_in};
ghost use Rattle.image_runs.specs.Starting.{start_machine};

use crate::quieting::{leaves_listed, stand};
use crate::runner::{RunEnd, Runner};
use crate::runner_error::RunnerError;
use crate::start_memory::memory_of;
use cpu_alu::unpack;
use cpu_state::script::Script;
use cpu_state::state::State;
use cpu_step::kept::KeptInsns;
use cpu_step::step::step_kept;
use cpu_step::stop::Stop;
use elf_read::elf::Elf;
use start_entries::starts::Starts;
use std::alloc::Global;

/// One of a flag that is set, and none of another.
fn count_of(flag: bool) -> usize
    ensures value { result ≡ (if flag then 1 else 0) }
    ensures small { result ≤ 1 }
{
    if flag { 1 } else { 0 }
}

/// Whether all four hold.
fn all_four(quiet: bool, known: bool, apart: bool, start: bool) -> bool
    ensures { result ≡ (quiet && (known && (apart && start))) }
{
    quiet && known && apart && start
}

impl<'a> Runner<'a> {
    /// The start of a file under a script: the script's values, the instruction pointer at `e_entry`, the file's image with
    /// the permissions of `p_flags` (ELF-64, "Program Header"), and the script's regions. The starts are those of listed
    /// instructions.
    pub fn new(
        alloc: Global,
        elf: &Elf,
        script: &'a Script,
        starts: &[u32],
    ) -> Result<Runner<'a>, RunnerError>
        requires { IsStrictlyIncreasing starts.now }
        ensures refused { IfErr result (λ error. Meets elf.now.bytes script.now.regions
            (Some error)) }
        ensures accepted { IfOk result (λ r. Meets elf.now.bytes script.now.regions None) }
        ensures starts { IfOk result (λ r. r.starts ≡ entries_of elf.now.bytes starts.now) }
        ensures shows { IfOk result (λ r. Shows r (start_machine elf.now.bytes script.now) []) }
    {
        let state = State {
            regs: script.regs,
            rip: elf.entry(),
            flags: unpack(script.flags),
            fs: script.fs,
            gs: script.gs,
            mem: memory_of(alloc, elf, script.regions.as_slice())?,
        };
        let starts = Starts::list(alloc, elf, starts)?;
        let standing = stand(&starts, 0, state.rip);
        Ok(Runner {
            state,
            kept: KeptInsns::new(alloc),
            world: script.world.entries.as_slice(),
            used: 0,
            starts,
            steps: 0,
            outside: count_of(standing.start) as u64,
            quiet: standing.start,
            known: standing.known,
            near: standing.next,
        })
    }

    /// One step, or why there is none.
    fn advance(&mut self) -> Option<Stop>
        requires { self.old.steps < 2 ^ 64 - 2 }
        ensures starts { self.new.starts ≡ self.old.starts }
        ensures advances { Advances self.old self.new result }
    {
        let next = self.world.get(self.used);
        let facts = match step_kept(&mut self.state, &mut self.kept, next) {
            Ok(facts) => facts,
            Err(stop) => return Some(stop),
        };
        let apart = leaves_listed(&self.starts, &facts, next);
        let standing = stand(&self.starts, self.near, self.state.rip);
        self.used += count_of(facts.used);
        self.outside += count_of(standing.start) as u64;
        self.steps += 1;
        self.quiet = all_four(self.quiet, self.known, apart, standing.start);
        self.known = standing.known;
        self.near = standing.next;
        None
    }

    /// At most `n` further steps.
    pub fn run(&mut self, n: u64) -> RunEnd
        requires { self.old.steps + n < 2 ^ 64 - 1 }
        ensures starts { self.new.starts ≡ self.old.starts }
        ensures steps { self.new.steps ≡ self.old.steps + result.steps }
        ensures most { result.steps ≤ n }
        ensures ends { Ends result.stop (machine_in self.new) result.steps n }
        ensures goes { (s : Machine) (ts : List Machine) → Shows self.old s ts
            → Goes self.new s ts n result }
        ensures goes_on { GoesOn self.old self.new [] }
    {
        for turn in 0..n {
            if let Some(stop) = self.advance() {
                return RunEnd {
                    steps: turn,
                    stop: Some(stop),
                };
            }
        }
        RunEnd {
            steps: n,
            stop: None,
        }
    }

    /// The state.
    pub fn state(&self) -> &State
        ensures { result.now ≡ self.now.state }
    {
        &self.state
    }

    /// How many states so far stand at a listed start, the first one included.
    pub fn outside(&self) -> u64
        ensures { result ≡ self.now.outside }
    {
        self.outside
    }

    /// Whether the run so far is quiet: each state stands at a listed start, each step is made at one of known length, and
    /// no step reads or writes as data, nor an answer writes, a byte of a listed instruction.
    pub fn quiet(&self) -> bool
        ensures { result ≡ self.now.quiet }
    {
        self.quiet
    }

    /// How many entries of the world aren't used.
    pub fn left(&self) -> u64
        ensures { result ≡ length (machine_in self.now).world }
    {
        (self.world.len() - self.used) as u64
    }
}
