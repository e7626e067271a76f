//! Files that break no rule, of which only memory can be wanting.
ghost use Rattle.std.specs.Prelude.{◌≡◌, [], None, IfOk};
ghost use Rattle.std.specs.List.Sorted.{IsStrictlyIncreasing};
ghost use Rattle.elf_read.specs.Entries.{segments};
ghost use Rattle.elf_read.specs.Refusals.{refusal};
ghost use Rattle.start_entries.specs.Entries.{entries_of};
ghost use Rattle.start_entries.specs.Laws.{IsBuilt};
ghost use Rattle.start_entries.specs.Refusals.{first_refusal};
ghost use Rattle.image_step.specs.Running.{Shows};
ghost use Rattle.image_runs.specs.Starting.{start_machine};

use cpu_state::script::Script;
use elf_read::elf::{Elf, read_elf, read_written};
use elf_read::refusal::ElfError;
use image_step::runner::Runner;
use image_step::runner_error::RunnerError;
use start_entries::refusal::StartError;
use start_entries::starts::Starts;
use std::alloc::{AllocError, Global};

/// Reads an original.
pub fn read_original(alloc: Global, bytes: &[u8]) -> Result<Elf<'_>, AllocError>
    requires { refusal 0x20000 bytes.now ≡ None }
    ensures { IfOk result (λ elf. elf.bytes ≡ bytes.now) }
{
    match read_elf(alloc, bytes) {
        Ok(elf) => Ok(elf),
        Err(ElfError::Memory) => Err(AllocError),
        Err(_) => unreachable!(),
    }
}

/// Reads a patched file.
pub fn read_patched(alloc: Global, bytes: &[u8]) -> Result<Elf<'_>, AllocError>
    requires { refusal 0x10000 bytes.now ≡ None }
    ensures file { IfOk result (λ elf. elf.bytes ≡ bytes.now) }
    ensures entries { IfOk result (λ elf. elf.entries ≡ segments bytes.now) }
{
    match read_written(alloc, bytes) {
        Ok(elf) => Ok(elf),
        Err(ElfError::Memory) => Err(AllocError),
        Err(_) => unreachable!(),
    }
}

/// The starts of a file.
pub fn list_starts(alloc: Global, elf: &Elf<'_>, starts: &[u32]) -> Result<Starts, AllocError>
    requires ascend { IsStrictlyIncreasing starts.now }
    requires unrefused { first_refusal elf.now.bytes starts.now ≡ None }
    ensures entries { IfOk result (λ listed. listed ≡ entries_of elf.now.bytes starts.now) }
    ensures built { IfOk result (λ listed. IsBuilt elf.now.bytes listed) }
{
    match Starts::build(alloc, elf, starts) {
        Ok(listed) => Ok(listed),
        Err(StartError::Memory) => Err(AllocError),
        Err(_) => unreachable!(),
    }
}

/// A file that is to run under a script without regions.
pub fn begin_run<'a>(
    alloc: Global,
    elf: &Elf<'_>,
    script: &'a Script,
    starts: &[u32],
) -> Result<Runner<'a>, AllocError>
    requires ascend { IsStrictlyIncreasing starts.now }
    requires bare { script.now.regions ≡ [] }
    ensures starts { IfOk result (λ r. r.starts ≡ entries_of elf.now.bytes starts.now) }
    ensures shows { IfOk result (λ r. Shows r (start_machine elf.now.bytes script.now) []) }
{
    match Runner::new(alloc, elf, script, starts) {
        Ok(runner) => Ok(runner),
        Err(RunnerError::Memory) => Err(AllocError),
        Err(_) => unreachable!(),
    }
}
