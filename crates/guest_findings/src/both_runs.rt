//! The runs of a guest and of its patched file, side by side.
ghost use Rattle.std.specs.Prelude.{◌≡◌, ◌≤◌, [], length, IfOk};
ghost use Rattle.std.specs.List.Sorted.{IsStrictlyIncreasing};
ghost use Rattle.guest_findings.specs.Generating.{RanBoth};

use crate::accepted_files::begin_run;
use crate::following::follow;
use crate::last_states::{are_alike, sum_counters};
use elf_read::elf::Elf;
use guest_gen::guest::{Guest, STEPS};
use std::alloc::{AllocError, Global};

/// What is told of both runs.
#[derive(Drop)]
pub struct Runs {
    pub steps: u64,
    pub patched_steps: u32,
    /// The sum of the counters.
    pub events: u64,
    /// Whether the original's run is quiet.
    pub quiet: bool,
    /// Whether the last states look alike.
    pub agree: bool,
}

/// Runs a guest, and its patched file up to the same outside state.
///
/// `private` is where the patched file's private range begins.
pub fn run_both(
    alloc: Global,
    original: &Elf<'_>,
    patched: &Elf<'_>,
    guest: &Guest,
    private: u32,
) -> Result<Runs, AllocError>
    requires file { original.now.bytes ≡ guest.now.file }
    requires ascend { IsStrictlyIncreasing guest.now.starts }
    requires few { length guest.now.sites ≤ 250 }
    requires bare { guest.now.script.regions ≡ [] }
    ensures { IfOk result (λ runs. RanBoth guest.now patched.now.bytes private runs) }
{
    let mut first = begin_run(alloc, original, guest.script(), guest.starts())?;
    let end = first.run(STEPS as u64);
    let mut second = begin_run(alloc, patched, guest.script(), guest.starts())?;
    let patched_steps = follow(&mut second, first.outside());
    Ok(Runs {
        steps: end.steps,
        patched_steps,
        events: sum_counters(&second, private, guest.sites().len()),
        quiet: first.quiet(),
        agree: are_alike(&second, &first),
    })
}
