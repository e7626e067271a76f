//! What `gen` finds of a guest.
ghost use Rattle.std.specs.Prelude.{IfOk};
ghost use Rattle.guest_findings.specs.Generating.{IsReady, IsFound};

use crate::accepted_files::{list_starts, read_original, read_patched};
use crate::both_runs::{Runs, run_both};
use crate::guest_patch::{Patched, patch_guest};
use guest_gen::guest::Guest;
use image_check::verdict;
use image_check::verdict::Verdict;
use patch_report::report::Report;
use std::alloc::{AllocError, Global};

/// What is found of a guest, of its patched file and of the runs of both.
#[derive(Drop)]
pub struct Found {
    /// How many starts there are.
    pub starts: usize,
    pub report: Report,
    /// How many entries the table of the patched file has.
    pub entries: usize,
    pub verdict: Verdict,
    pub runs: Runs,
}

/// Patches a guest at its sites, judges the patched file, and runs both.
pub fn findings(alloc: Global, guest: &Guest) -> Result<Found, AllocError>
    requires { IsReady guest.now }
    ensures { IfOk result (λ found. IsFound guest.now found) }
{
    let Patched { out, report } = patch_guest(alloc, guest)?;
    let original = read_original(alloc, guest.elf())?;
    let patched = read_patched(alloc, &out)?;
    let listed = list_starts(alloc, &original, guest.starts())?;
    let verdict = verdict::check(alloc, &original, &patched, &listed, &report)?;
    let runs = run_both(alloc, &original, &patched, guest, report.private().lo)?;
    Ok(Found {
        starts: guest.starts().len(),
        entries: patched.segments().len(),
        verdict,
        runs,
        report,
    })
}
