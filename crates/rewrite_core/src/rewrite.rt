//! The rewriting of a file, whole.
ghost use Rattle.std.specs.Prelude.{◌≡◌, ℕ, ◌^◌, ◌<◌, ◌≤◌, None, length, slice_index};
ghost use Rattle.std.specs.List.Sorted.{IsStrictlyIncreasing};
ghost use Rattle.pun_base.specs.Actions.{IsAction};
ghost use Rattle.pun_base.specs.Desk.{Stays};
ghost use Rattle.pun_base.specs.Limits.{most_sites};
ghost use Rattle.elf_read.specs.Refusals.{refusal};
ghost use Rattle.rewrite_core.specs.Patching.{IsWritable, Plans, WritesPatch};
ghost use Rattle.rewrite_core.specs.Rewrites.{Rewrites};

use crate::original::origin_of;
use crate::patching::{Patch, patch_of};
use elf_emit::emit::{EmitError, emit};
use elf_read::elf::{Elf, read_elf};
use elf_read::refusal::ElfError;
use patch_report::report::Report;
use pun_base::action::Action;
use pun_base::desk::Desk;
use pun_base::range::Range;
use site_turns::error::TurnError;
use site_turns::plan::plan_all;
use site_turns::planned::Planned;
use start_entries::refusal::StartError;
use start_entries::starts::Starts;
use std::alloc::{AllocError, Global};
use thiserror::Error;

/// Why a file wasn't rewritten.
#[derive(Debug, Drop, Error)]
pub enum RewriteError {
    /// The file breaks a rule.
    #[error("the file can't be patched")]
    Elf(ElfError),
    /// A start breaks a rule.
    #[error("the starts can't be those of the file")]
    Start(StartError),
    /// A site is no start, or there is no place for what events keep.
    #[error("the sites can't be patched")]
    Turn(TurnError),
    /// The patched file wasn't written.
    #[error("the patched file can't be written")]
    Emit(EmitError),
    #[error("out of memory")]
    Memory,
}

impl From<ElfError> for RewriteError {
    ghost use Rattle.rewrite_core.specs.Causes.{elf_error};

    ghost from_gives = { λ error result. result ≡ elf_error error };

    fn from(error: ElfError) -> RewriteError {
        match error {
            ElfError::Memory => RewriteError::Memory,
            error => RewriteError::Elf(error),
        }
    }
}

impl From<StartError> for RewriteError {
    ghost use Rattle.rewrite_core.specs.Causes.{start_error};

    ghost from_gives = { λ error result. result ≡ start_error error };

    fn from(error: StartError) -> RewriteError {
        match error {
            StartError::Memory => RewriteError::Memory,
            error => RewriteError::Start(error),
        }
    }
}

impl From<TurnError> for RewriteError {
    ghost use Rattle.rewrite_core.specs.Causes.{turn_error};

    ghost from_gives = { λ error result. result ≡ turn_error error };

    fn from(error: TurnError) -> RewriteError {
        match error {
            TurnError::Memory => RewriteError::Memory,
            error => RewriteError::Turn(error),
        }
    }
}

impl From<EmitError> for RewriteError {
    ghost use Rattle.rewrite_core.specs.Causes.{emit_error};

    ghost from_gives = { λ error result. result ≡ emit_error error };

    fn from(error: EmitError) -> RewriteError {
        match error {
            EmitError::Memory => RewriteError::Memory,
            error => RewriteError::Emit(error),
        }
    }
}

impl From<AllocError> for RewriteError {
    ghost use Rattle.rewrite_core.specs.declared.rewrite.RewriteError.TheVariants.{Memory};

    ghost from_gives = { λ _ result. result ≡ Memory };

    fn from(_error: AllocError) -> RewriteError {
        RewriteError::Memory
    }
}

/// Builds the starts of a file that was read, and plans each site.
pub fn plan_file(
    alloc: Global,
    elf: &Elf<'_>,
    starts: &[u32],
    sites: &[u32],
    action: Action,
    reserves: &[Range],
) -> Result<Planned, RewriteError>
    requires bytes { (k : ℕ) → slice_index elf.now.bytes k < 256 }
    requires size { length elf.now.bytes < 2 ^ 63 }
    requires accepted { refusal 0x20000 elf.now.bytes ≡ None }
    requires starts_ascend { IsStrictlyIncreasing starts.now }
    requires sites_ascend { IsStrictlyIncreasing sites.now }
    requires few_sites { length sites.now ≤ most_sites }
    requires action { IsAction action }
    ensures { Plans (record {
      file = elf.now.bytes;
      starts = starts.now;
      sites = sites.now;
      action = action;
      reserves = reserves.now;
    }) result }
{
    let listed = Starts::build(alloc, elf, starts)?;
    let planned = plan_all(alloc, elf, &listed, sites, action, reserves)?;
    Ok(planned)
}

/// Writes the file of what was planned, and answers its patch.
pub fn write_patch<D: Desk>(
    alloc: Global,
    elf: &Elf<'_>,
    planned: Planned,
    name: &str,
    desk: &mut D,
) -> Result<Patch, RewriteError>
    requires writable { IsWritable elf.now.bytes planned }
    requires nothing { (D.seen desk.old).writing ≡ None }
    ensures writes { WritesPatch elf.now.bytes planned name.now
        (D.seen desk.old) (D.seen desk.new) result }
    ensures stays { Stays (D.seen desk.old) (D.seen desk.new) }
{
    let patch = patch_of(alloc, planned)?;
    emit(
        alloc,
        elf,
        &patch.writes,
        &patch.built,
        &patch.groups,
        patch.private,
        name,
        desk,
    )?;
    Ok(patch)
}

/// Writes the patched file under a name, in pieces of 4,096 bytes, and answers the report.
///
/// `file` is the original, `starts` and `sites` are addresses in ascending order, and no new code
/// stands in the reserved ranges.
pub fn rewrite<D: Desk>(
    alloc: Global,
    file: &[u8],
    starts: &[u32],
    sites: &[u32],
    action: Action,
    reserves: &[Range],
    name: &str,
    desk: &mut D,
) -> Result<Report, RewriteError>
    requires starts_ascend { IsStrictlyIncreasing starts.now }
    requires sites_ascend { IsStrictlyIncreasing sites.now }
    requires few_sites { length sites.now ≤ most_sites }
    requires action { IsAction action }
    requires nothing { (D.seen desk.old).writing ≡ None }
    ensures rewrites { Rewrites (record {
      file = file.now;
      starts = starts.now;
      sites = sites.now;
      action = action;
      reserves = reserves.now;
    }) name.now (D.seen desk.old) (D.seen desk.new) result }
    ensures stays { Stays (D.seen desk.old) (D.seen desk.new) }
{
    let elf = read_elf(alloc, file)?;
    let planned = plan_file(alloc, &elf, starts, sites, action, reserves)?;
    let patch = write_patch(alloc, &elf, planned, name, desk)?;
    let origin = origin_of(&elf);
    let report = patch.into_report(alloc, action, origin)?;
    Ok(report)
}
