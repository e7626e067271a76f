//! The rewriting of a file for a guest of several threads.
ghost use Rattle.std.specs.Prelude.{◌≡◌, ◌^◌, ◌<◌, ◌≤◌, None, length};
ghost use Rattle.std.specs.List.Sorted.{IsStrictlyIncreasing};
ghost use Rattle.pun_base.specs.declared.action.Action.TheVariants.{Count};
ghost use Rattle.pun_base.specs.Actions.{IsAction};
ghost use Rattle.pun_base.specs.Desk.{Stays};
ghost use Rattle.pun_base.specs.Limits.{most_sites};
ghost use Rattle.elf_read.specs.Refusals.{refusal};
ghost use Rattle.rewrite_core.specs.Asked.{IsInOrder};
ghost use Rattle.rewrite_core.specs.Patching.{PlansBy};
ghost use Rattle.site_turns.specs.Modes.{IsShared};
ghost use Rattle.guest_threads.specs.ThreadCalls.{sharing, IsSharedPlanned, WritesThreads};
ghost use Rattle.guest_threads.specs.ThreadRewriting.{RewritesThreads, ReportsThreads};

use crate::planning::plan_threads;
use elf_read::elf::{Elf, read_elf};
use patch_report::report::Report;
use patch_report::row::ReportRow;
use pun_base::action::Action;
use pun_base::desk::Desk;
use pun_base::range::Range;
use rewrite_core::original::origin_of;
use rewrite_core::patching::Patch;
use rewrite_core::rewrite::write_patch;
use site_turns::planned::Planned;
use start_entries::starts::Starts;
use std::alloc::Global;

/// A file isn't rewritten for threads for one of the reasons of `rewrite`.
pub use rewrite_core::rewrite::RewriteError as ThreadError;

/// The rows of a patched file: one for each site, in turn order, the highest site first.
pub type ReportRows = Vec<ReportRow>;

/// What was patched: the private range, in which the counters or bytes stand from offset 64 on, and
/// what became of each site.
#[derive(Drop)]
pub struct ThreadReport {
    pub private: Range,
    pub rows: ReportRows,
}

/// Builds the starts of a file that was read, and plans each site for a guest of several threads,
/// which gets the events of an action.
pub fn plan_thread_file(
    alloc: Global,
    elf: &Elf<'_>,
    starts: &[u32],
    sites: &[u32],
    action: Action,
    reserves: &[Range],
) -> Result<Planned, ThreadError>
    requires order { IsInOrder (sharing action elf.now.bytes starts.now sites.now reserves.now) }
    requires size { length elf.now.bytes < 2 ^ 63 }
    requires accepted { refusal 0x20000 elf.now.bytes ≡ None }
    requires action { IsAction action }
    requires shared { IsShared action }
    ensures { PlansBy IsSharedPlanned
        (sharing action elf.now.bytes starts.now sites.now reserves.now) result }
{
    let listed = Starts::build(alloc, elf, starts)?;
    let planned = plan_threads(alloc, elf, &listed, sites, action, reserves)?;
    Ok(planned)
}

/// Plans each site of a file that was read, writes the file of the plan, and answers its patch.
fn write_threads<D: Desk>(
    alloc: Global,
    elf: &Elf<'_>,
    starts: &[u32],
    sites: &[u32],
    action: Action,
    reserves: &[Range],
    name: &str,
    desk: &mut D,
) -> Result<Patch, ThreadError>
    requires order { IsInOrder (sharing action elf.now.bytes starts.now sites.now reserves.now) }
    requires size { length elf.now.bytes < 2 ^ 63 }
    requires accepted { refusal 0x20000 elf.now.bytes ≡ None }
    requires action { IsAction action }
    requires shared { IsShared action }
    requires nothing { (D.seen desk.old).writing ≡ None }
    ensures writes { WritesThreads (sharing action elf.now.bytes starts.now sites.now reserves.now)
        name.now (D.seen desk.old) (D.seen desk.new) result }
    ensures stays { Stays (D.seen desk.old) (D.seen desk.new) }
{
    let planned = plan_thread_file(alloc, elf, starts, sites, action, reserves)?;
    write_patch(alloc, elf, planned, name, desk)
}

/// Writes the file that is patched for a guest of several threads under a name, in pieces of 4,096
/// bytes: each patched site counts, and no thread's count is lost.
///
/// `file` is the original, `starts` and `sites` are addresses in ascending order, and no new code
/// stands in the reserved ranges.
pub fn rewrite_threads<D: Desk>(
    alloc: Global,
    file: &[u8],
    starts: &[u32],
    sites: &[u32],
    reserves: &[Range],
    name: &str,
    desk: &mut D,
) -> Result<ThreadReport, ThreadError>
    requires starts_ascend { IsStrictlyIncreasing starts.now }
    requires sites_ascend { IsStrictlyIncreasing sites.now }
    requires few_sites { length sites.now ≤ most_sites }
    requires nothing { (D.seen desk.old).writing ≡ None }
    ensures rewrites { RewritesThreads (record {
      file = file.now;
      starts = starts.now;
      sites = sites.now;
      action = Count;
      reserves = reserves.now;
    }) name.now (D.seen desk.old) (D.seen desk.new) result }
    ensures stays { Stays (D.seen desk.old) (D.seen desk.new) }
{
    let elf = read_elf(alloc, file)?;
    let patch = write_threads(
        alloc,
        &elf,
        starts,
        sites,
        Action::Count,
        reserves,
        name,
        desk,
    )?;
    let Patch {
        private,
        rows,
        built: _,
        writes: _,
        groups: _,
    } = patch;
    Ok(ThreadReport { private, rows })
}

/// Writes what `rewrite_threads` writes, or a file with the events of another action, and returns a report of version 2 that undoes the patch.
/// After want of memory for the report the file stands under the name.
///
/// `file` is the original, `starts` and `sites` are addresses in ascending order, and no new code
/// stands in the reserved ranges.
pub fn rewrite_threads_reported<D: Desk>(
    alloc: Global,
    file: &[u8],
    starts: &[u32],
    sites: &[u32],
    action: Action,
    reserves: &[Range],
    name: &str,
    desk: &mut D,
) -> Result<Report, ThreadError>
    requires starts_ascend { IsStrictlyIncreasing starts.now }
    requires sites_ascend { IsStrictlyIncreasing sites.now }
    requires few_sites { length sites.now ≤ most_sites }
    requires action { IsAction action }
    requires shared { IsShared action }
    requires nothing { (D.seen desk.old).writing ≡ None }
    ensures rewrites { ReportsThreads (sharing action file.now starts.now sites.now reserves.now)
        name.now (D.seen desk.old) (D.seen desk.new) result }
    ensures stays { Stays (D.seen desk.old) (D.seen desk.new) }
{
    let elf = read_elf(alloc, file)?;
    let patch = write_threads(alloc, &elf, starts, sites, action, reserves, name, desk)?;
    let origin = origin_of(&elf);
    let report = patch.into_report(alloc, action, origin)?;
    Ok(report)
}
