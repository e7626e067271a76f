//! The rewriting of a file into the loader form for a guest of several threads.
ghost use Rattle.std.specs.Prelude.{◌≡◌, ◌≤◌, None, length};
ghost use Rattle.std.specs.List.Sorted.{IsStrictlyIncreasing};
ghost use Rattle.pun_base.specs.Actions.{IsAction};
ghost use Rattle.pun_base.specs.Desk.{Stays};
ghost use Rattle.pun_base.specs.Limits.{most_sites};
ghost use Rattle.site_turns.specs.Modes.{IsShared};
ghost use Rattle.guest_threads.specs.ThreadCalls.{sharing};
ghost use Rattle.thread_loader.specs.Rewriting.{LoadsThreads};

use elf_read::elf::read_elf;
use guest_threads::rewriting::plan_thread_file;
use patch_report::report::Report;
use pun_base::action::Action;
use pun_base::desk::Desk;
use pun_base::range::Range;
use rewrite_core::original::origin_of;
use rewrite_loader::error::LoaderError;
use rewrite_loader::writing::write_loader;
use std::alloc::Global;

/// Writes the loader form of the file that is patched for a guest of several threads under a name,
/// in pieces of 4,096 bytes, and answers the report: each patched site counts, covers or keeps
/// a ring, as the action says, and no thread's count is lost. After want of memory for the report the
/// file stands under the name.
///
/// `file` is the original, `starts` and `sites` are addresses in ascending order, and neither new
/// code nor the stub stands in the reserved ranges.
pub fn rewrite_threads_loader<D: Desk>(
    alloc: Global,
    file: &[u8],
    starts: &[u32],
    sites: &[u32],
    action: Action,
    reserves: &[Range],
    name: &str,
    desk: &mut D,
) -> Result<Report, LoaderError>
    requires starts_ascend { IsStrictlyIncreasing starts.now }
    requires sites_ascend { IsStrictlyIncreasing sites.now }
    requires few_sites { length sites.now ≤ most_sites }
    requires action { IsAction action }
    requires shared { IsShared action }
    requires nothing { (D.seen desk.old).writing ≡ None }
    ensures rewrites { LoadsThreads (sharing action file.now starts.now sites.now reserves.now)
        name.now (D.seen desk.old) (D.seen desk.new) result }
    ensures stays { Stays (D.seen desk.old) (D.seen desk.new) }
{
    let elf = read_elf(alloc, file)?;
    let planned = plan_thread_file(alloc, &elf, starts, sites, action, reserves)?;
    let loaded = write_loader(alloc, &elf, planned, reserves, name, desk)?;
    let origin = origin_of(&elf);
    let report = loaded.into_report(alloc, action, origin)?;
    Ok(report)
}
