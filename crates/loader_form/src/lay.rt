//! Laying the stub and its save page on free pages.
ghost use Rattle.std.specs.Prelude.{◌≡◌, ◌≤◌, ◌++◌, map, IfOk, OnOk};
ghost use Rattle.std.specs.List.{AllByRecursion};
ghost use Rattle.address_space.specs.Free.{extent_of};
ghost use Rattle.site_turns.specs.PlannedState.{EndsLow};
ghost use Rattle.loader_form.specs.Lay.{code_extent, taken_after, run_count, stub_count, FitSame, Lays};

use crate::error::LoadError;
use crate::loader::Loader;
use address_space::space::Space;
use elf_emit::built::Built;
use elf_emit::emit::shown_pages;
use elf_emit::runs::runs_of;
use elf_read::elf::Elf;
use page_group::groups::Groups;
use pun_base::limits::PAGE_LEN;
use pun_base::range::Range;
use site_turns::asking::taken_ranges;
use site_turns::planned::Planned;
use std::alloc::{AllocError, Global};

/// How many runs of pages a stub maps at most.
const MOST_RUNS: u32 = 65_535;

/// The bytes of the stub before its records: a page of code, and 16 of the text.
pub(crate) const RECORDS_AT: u32 = PAGE_LEN + 16;

/// The bytes of a record.
pub(crate) const RECORD_LEN: u32 = 16;

/// How many pages hold the stub for so many runs.
pub(crate) fn stub_pages(runs: u32) -> u32
    requires { runs ≤ 65535 }
    ensures value { result ≡ stub_count runs }
    ensures some { 1 ≤ result }
    ensures few { result ≤ 257 }
{
    (RECORDS_AT + RECORD_LEN * runs).div_ceil(PAGE_LEN)
}

/// How many runs the pages for code have.
fn count_runs(alloc: Global, groups: &Groups) -> Result<u32, AllocError>
    ensures { IfOk result (λ n. n ≡ run_count groups.now) }
{
    let pages = shown_pages(alloc, groups)?;
    let runs = runs_of(alloc, &pages)?;
    if runs.len() > u32::MAX as usize {
        return Err(AllocError);
    }
    Ok(runs.len() as u32)
}

/// Appends the addresses of each trampoline's code.
fn push_codes(taken: &mut Vec<Range>, built: &[Built]) -> Result<(), AllocError>
    requires { AllByRecursion EndsLow built.now }
    ensures { OnOk result (map extent_of taken.new.items
        ≡ map extent_of taken.old.items ++ map code_extent built.now) }
{
    for piece in built {
        taken.push(piece.range())?;
    }
    Ok(())
}

/// The addresses that are free after the turns, by whole pages.
fn space_after(
    alloc: Global,
    elf: &Elf<'_>,
    planned: &Planned,
    reserves: &[Range],
) -> Result<Space, AllocError>
    requires { AllByRecursion EndsLow planned.now.built }
    ensures { IfOk result (λ space. FitSame space.taken
        (taken_after elf.now.bytes reserves.now planned.now)) }
{
    let mut taken = taken_ranges(alloc, elf, reserves)?;
    taken.push(planned.private())?;
    push_codes(&mut taken, planned.built())?;
    Space::new(alloc, &taken)
}

/// The least free pages for the stub of so many runs, and the least free page that is then left for
/// the save page.
pub(crate) fn lay_in(alloc: Global, space: &mut Space, runs: u32) -> Result<Loader, LoadError>
    ensures { Lays space.old.taken runs result }
{
    if runs > MOST_RUNS {
        return Err(LoadError::TooManyRuns { count: runs });
    }
    let pages = stub_pages(runs);
    let Some(lo) = space.least_pages(pages) else {
        return Err(LoadError::NoLoader { pages });
    };
    let stub = Range {
        lo,
        hi: lo + pages * PAGE_LEN,
    };
    match space.reserve(alloc, 1) {
        Ok(()) => {}
        Err(_) => return Err(LoadError::Memory),
    }
    space.take(stub);
    let Some(lo) = space.least_pages(1) else {
        return Err(LoadError::NoLoader { pages });
    };
    let save = Range {
        lo,
        hi: lo + PAGE_LEN,
    };
    Ok(Loader::new(stub, save, runs))
}

/// Lays the stub of what was planned at the least free pages that hold it, and the save page at the
/// least free page that is then left.
///
/// `groups` are those of the code's pages, and `reserves` those that the plan was made with.
pub fn lay(
    alloc: Global,
    elf: &Elf<'_>,
    planned: &Planned,
    groups: &Groups,
    reserves: &[Range],
) -> Result<Loader, LoadError>
    requires { AllByRecursion EndsLow planned.now.built }
    ensures { Lays (taken_after elf.now.bytes reserves.now planned.now) (run_count groups.now)
        result }
{
    let Ok(runs) = count_runs(alloc, groups) else {
        return Err(LoadError::Memory);
    };
    let Ok(mut space) = space_after(alloc, elf, planned, reserves) else {
        return Err(LoadError::Memory);
    };
    lay_in(alloc, &mut space, runs)
}
