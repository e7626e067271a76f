//! Pages for code, and the runs of pages that the file loads by one entry each.
ghost use Rattle.std.specs.Prelude.{◌≡◌, ◌<◌, ◌≤◌, length, map, drop, IfOk};
ghost use Rattle.elf_emit.specs.Layout.{part_of, runs_of};
ghost use Rattle.elf_emit.specs.Views.{headed, follows};

use elf_read::segment::{PF_R, PF_X};
use pun_base::limits::PAGE_LEN;
use std::alloc::{AllocError, Global};

/// A page of memory for code, and the number of the group page of the file that it shows.
#[derive(Clone, Copy, Debug, PartialEq, Eq)]
pub struct Page {
    pub addr: u32,
    pub group: u32,
}

/// Pages whose addresses and group pages both go up by one: the first page's, and how many they are.
#[derive(Clone, Copy, Debug, PartialEq, Eq)]
pub struct Run {
    pub addr: u32,
    pub first: u32,
    pub count: u64,
}

/// Pages of a file that its table loads by one entry: their address, the first of them, how many they are, and their permissions.
#[derive(Clone, Copy, Debug, PartialEq, Eq)]
pub struct Part {
    pub addr: u32,
    pub first: u32,
    pub count: u64,
    pub perms: u32,
}

/// Whether a page and its group page come directly after another's.
fn follows(page: Page, next: Page) -> bool
    ensures { result ≡ follows page next }
{
    u64::from(page.addr) + PAGE_LEN as u64 == u64::from(next.addr)
        && u64::from(page.group) + 1 == u64::from(next.group)
}

/// How many of the pages are of the first one's run.
fn run_len(pages: &[Page]) -> usize
    requires { 0 < length pages.now }
    ensures some { 0 < result }
    ensures within { result ≤ length pages.now }
    ensures run { runs_of pages.now ≡ headed pages.now result (runs_of (drop result pages.now)) }
{
    let mut count = 1;
    while count < pages.len() && follows(pages[count - 1], pages[count]) {
        count += 1;
    }
    count
}

/// The maximal runs of pages that ascend.
pub fn runs_of(alloc: Global, pages: &[Page]) -> Result<Vec<Run>, AllocError>
    ensures { IfOk result (λ v. v.items ≡ runs_of pages.now) }
{
    let mut runs = Vec::new(alloc);
    let mut at = 0;
    while at < pages.len() {
        let count = run_len(&pages[at..]);
        runs.push(Run {
            addr: pages[at].addr,
            first: pages[at].group,
            count: count as u64,
        })?;
        at += count;
    }
    Ok(runs)
}

/// Runs as parts that can be read and executed.
fn run_parts(alloc: Global, runs: &[Run]) -> Result<Vec<Part>, AllocError>
    ensures { IfOk result (λ v. v.items ≡ map part_of runs.now) }
{
    let mut parts = Vec::with_capacity(alloc, runs.len())?;
    for run in runs {
        parts.push(Part {
            addr: run.addr,
            first: run.first,
            count: run.count,
            perms: PF_R | PF_X,
        })?;
    }
    Ok(parts)
}

/// What the table loads of pages for code: each of their runs.
pub(crate) fn parts_of(alloc: Global, pages: &[Page]) -> Result<Vec<Part>, AllocError>
    ensures { IfOk result (λ v. v.items ≡ map part_of (runs_of pages.now)) }
{
    let runs = runs_of(alloc, pages)?;
    run_parts(alloc, &runs)
}
