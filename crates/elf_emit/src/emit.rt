//! Writing the patched file.
ghost use Rattle.std.specs.Prelude.{◌≡◌, ℕ, ◌^◌, ◌<◌, List, None, Some, IsSome, length, IfOk, OnOk};
ghost use Rattle.std.specs.List.{AllByRecursion};
ghost use Rattle.elf_read.specs.Refusals.{refusal};
ghost use Rattle.elf_emit.specs.Job.{Frame};
ghost use Rattle.elf_emit.specs.Views.{job_of, tailed, frame_in, HasSources};
ghost use Rattle.page_group.specs.Grouping.{pages, IsGrouping};
ghost use Rattle.pun_base.specs.Desk.{Puts, Fills, as_list};
ghost use Rattle.elf_emit.specs.Laws.{Loads};
ghost use Rattle.elf_emit.specs.FrameLaws.{IsFrame};
ghost use Rattle.elf_emit.specs.Frames.{layout};
ghost use Rattle.elf_emit.specs.Windows.{IsCodePage};
ghost use Rattle.elf_emit.specs.Plans.{planned, IsPlan};
ghost use Rattle.elf_emit.specs.Emits.{emit_job, pages_of, AreBytes, IsPrivate, IsFree, AreGroupsOf, AreBacked, HoldNothing, IsSmallFrame, Counts, EmitsFrame, Emits, Makes, Places, IsFrameOf, number_of};

use crate::built::Built;
use crate::changes::Changes;
use crate::new_places::{renewed, up};
use crate::patched_file::{Plan, places_of, plan_of};
use crate::runs::{Page, Part, parts_of};
use crate::table::{Sources, sources_of};
use crate::tail::Tail;
use elf_read::elf::Elf;
use page_group::groups::Groups;
use pun_base::desk::{Desk, PutError};
use pun_base::limits::PAGE_LEN;
use pun_base::plan::Write;
use pun_base::range::Range;
use std::alloc::{AllocError, Global};
use thiserror::Error;

/// How many entries the new table may have.
const MOST_ENTRIES: u128 = 1024;

/// Why the patched file wasn't written.
#[derive(Debug, Drop, Error)]
pub enum EmitError {
    /// The new program header table would need this many entries, more than 1,024.
    #[error("the new header table needs {count} entries")]
    TooManySegments { count: u32 },
    /// The desk failed.
    #[error("the patched file can't be written")]
    WriteFault,
    #[error("out of memory")]
    Memory,
}

impl EmitError {
    /// The refusal's number: 1 or 2.
    pub fn number(&self) -> Option<u32>
        ensures { result ≡ number_of self.now }
    {
        match self {
            EmitError::TooManySegments { .. } => Some(1),
            EmitError::WriteFault => Some(2),
            EmitError::Memory => None,
        }
    }
}

/// The pages for code, each with the group page that it shows.
pub fn shown_pages(alloc: Global, groups: &Groups) -> Result<Vec<Page>, AllocError>
    ensures shown { IfOk result (λ v. v.items ≡ pages_of groups.now.homes) }
    ensures whole { IfOk result (λ v. AllByRecursion IsCodePage v.items) }
    ensures grouping { IsGrouping groups.now.pieces groups.now.homes }
{
    let homes = groups.homes(alloc)?;
    let mut shown = Vec::with_capacity(alloc, homes.len())?;
    for (addr, group) in &homes {
        shown.push(Page {
            addr: *addr,
            group: *group,
        })?;
    }
    Ok(shown)
}

/// How many entries the new table has, or that these are too many.
fn table_count(sources: &Sources<'_>) -> Result<u16, EmitError>
    requires { (f : Frame) × HasSources sources.now f × IsSmallFrame f }
    ensures { (f : Frame) → HasSources sources.now f → Counts f result }
{
    let count = sources.count();
    if count > MOST_ENTRIES {
        let count = count as u32;
        return Err(EmitError::TooManySegments { count });
    }
    Ok(count as u16)
}

/// What the patched file is made of, or that its table needs too many entries.
fn counted_plan<'a>(
    alloc: Global,
    file: &'a [u8],
    sources: &Sources<'a>,
    changes: Changes<'a>,
) -> Result<Plan<'a>, EmitError>
    requires frame { IsSmallFrame (frame_in file.now changes) }
    requires pages { AllByRecursion IsCodePage changes.pages.items }
    requires sources { HasSources sources.now (frame_in file.now changes) }
    ensures plan { IfOk result (λ p. IsPlan p) }
    ensures makes { Makes (frame_in file.now changes.entry)
        (as_list (λ p. layout (planned p)) result) }
{
    match table_count(sources) {
        Ok(_) => {}
        Err(error) => return Err(error),
    }
    match plan_of(alloc, file, sources, changes) {
        Ok(plan) => Ok(plan),
        Err(_) => Err(EmitError::Memory),
    }
}

/// What a file has that the original hasn't.
fn changes_of<'a>(
    writes: &'a [Write],
    built: &'a [Built],
    pages: Vec<Page>,
    groups: u32,
    private: Range,
    tail: Tail<'a>,
) -> Changes<'a>
    requires pages { AllByRecursion IsCodePage pages.items }
    ensures frame { (file : List ℕ) → frame_in file result ≡ tailed (job_of file writes.now built.now
        pages.items groups private.lo private.hi) tail.entry.bytes.now
        tail.entry.parts.now tail.entry.start }
    ensures pages { AllByRecursion IsCodePage result.pages.items }
{
    Changes {
        writes,
        built,
        pages,
        groups,
        private,
        tail,
    }
}

/// Puts all pages of a file, each made in `page` when it is put.
fn put_pages<D: Desk>(
    alloc: Global,
    desk: &mut D,
    plan: &Plan<'_>,
    page: &mut [u8],
) -> Result<(), PutError>
    requires plan { IsPlan plan.now }
    requires writing { IsSome (D.seen desk.old).writing }
    requires page { length page.old ≡ 4096 }
    ensures { (name : List ℕ) → (D.seen desk.old).writing ≡ Some name
        → Puts name (layout (planned plan.now)) (D.seen desk.old) (D.seen desk.new) result }
{
    let len = plan.len();
    let mut at = 0;
    while at < len {
        plan.page_at(at, page);
        match desk.put(alloc, page) {
            Ok(()) => {}
            Err(error) => return Err(error),
        }
        at += PAGE_LEN as u64;
    }
    Ok(())
}

/// Writes a file page by page: begins it, puts its pages and ends it.
fn write_pages<D: Desk>(
    alloc: Global,
    desk: &mut D,
    name: &str,
    plan: &Plan<'_>,
    page: &mut [u8],
) -> Result<(), PutError>
    requires plan { IsPlan plan.now }
    requires nothing { (D.seen desk.old).writing ≡ None }
    requires page { length page.old ≡ 4096 }
    ensures { Fills name.now (layout (planned plan.now)) (D.seen desk.old) (D.seen desk.new)
        result }
{
    match desk.begin(alloc, name) {
        Ok(()) => {}
        Err(error) => return Err(error),
    }
    match put_pages(alloc, desk, plan, page) {
        Ok(()) => {}
        Err(error) => return Err(error),
    }
    desk.end()
}

/// A page of zeros.
fn zero_page(alloc: Global) -> Result<Vec<u8>, AllocError>
    ensures { IfOk result (λ v. length v.items ≡ 4096) }
{
    let mut page = Vec::new(alloc);
    page.resize(PAGE_LEN as usize, 0)?;
    Ok(page)
}

/// Writes the file of these sources and changes under a name.
fn emit_changes<D: Desk>(
    alloc: Global,
    file: &[u8],
    sources: &Sources<'_>,
    changes: Changes<'_>,
    name: &str,
    desk: &mut D,
) -> Result<(), EmitError>
    requires nothing { (D.seen desk.old).writing ≡ None }
    requires frame { IsSmallFrame (frame_in file.now changes) }
    requires pages { AllByRecursion IsCodePage changes.pages.items }
    requires sources { HasSources sources.now (frame_in file.now changes) }
    ensures emits { EmitsFrame (frame_in file.now changes.entry) name.now (D.seen desk.old)
        (D.seen desk.new) result }
    ensures frame { IsFrame (frame_in file.now changes.entry) }
{
    let plan = match counted_plan(alloc, file, sources, changes) {
        Ok(plan) => plan,
        Err(error) => return Err(error),
    };
    let Ok(mut page) = zero_page(alloc) else {
        return Err(EmitError::Memory);
    };
    match write_pages(alloc, desk, name, &plan, &mut page) {
        Ok(()) => Ok(()),
        Err(PutError::Failed) => Err(EmitError::WriteFault),
        Err(PutError::Memory) => Err(EmitError::Memory),
    }
}

/// Writes the file of an original and its changes under a name.
fn emit_over<D: Desk>(
    alloc: Global,
    elf: &Elf<'_>,
    changes: Changes<'_>,
    name: &str,
    desk: &mut D,
) -> Result<(), EmitError>
    requires nothing { (D.seen desk.old).writing ≡ None }
    requires frame { AreBytes elf.now.bytes → length elf.now.bytes < 2 ^ 63
        → IsSmallFrame (frame_in elf.now.bytes changes) }
    requires pages { AllByRecursion IsCodePage changes.pages.items }
    ensures emits { EmitsFrame (frame_in elf.now.bytes changes.entry) name.now (D.seen desk.old)
        (D.seen desk.new) result }
    ensures frame { IsFrame (frame_in elf.now.bytes changes.entry) }
{
    let file = elf.file();
    let Ok(sources) = sources_of(alloc, elf, changes.tail.parts) else {
        return Err(EmitError::Memory);
    };
    emit_changes(alloc, file, &sources, changes, name, desk)
}

/// Writes the patched file under a name, in pieces of 4,096 bytes, each made when it is put.
///
/// What it needs of memory it has before the file is begun.
/// `elf` is the original. `groups` are those of the code's addresses. Where two writes have a byte in common, the
/// later one counts.
pub fn emit<D: Desk>(
    alloc: Global,
    elf: &Elf,
    writes: &[Write],
    built: &[Built],
    groups: &Groups,
    private: Range,
    name: &str,
    desk: &mut D,
) -> Result<(), EmitError>
    requires original { refusal 0x20000 elf.now.bytes ≡ None }
    requires nothing { (D.seen desk.old).writing ≡ None }
    requires backed { AreBacked elf.now.bytes writes.now }
    requires groups { AreGroupsOf built.now groups.now }
    requires private { IsPrivate private.lo private.hi }
    requires free { AllByRecursion (IsFree private.lo private.hi) (pages groups.now.homes) }
    requires nothing_there { HoldNothing (emit_job elf.now.bytes writes.now built.now groups.now
        private.lo private.hi) }
    ensures emits { Emits (emit_job elf.now.bytes writes.now built.now groups.now private.lo
        private.hi) name.now (D.seen desk.old) (D.seen desk.new) result }
    ensures loads { OnOk result (Loads (emit_job elf.now.bytes writes.now built.now groups.now
        private.lo private.hi)) }
{
    let Ok(pages) = shown_pages(alloc, groups) else {
        return Err(EmitError::Memory);
    };
    let Ok(parts) = parts_of(alloc, &pages) else {
        return Err(EmitError::Memory);
    };
    let tail = Tail {
        bytes: &[],
        parts: parts.as_slice(),
        start: None,
    };
    let changes = changes_of(writes, built, pages, groups.count(), private, tail);
    emit_over(alloc, elf, changes, name, desk)
}

/// Writes a file with further pages behind its group pages under a name, as `emit` does.
///
/// The table loads the parts of the tail in place of the pages for code.
pub fn emit_tailed<D: Desk>(
    alloc: Global,
    elf: &Elf,
    writes: &[Write],
    built: &[Built],
    groups: &Groups,
    private: Range,
    tail: Tail<'_>,
    name: &str,
    desk: &mut D,
) -> Result<(), EmitError>
    requires nothing { (D.seen desk.old).writing ≡ None }
    requires few { length tail.parts.now < 2 ^ 31 }
    requires frame { IsFrame (tailed (emit_job elf.now.bytes writes.now built.now groups.now
        private.lo private.hi) tail.bytes.now tail.parts.now tail.start) }
    ensures { EmitsFrame (tailed (emit_job elf.now.bytes writes.now built.now groups.now
        private.lo private.hi) tail.entry.bytes.now tail.entry.parts.now tail.entry.start)
        name.now (D.seen desk.old) (D.seen desk.new) result }
{
    let Ok(pages) = shown_pages(alloc, groups) else {
        return Err(EmitError::Memory);
    };
    let changes = changes_of(writes, built, pages, groups.count(), private, tail);
    emit_over(alloc, elf, changes, name, desk)
}

/// Where the pages behind the private range begin in a file whose table loads these parts of them.
pub fn pages_place(
    alloc: Global,
    elf: &Elf,
    parts: &[Part],
    private: Range,
) -> Result<u64, EmitError>
    requires few { length parts.now < 2 ^ 31 }
    requires frame { (f : Frame) × IsFrameOf elf.now.bytes parts.now private.lo private.hi f }
    ensures { (f : Frame) → IsFrameOf elf.now.bytes parts.now private.lo private.hi f
        → Places f result }
{
    let file = elf.file();
    let Ok(sources) = sources_of(alloc, elf, parts) else {
        return Err(EmitError::Memory);
    };
    let count = match table_count(&sources) {
        Ok(count) => count,
        Err(error) => return Err(error),
    };
    match renewed(alloc, sources.loads, up(file.len() as u64)) {
        Ok((_, table_at)) => Ok(places_of(table_at, count, private).pages_at),
        Err(_) => Err(EmitError::Memory),
    }
}
