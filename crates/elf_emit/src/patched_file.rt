//! The patched file, page by page.
ghost use Rattle.std.specs.Prelude.{◌≡◌, ◌+◌, ◌-◌, ◌*◌, ◌/◌, ◌%◌, ◌^◌, ◌<◌, ◌≤◌, ◌++◌, ◌∷◌, length, map, IfOk, OnOk};
ghost use Rattle.std.specs.List.{AllByRecursion};
ghost use Rattle.elf_read.specs.Entries.{table};
ghost use Rattle.elf_read.specs.Writing.{load_entry};
ghost use Rattle.elf_emit.specs.FrameLaws.{IsFrame};
ghost use Rattle.elf_emit.specs.Frames.{slice, up, padded, count, with_table, part_load, in_order, table_at, private_at, pages_at, entries};
ghost use Rattle.elf_emit.specs.Views.{frame_in, HasSources, PartFits};
ghost use Rattle.elf_emit.specs.FramePages.{front_page, page_at, file_len};
ghost use Rattle.elf_emit.specs.Plans.{planned, IsPlan};
ghost use Rattle.elf_emit.specs.Windows.{IsCodePage};

use crate::changes::Changes;
use crate::index::{index_code, index_pages, index_writes};
use crate::new_places::{pad, renewed, up};
use crate::parts::{group_page, original_page, put_contents};
use crate::table::{Sources, new_loads, private_load, table_bytes, table_load};
use elf_read::segment::{ENTRY_LEN, Segment};
use pun_base::limits::PAGE_LEN;
use pun_base::range::Range;
use std::alloc::{AllocError, Global};

/// Where the new parts begin in the file, and how many bytes the table has.
#[derive(Clone, Copy)]
pub(crate) struct Places {
    pub table_at: u64,
    pub table_len: u64,
    pub private_at: u64,
    pub pages_at: u64,
}

/// All that the pages of the patched file are made of.
#[derive(Drop)]
pub(crate) struct Plan<'a> {
    pub file: &'a [u8],
    pub changes: Changes<'a>,
    pub loads: &'a [Segment],
    /// The entries in `loads` with their new places.
    pub news: Vec<Segment>,
    pub places: Places,
    /// How many entries the table has.
    pub count: u16,
    /// The table, whole pages.
    pub table: Vec<u8>,
    pub written: Vec<u64>,
    pub code: Vec<u64>,
    pub shown: Vec<u64>,
}

/// Where the new parts begin, where the table begins at `table_at` and has `count` entries.
pub(crate) fn places_of(table_at: u64, count: u16, private: Range) -> Places
    requires { table_at < 2 ^ 63 + 2 ^ 34 }
    ensures { result ≡ record {
      table_at = table_at;
      table_len = 56 * count;
      private_at = table_at + up (56 * count);
      pages_at = table_at + up (56 * count) + (private.hi - private.lo);
    } }
{
    let table_len = ENTRY_LEN as u64 * u64::from(count);
    let private_at = table_at + up(table_len);
    Places {
        table_at,
        table_len,
        private_at,
        pages_at: private_at + u64::from(private.hi - private.lo),
    }
}

/// Which group page stands at a place of the file, where so many of them begin at `first`.
fn group_at(at: u64, first: u64, groups: u32) -> u32
    requires first { first ≤ at }
    requires last { at < first + 4096 * groups }
    ensures { result ≡ (at - first) / 4096 }
{
    ((at - first) / PAGE_LEN as u64) as u32
}

/// Appends zeros up to a multiple of a page.
fn fill_page(bytes: &mut Vec<u8>) -> Result<(), AllocError>
    requires { length bytes.old.items < 2 ^ 63 }
    ensures { OnOk result (bytes.new.items ≡ padded bytes.old.items) }
{
    let len = bytes.len();
    bytes.resize(len + pad(len as u64) as usize, 0)
}

/// The new table, filled to a multiple of a page.
fn table_part(
    alloc: Global,
    sources: &Sources<'_>,
    places: Places,
    private: Range,
    news: &[Segment],
) -> Result<Vec<u8>, AllocError>
    requires fits { AllByRecursion (PartFits places.pages_at) sources.now.parts.now }
    ensures { IfOk result (λ v. v.items ≡ padded
        (table (map (with_table places.table_at places.table_len) sources.now.others.items
        ++ in_order (load_entry 4 places.table_at 0x10000 places.table_len
        ∷ load_entry 6 places.private_at private.lo (private.hi - private.lo)
        ∷ (map (part_load places.pages_at) sources.now.parts.now ++ news.now))))) }
{
    let own = table_load(places.table_at, places.table_len);
    let data = private_load(places.private_at, private.lo, private.hi - private.lo);
    let loads = new_loads(alloc, own, data, sources.parts, places.pages_at, news)?;
    let mut bytes = table_bytes(
        alloc,
        &sources.others,
        &loads,
        places.table_at,
        places.table_len,
    )?;
    fill_page(&mut bytes)?;
    Ok(bytes)
}

/// All that the pages are made of: nothing more needs memory.
pub(crate) fn plan_of<'a>(
    alloc: Global,
    file: &'a [u8],
    sources: &Sources<'a>,
    changes: Changes<'a>,
) -> Result<Plan<'a>, AllocError>
    requires frame { IsFrame (frame_in file.now changes) }
    requires pages { AllByRecursion IsCodePage changes.pages.items }
    requires few { count (frame_in file.now changes) ≤ 1024 }
    requires sources { HasSources sources.now (frame_in file.now changes) }
    ensures plan { IfOk result (λ p. IsPlan p) }
    ensures frame { IfOk result (λ p. planned p ≡ frame_in file.now changes.entry) }
{
    let count = sources.count() as u16;
    let (news, table_at) = renewed(alloc, sources.loads, up(file.len() as u64))?;
    let places = places_of(table_at, count, changes.private);
    let table = table_part(alloc, sources, places, changes.private, &news)?;
    let written = index_writes(alloc, changes.writes)?;
    let code = index_code(alloc, changes.built)?;
    let shown = index_pages(alloc, &changes.pages)?;
    Ok(Plan {
        file,
        changes,
        loads: sources.loads,
        news,
        places,
        count,
        table,
        written,
        code,
        shown,
    })
}

impl Plan<'_> {
    /// How many bytes the file has.
    pub(crate) fn len(&self) -> u64
        requires { IsPlan self.now }
        ensures { result ≡ file_len (planned self.now) }
    {
        self.tail_at() + self.changes.tail.bytes.len() as u64
    }

    /// Where the pages behind the group pages begin.
    fn tail_at(&self) -> u64
        requires { IsPlan self.now }
        ensures { result ≡ pages_at (planned self.now) + 4096 * self.now.changes.groups }
    {
        self.places.pages_at + PAGE_LEN as u64 * u64::from(self.changes.groups)
    }

    /// Makes the page that begins at a place of the file.
    pub(crate) fn page_at(&self, at: u64, page: &mut [u8])
        requires plan { IsPlan self.now }
        requires whole { at % 4096 ≡ 0 }
        requires inside { at < file_len (planned self.now) }
        requires page { length page.old ≡ 4096 }
        ensures { page.new ≡ page_at (planned self.now) at }
    {
        if at < self.places.table_at {
            self.front_page(at, page);
        } else if at < self.places.private_at {
            self.table_page(at, page);
        } else if at < self.places.pages_at {
            page.fill(0);
        } else if at < self.tail_at() {
            self.group_page(at, page);
        } else {
            self.tail_page(at, page);
        }
    }

    /// Makes a page in front of the table.
    fn front_page(&self, at: u64, page: &mut [u8])
        requires plan { IsPlan self.now }
        requires whole { at % 4096 ≡ 0 }
        requires page { length page.old ≡ 4096 }
        ensures { page.new ≡ front_page (planned self.now) at }
    {
        original_page(
            page,
            at,
            self.file,
            self.changes.tail.start,
            self.places.table_at,
            self.count,
        );
        put_contents(
            page,
            at,
            self.file,
            self.loads,
            &self.news,
            self.changes.writes,
            &self.written,
        );
    }

    /// Makes a page of the table.
    fn table_page(&self, at: u64, page: &mut [u8])
        requires plan { IsPlan self.now }
        requires whole { at % 4096 ≡ 0 }
        requires first { table_at (planned self.now) ≤ at }
        requires last { at < private_at (planned self.now) }
        requires page { length page.old ≡ 4096 }
        ensures { page.new ≡ slice 4096 (at - table_at (planned self.now))
            (padded (table (entries (planned self.now)))) }
    {
        let first = (at - self.places.table_at) as usize;
        page.copy_from_slice(&self.table[first..first + PAGE_LEN as usize]);
    }

    /// Makes a group page.
    fn group_page(&self, at: u64, page: &mut [u8])
        requires plan { IsPlan self.now }
        requires whole { at % 4096 ≡ 0 }
        requires first { pages_at (planned self.now) ≤ at }
        requires last { at < pages_at (planned self.now) + 4096 * self.now.changes.groups }
        requires page { length page.old ≡ 4096 }
        ensures { page.new ≡ slice 4096 (at - pages_at (planned self.now))
            (planned self.now).body }
    {
        let group = group_at(at, self.places.pages_at, self.changes.groups);
        group_page(
            page,
            group,
            &self.changes.pages,
            &self.shown,
            self.changes.built,
            &self.code,
        );
    }

    /// Makes a page behind the group pages.
    fn tail_page(&self, at: u64, page: &mut [u8])
        requires plan { IsPlan self.now }
        requires whole { at % 4096 ≡ 0 }
        requires first { pages_at (planned self.now) + 4096 * self.now.changes.groups ≤ at }
        requires last { at < file_len (planned self.now) }
        requires page { length page.old ≡ 4096 }
        ensures { page.new ≡ slice 4096 (at - pages_at (planned self.now))
            (planned self.now).body }
    {
        let first = (at - self.tail_at()) as usize;
        page.copy_from_slice(&self.changes.tail.bytes[first..first + PAGE_LEN as usize]);
    }
}
