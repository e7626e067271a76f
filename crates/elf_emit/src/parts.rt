//! A page of the file from the parts that it lies in.
ghost use Rattle.std.specs.Prelude.{◌≡◌, ◌+◌, ◌%◌, ◌≤◌, ◌⊎◌, ◌==◌, [], ◌∷◌, None, length, IfSome, if◌then◌else◌};
ghost use Rattle.std.specs.List.{AllByRecursion, slice_index_or};
ghost use Rattle.elf_emit.specs.Layout.{slice, rewritten, content, layered, group_page};
ghost use Rattle.elf_emit.specs.Views.{patches_of, pieces_of};
ghost use Rattle.elf_emit.specs.PageByPage.{filled, place_field, count_field, entry_fields, contents};
ghost use Rattle.elf_emit.specs.Index.{meets_page, shows, Finds};
ghost use Rattle.elf_emit.specs.Windows.{IsOverlap, AreHeld, IsHeld, IsCodePage};

use crate::built::Built;
use crate::index::{PLACES, pairs_of};
use crate::overlay::{overlay_code, overlay_writes};
use crate::runs::Page;
use elf_read::header::{E_ENTRY, E_PHNUM, E_PHOFF};
use elf_read::segment::Segment;
use pun_base::field::{put_u16, put_u64};
use pun_base::limits::PAGE_LEN;
use pun_base::plan::Write;

/// At most a page of bytes from a place of a file on.
fn window(file: &[u8], at: u64) -> &[u8]
    ensures part { result.now ≡ slice 4096 at file.now }
    ensures few { length result.now ≤ 4096 }
{
    if at >= file.len() as u64 {
        return &file[..0];
    }
    let rest = &file[at as usize..];
    if rest.len() < PAGE_LEN as usize {
        return rest;
    }
    &rest[..PAGE_LEN as usize]
}

/// Fills a page with the bytes of a file from a place on, and with zeros behind them.
fn copy_page(page: &mut [u8], file: &[u8], at: u64)
    requires { length page.old ≡ 4096 }
    ensures { page.new ≡ filled (slice 4096 at file.now) }
{
    let part = window(file, at);
    page.fill(0);
    page[..part.len()].copy_from_slice(part);
}

/// Puts in the header where the program starts, if that is new and the page has it.
fn put_start(page: &mut [u8], lo: u64, start: Option<u64>)
    requires whole { lo % 4096 ≡ 0 }
    requires page { length page.old ≡ 4096 }
    ensures { page.new ≡ rewritten (entry_fields start) lo page.old }
{
    if let Some(start) = start {
        if lo == 0 {
            put_u64(page, E_ENTRY, start);
        }
    }
}

/// Puts the table's place and its number of entries in the header, where the page has it.
fn put_header(page: &mut [u8], lo: u64, table_at: u64, count: u16)
    requires whole { lo % 4096 ≡ 0 }
    requires page { length page.old ≡ 4096 }
    ensures { page.new ≡ rewritten (place_field table_at ∷ count_field count ∷ []) lo page.old }
{
    if lo == 0 {
        put_u64(page, E_PHOFF, table_at);
        put_u16(page, E_PHNUM, count);
    }
}

/// What a page and a segment's bytes have in common: where it begins in the page and in the segment, and how many bytes
/// it has.
#[derive(Clone, Copy)]
struct Overlap {
    start: usize,
    skip: u64,
    len: usize,
}

/// What `len` bytes from a place `lo` on and `size` bytes from `at` on have in common.
fn overlap_of(lo: u64, len: usize, at: u64, size: u64) -> Option<Overlap>
    ensures some { IfSome result (λ o. IsOverlap lo len at size o.start o.skip o.len) }
    ensures none { result ≡ None → (at + size ≤ lo) ⊎ (lo + len ≤ at) }
{
    if at < lo {
        let skip = lo - at;
        if skip >= size {
            return None;
        }
        let len = (size - skip).min(len as u64) as usize;
        return Some(Overlap {
            start: 0,
            skip,
            len,
        });
    }
    let start = at - lo;
    if start >= len as u64 {
        return None;
    }
    let start = start as usize;
    let len = size.min((len - start) as u64) as usize;
    Some(Overlap {
        start,
        skip: 0,
        len,
    })
}

/// Puts a segment's bytes over a page that begins at `lo`, with what is written, where they begin at `at`.
fn put_content(
    page: &mut [u8],
    lo: u64,
    at: u64,
    file: &[u8],
    segment: &Segment,
    writes: &[Write],
    pairs: &[u64],
)
    requires whole { lo % 4096 ≡ 0 }
    requires page { length page.old ≡ 4096 }
    requires held { IsHeld (length file.now) segment.now at }
    requires found { Finds meets_page (patches_of writes.now) pairs.now }
    ensures { page.new ≡ rewritten (record {
      addr = at;
      now = content (patches_of writes.now) file.now segment.now;
    } ∷ []) lo page.old }
{
    match overlap_of(lo, page.len(), at, segment.filesz) {
        None => {}
        Some(common) => {
            let source = (segment.offset + common.skip) as usize;
            let part = &mut page[common.start..common.start + common.len];
            part.copy_from_slice(&file[source..source + common.len]);
            overlay_writes(part, segment.vaddr + common.skip, writes, pairs);
        }
    }
}

/// Puts the bytes of all segments over a page that begins at `lo`, with what is written, at their new places.
pub(crate) fn put_contents(
    page: &mut [u8],
    lo: u64,
    file: &[u8],
    loads: &[Segment],
    news: &[Segment],
    writes: &[Write],
    pairs: &[u64],
)
    requires whole { lo % 4096 ≡ 0 }
    requires page { length page.old ≡ 4096 }
    requires held { AreHeld (length file.now) loads.now news.now }
    requires found { Finds meets_page (patches_of writes.now) pairs.now }
    ensures { page.new ≡ rewritten (contents (patches_of writes.now) file.now loads.now news.now) lo
        page.old }
{
    let mut place = 0;
    while place < loads.len() && place < news.len() {
        put_content(
            page,
            lo,
            news[place].offset,
            file,
            &loads[place],
            writes,
            pairs,
        );
        place += 1;
    }
}

/// The original's page at `lo`, with where the program starts, if that is new, the table's place and its number of entries in the
/// header.
pub(crate) fn original_page(
    page: &mut [u8],
    lo: u64,
    file: &[u8],
    start: Option<u64>,
    table_at: u64,
    count: u16,
)
    requires whole { lo % 4096 ≡ 0 }
    requires page { length page.old ≡ 4096 }
    ensures { page.new ≡ rewritten (place_field table_at ∷ count_field count ∷ []) lo
        (rewritten (entry_fields start) lo (filled (slice 4096 lo file.now))) }
{
    copy_page(page, file, lo);
    put_start(page, lo, start);
    put_header(page, lo, table_at, count);
}

/// Puts the code of a page that shows this group page.
fn show_page(bytes: &mut [u8], page: Page, group: u32, built: &[Built], code: &[u64])
    requires whole { IsCodePage page }
    requires few { length bytes.old ≤ 4096 }
    requires code { Finds meets_page (pieces_of built.now) code.now }
    ensures { bytes.new ≡ (if page.group == group
        then rewritten (pieces_of built.now) page.addr bytes.old else bytes.old) }
{
    if page.group == group {
        overlay_code(bytes, u64::from(page.addr), built, code);
    }
}

/// Puts the code of the page at a place of the list, if there is one and it shows this group page.
fn show_place(
    bytes: &mut [u8],
    pages: &[Page],
    place: usize,
    group: u32,
    built: &[Built],
    code: &[u64],
)
    requires whole { AllByRecursion IsCodePage pages.now }
    requires few { length bytes.old ≤ 4096 }
    requires code { Finds meets_page (pieces_of built.now) code.now }
    ensures { bytes.new ≡ layered (pieces_of built.now) (slice_index_or pages.now place
        (record { addr = 0; group = group + 1 }) ∷ []) group bytes.old }
{
    if place < pages.len() {
        show_page(bytes, pages[place], group, built, code);
    }
}

/// Puts the code of all pages that show this group page.
fn show_pages(
    bytes: &mut [u8],
    pages: &[Page],
    shown: &[u64],
    group: u32,
    built: &[Built],
    code: &[u64],
)
    requires whole { AllByRecursion IsCodePage pages.now }
    requires few { length bytes.old ≤ 4096 }
    requires shown { Finds shows pages.now shown.now }
    requires code { Finds meets_page (pieces_of built.now) code.now }
    ensures { bytes.new ≡ layered (pieces_of built.now) pages.now group bytes.old }
{
    let first = u64::from(group) * PLACES;
    let part = pairs_of(shown, group);
    for pair in part {
        let place = pair.saturating_sub(first) as usize;
        show_place(bytes, pages, place, group, built, code);
    }
}

/// A group page: the code of all pages that show it, and zeros elsewhere.
#[tactic(auto, unfolding(crate::specs::Layout::group_page))]
pub(crate) fn group_page(
    page: &mut [u8],
    group: u32,
    pages: &[Page],
    shown: &[u64],
    built: &[Built],
    code: &[u64],
)
    requires page { length page.old ≡ 4096 }
    requires whole { AllByRecursion IsCodePage pages.now }
    requires shown { Finds shows pages.now shown.now }
    requires code { Finds meets_page (pieces_of built.now) code.now }
    ensures { page.new ≡ group_page (pieces_of built.now) pages.now group }
{
    page.fill(0);
    show_pages(page, pages, shown, group, built, code);
}
