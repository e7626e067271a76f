//! Ranges of addresses outside of which a rule can't fail.
ghost use Rattle.std.specs.Prelude.{◌≡◌, ◌++◌, ◌∷◌, [], IfOk, None, map};
ghost use Rattle.elf_read.specs.Refusals.{refusal};
ghost use Rattle.elf_read.specs.Entries.{entry_of, loads, segments};
ghost use Rattle.image_check.specs.Parts.{backed_span, start_span, end_span, first_page, last_page, page_first, page_last};
ghost use Rattle.image_check.specs.Parts.{private_span, edge_spans, kind_spans};
ghost use Rattle.image_check.specs.Parts.{file_spans, byte_spans, segment_pages, report_pages, fixed_spans, range_spans};
ghost use Rattle.image_check.specs.Parts.{single_span, option_spans, least_bad};

use crate::site_rule::least_bad;
use crate::span::Span;
use elf_read::elf::Elf;
use elf_read::segment::Segment;
use patch_report::report::Report;
use pun_base::limits::{ORIGINAL_LOW, PAGE_LEN, TABLE_END, TABLE_LOW};
use pun_base::range::Range;
use start_entries::starts::Starts;
use std::alloc::{AllocError, Global};

/// The span of one address.
pub(crate) fn single(addr: u64) -> Span
    ensures { result ≡ single_span addr }
{
    Span {
        first: addr,
        last: addr,
    }
}

/// The bytes that the file has of a segment, and the address after them.
fn backed_span(segment: &Segment) -> Span
    ensures { result ≡ backed_span segment.now }
{
    Span {
        first: segment.vaddr,
        last: segment.vaddr.saturating_add(segment.filesz),
    }
}

/// Where a segment begins.
fn start_span(segment: &Segment) -> Span
    ensures { result ≡ start_span segment.now }
{
    single(segment.vaddr)
}

/// The bytes that the file has of a segment in the private range.
fn private_span(segment: &Segment, private: Range) -> Span
    ensures { result ≡ private_span private.lo private.hi segment.now }
{
    let backed = backed_span(segment);
    Span {
        first: backed.first.max(u64::from(private.lo)),
        last: backed.last.min(u64::from(private.hi)),
    }
}

/// The address after what a segment loads.
fn end_span(segment: &Segment) -> Span
    ensures { result ≡ end_span segment.now }
{
    single(segment.vaddr.saturating_add(segment.memsz))
}

/// Where the first page of a segment begins.
fn first_page(segment: &Segment) -> Span
    ensures { result ≡ first_page segment.now }
{
    single(segment.vaddr / PAGE_LEN as u64 * PAGE_LEN as u64)
}

/// Where the last page of a segment ends.
fn last_page(segment: &Segment) -> Span
    ensures { result ≡ last_page segment.now }
{
    let last = segment
        .vaddr
        .saturating_add(segment.memsz.saturating_sub(1));
    single((last / PAGE_LEN as u64 + 1).saturating_mul(PAGE_LEN as u64))
}

/// Where a page of trampolines begins.
fn page_first(page: &(u32, u32)) -> Span
    ensures { result ≡ page_first page.now }
{
    single(u64::from(page.0))
}

/// Where a page of trampolines ends.
fn page_last(page: &(u32, u32)) -> Span
    ensures { result ≡ page_last page.now }
{
    single(u64::from(page.0) + PAGE_LEN as u64)
}

/// The spans of two lists, the second list's appended to the first.
fn joined(first: Vec<Span>, second: &[Span]) -> Result<Vec<Span>, AllocError>
    ensures { IfOk result (λ v. v.items ≡ first.items ++ second.now) }
{
    let mut spans = first;
    spans.extend_from_slice(second)?;
    Ok(spans)
}

/// The bytes that a file has of each of its segments.
fn backed_spans(alloc: Global, loads: &[Segment]) -> Result<Vec<Span>, AllocError>
    ensures { IfOk result (λ v. v.items ≡ map backed_span loads.now) }
{
    loads.iter().map(backed_span).collect(alloc)
}

/// Where each segment of a file ends.
fn end_spans(alloc: Global, loads: &[Segment]) -> Result<Vec<Span>, AllocError>
    ensures { IfOk result (λ v. v.items ≡ map end_span loads.now) }
{
    loads.iter().map(end_span).collect(alloc)
}

/// Where each segment of a file begins.
fn start_spans(alloc: Global, loads: &[Segment]) -> Result<Vec<Span>, AllocError>
    ensures { IfOk result (λ v. v.items ≡ map start_span loads.now) }
{
    loads.iter().map(start_span).collect(alloc)
}

/// The bytes that a file has of each of its segments in the private range.
fn private_spans(alloc: Global, loads: &[Segment], private: Range) -> Result<Vec<Span>, AllocError>
    ensures { IfOk result (λ v. v.items ≡ map (private_span private.lo private.hi) loads.now) }
{
    loads
        .iter()
        .map(|segment| private_span(segment, private))
        .collect(alloc)
}

/// Where the first page of each segment begins.
fn first_pages(alloc: Global, loads: &[Segment]) -> Result<Vec<Span>, AllocError>
    ensures { IfOk result (λ v. v.items ≡ map first_page loads.now) }
{
    loads.iter().map(first_page).collect(alloc)
}

/// Where the last page of each segment ends.
fn last_pages(alloc: Global, loads: &[Segment]) -> Result<Vec<Span>, AllocError>
    ensures { IfOk result (λ v. v.items ≡ map last_page loads.now) }
{
    loads.iter().map(last_page).collect(alloc)
}

/// Where each page of trampolines begins.
fn page_firsts(alloc: Global, pages: &[(u32, u32)]) -> Result<Vec<Span>, AllocError>
    ensures { IfOk result (λ v. v.items ≡ map page_first pages.now) }
{
    pages.iter().map(page_first).collect(alloc)
}

/// Where each page of trampolines ends.
fn page_lasts(alloc: Global, pages: &[(u32, u32)]) -> Result<Vec<Span>, AllocError>
    ensures { IfOk result (λ v. v.items ≡ map page_last pages.now) }
{
    pages.iter().map(page_last).collect(alloc)
}

/// The spans in which what a file loads can change from one address to the next.
fn file_spans(alloc: Global, elf: &Elf<'_>) -> Result<Vec<Span>, AllocError>
    ensures { IfOk result (λ v. v.items ≡ file_spans elf.now.bytes) }
{
    let ends = end_spans(alloc, elf.loads())?;
    joined(backed_spans(alloc, elf.loads())?, &ends)
}

/// The spans in which what one of two files loads can change, and the least address of all.
pub(crate) fn byte_spans(
    alloc: Global,
    orig: &Elf<'_>,
    patched: &Elf<'_>,
) -> Result<Vec<Span>, AllocError>
    ensures original { refusal 0x10000 orig.now.bytes ≡ None }
    ensures patched { refusal 0x10000 patched.now.bytes ≡ None }
    ensures value { IfOk result (λ v. v.items ≡ byte_spans orig.now.bytes patched.now.bytes) }
{
    let (_was, _now) = (orig.file(), patched.file());
    let mut spans = Vec::new(alloc);
    spans.push(single(0))?;
    let was = file_spans(alloc, orig)?;
    let now = file_spans(alloc, patched)?;
    joined(joined(spans, &was)?, &now)
}

/// Where each segment of a file begins and ends.
fn edge_spans(alloc: Global, elf: &Elf<'_>) -> Result<Vec<Span>, AllocError>
    ensures { IfOk result (λ v. v.items ≡ edge_spans elf.now.bytes) }
{
    let ends = end_spans(alloc, elf.loads())?;
    joined(start_spans(alloc, elf.loads())?, &ends)
}

/// The bytes that a file has of its segments in a report's private range.
fn held_spans(alloc: Global, elf: &Elf<'_>, report: &Report) -> Result<Vec<Span>, AllocError>
    ensures { IfOk result (λ v. v.items ≡ map (private_span report.now.body.private.0
        report.now.body.private.1) (loads (segments elf.now.bytes))) }
{
    private_spans(alloc, elf.loads(), report.private())
}

/// Where segments of two files begin and end, the bytes that the second has in the private range,
/// and the least address of all.
fn kind_spans(
    alloc: Global,
    orig: &Elf<'_>,
    patched: &Elf<'_>,
    report: &Report,
) -> Result<Vec<Span>, AllocError>
    ensures { IfOk result (λ v. v.items ≡ kind_spans orig.now.bytes patched.now.bytes
        report.now.body.private.0 report.now.body.private.1) }
{
    let mut spans = Vec::new(alloc);
    spans.push(single(0))?;
    let was = edge_spans(alloc, orig)?;
    let now = edge_spans(alloc, patched)?;
    let held = held_spans(alloc, patched, report)?;
    joined(joined(joined(spans, &was)?, &now)?, &held)
}

/// Where the pages of a file's segments begin and end.
fn segment_pages(alloc: Global, elf: &Elf<'_>) -> Result<Vec<Span>, AllocError>
    ensures { IfOk result (λ v. v.items ≡ segment_pages elf.now.bytes) }
{
    let ends = last_pages(alloc, elf.loads())?;
    joined(first_pages(alloc, elf.loads())?, &ends)
}

/// Where each page of trampolines begins and ends.
fn report_pages(alloc: Global, report: &Report) -> Result<Vec<Span>, AllocError>
    ensures { IfOk result (λ v. v.items ≡ report_pages report.now.body) }
{
    let ends = page_lasts(alloc, report.pages())?;
    joined(page_firsts(alloc, report.pages())?, &ends)
}

/// The ends of the table's range, where original addresses begin, and the ends of the private range.
fn fixed_spans(report: &Report) -> [Span; 5]
    ensures { result ≡ fixed_spans report.now.body }
{
    let private = report.private();
    [
        single(TABLE_LOW as u64),
        single(TABLE_END as u64),
        single(ORIGINAL_LOW as u64),
        single(u64::from(private.lo)),
        single(u64::from(private.hi)),
    ]
}

/// The spans in which what rule 5 asks can change from one address to the next.
pub(crate) fn range_spans(
    alloc: Global,
    orig: &Elf<'_>,
    patched: &Elf<'_>,
    report: &Report,
) -> Result<Vec<Span>, AllocError>
    ensures original { refusal 0x10000 orig.now.bytes ≡ None }
    ensures patched { refusal 0x10000 patched.now.bytes ≡ None }
    ensures value { IfOk result (λ v. v.items
        ≡ range_spans orig.now.bytes patched.now.bytes report.now.body) }
{
    let (_was, _now) = (orig.file(), patched.file());
    let kinds = kind_spans(alloc, orig, patched, report)?;
    let spans = joined(kinds, &fixed_spans(report))?;
    let pages = report_pages(alloc, report)?;
    let edges = segment_pages(alloc, orig)?;
    joined(joined(spans, &pages)?, &edges)
}

/// The span of an address, if there is one.
fn option_spans(alloc: Global, addr: Option<u64>) -> Result<Vec<Span>, AllocError>
    ensures { IfOk result (λ v. v.items ≡ option_spans addr) }
{
    let mut spans = Vec::new(alloc);
    if let Some(addr) = addr {
        spans.push(single(addr))?;
    }
    Ok(spans)
}

/// The least site of a bad row, the patched entry point, and the first address of the private range.
pub(crate) fn site_spans(
    alloc: Global,
    patched: &Elf<'_>,
    starts: &Starts,
    report: &Report,
) -> Result<Vec<Span>, AllocError>
    ensures { IfOk result (λ v. v.items
        ≡ option_spans (least_bad starts.now None None report.now.body.rows)
        ++ (single_span (entry_of patched.now.bytes)
        ∷ single_span report.now.body.private.0 ∷ [])) }
{
    let mut spans = option_spans(alloc, least_bad(report, starts))?;
    spans.push(single(patched.entry()))?;
    spans.push(single(u64::from(report.private().lo)))?;
    Ok(spans)
}
