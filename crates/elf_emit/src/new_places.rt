//! Which segments are moved, and where.
ghost use Rattle.std.specs.Prelude.{◌≡◌, ◌+◌, ◌-◌, ◌^◌, ◌<◌, ◌++◌, [], ◌∷◌, IfOk, OnOk};
ghost use Rattle.std.specs.List.{list_any};
ghost use Rattle.elf_emit.specs.Layout.{shares, is_moved, pad, up, renewed};
ghost use Rattle.elf_emit.specs.PageByPage.{moved_len};

use elf_read::header::HEADER_LEN;
use elf_read::segment::Segment;
use pun_base::limits::PAGE_LEN;
use std::alloc::{AllocError, Global};

/// How many bytes there are from a length up to a multiple of a page.
pub(crate) fn pad(len: u64) -> u64
    ensures { result ≡ pad len }
{
    let page = PAGE_LEN as u64;
    (page - len % page) % page
}

/// The multiple of a page that comes first from a length on.
pub(crate) fn up(len: u64) -> u64
    requires { len < 2 ^ 64 - 4096 }
    ensures { result ≡ up len }
{
    len + pad(len)
}

/// Whether another segment has a byte of the file that this one has too.
fn shares(segment: &Segment, other: &Segment) -> bool
    ensures { result ≡ shares segment.now other.now }
{
    let end = u128::from(segment.offset) + u128::from(segment.filesz);
    let other_end = u128::from(other.offset) + u128::from(other.filesz);
    other.vaddr != segment.vaddr
        && other.filesz > 0
        && u128::from(segment.offset) < other_end
        && u128::from(other.offset) < end
}

/// Whether another of the nonempty PT_LOADs has a byte of the file that this one has too.
fn shares_any(loads: &[Segment], segment: &Segment) -> bool
    ensures { result ≡ list_any (shares segment.now) loads.now }
{
    loads.iter().any(|other| shares(segment, other))
}

/// Whether a segment's bytes in the file meet the header's or those of another of the nonempty PT_LOADs.
#[tactic(auto, unfolding(crate::specs::Layout::is_moved))]
fn is_moved(loads: &[Segment], segment: &Segment) -> bool
    ensures { result ≡ is_moved loads.now segment.now }
{
    segment.filesz > 0 && (segment.offset < HEADER_LEN as u64 || shares_any(loads, segment))
}

/// Appends a segment with its place in the new file, and gives the place for the next one that is moved.
fn push_renewed(
    loads: &[Segment],
    segment: &Segment,
    at: u64,
    segments: &mut Vec<Segment>,
) -> Result<u64, AllocError>
    requires low { at + moved_len loads.now (segment.now ∷ []) < 2 ^ 64 - 4096 }
    ensures next { IfOk result (λ next. next ≡ at + moved_len loads.now (segment.now ∷ [])) }
    ensures segments { OnOk result (segments.new.items
        ≡ segments.old.items ++ renewed loads.now at (segment.now ∷ [])) }
{
    if !is_moved(loads, segment) {
        segments.push(*segment)?;
        return Ok(at);
    }
    let first = segment.vaddr % PAGE_LEN as u64;
    segments.push(Segment {
        offset: at + first,
        ..*segment
    })?;
    Ok(at + up(first + segment.filesz))
}

/// The nonempty PT_LOADs with their places in the new file, in which those that are moved begin at `at`, and where
/// they end.
pub(crate) fn renewed(
    alloc: Global,
    loads: &[Segment],
    at: u64,
) -> Result<(Vec<Segment>, u64), AllocError>
    requires low { at + moved_len loads.now loads.now < 2 ^ 64 - 4096 }
    ensures segments { IfOk result (λ r. r.0.items ≡ renewed loads.now at loads.now) }
    ensures end { IfOk result (λ r. r.1 ≡ at + moved_len loads.now loads.now) }
{
    let mut segments = Vec::new(alloc);
    let mut end = at;
    for segment in loads {
        end = push_renewed(loads, segment, end, &mut segments)?;
    }
    Ok((segments, end))
}
