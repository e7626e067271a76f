//! Ranges of addresses that are cut where they meet.
ghost use Rattle.std.specs.Prelude.{IfOk};
ghost use Rattle.std.specs.List.Sorted.{IsPermutation, IsNonDecreasingBy};
ghost use Rattle.image_check.specs.Parts.{HaveAll, IsCut};

use crate::span::Span;
use std::alloc::{AllocError, Global};

/// The rest of a span from `next` on, if there is any.
fn cut(span: Span, next: u64) -> Option<Span>
    ensures { IsCut span next result }
{
    if span.last < next {
        return None;
    }
    Some(Span {
        first: span.first.max(next),
        last: span.last,
    })
}

/// Spans sorted by their first addresses.
fn by_first(alloc: Global, spans: &[Span]) -> Result<Vec<Span>, AllocError>
    ensures moved { IfOk result (λ v. IsPermutation spans.now v.items) }
    ensures rises { IfOk result (λ v. IsNonDecreasingBy (λ s. s.first) v.items) }
{
    let mut sorted = spans.to_vec(alloc)?;
    sorted.sort_by_key(|span| span.first)?;
    Ok(sorted)
}

/// Ascending spans cut where they meet.
fn cut_apart(alloc: Global, spans: &[Span]) -> Result<Vec<Span>, AllocError>
    requires { IsNonDecreasingBy (λ s. s.first) spans.now }
    ensures { IfOk result (λ v. HaveAll v.items spans.now) }
{
    let mut parts = Vec::new(alloc);
    let mut next = 0;
    for span in spans {
        if let Some(part) = cut(*span, next) {
            parts.push(part)?;
            next = part.last.saturating_add(1);
        }
    }
    Ok(parts)
}

/// The addresses of spans in ascending spans that don't meet, but for the greatest address of all.
pub(crate) fn apart(alloc: Global, spans: &[Span]) -> Result<Vec<Span>, AllocError>
    ensures { IfOk result (λ v. HaveAll v.items spans.now) }
{
    let sorted = by_first(alloc, spans)?;
    cut_apart(alloc, &sorted)
}
