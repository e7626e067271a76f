//! Ranges of addresses.
ghost use Rattle.std.specs.Prelude.{◌≡◌, ◌≤◌, ℕ, OnOk};
ghost use Rattle.image_check.specs.Parts.{unless};

use std::alloc::AllocError;

/// The addresses from `first` to `last`, both among them; none where `last` is below `first`.
#[derive(Clone, Copy, Debug, PartialEq, Eq)]
pub struct Span {
    pub first: u64,
    pub last: u64,
}

/// Appends a span unless what the span is for is known to hold.
pub(crate) fn push_unless(holds: bool, span: Span, spans: &mut Vec<Span>) -> Result<(), AllocError>
    ensures { OnOk result (spans.new.items ≡ unless holds span spans.old.items) }
{
    if holds {
        return Ok(());
    }
    spans.push(span)?;
    Ok(())
}

/// The greater of two addresses.
pub(crate) fn farther(one: u64, other: u64) -> u64
    ensures one { one ≤ result }
    ensures other { other ≤ result }
{
    one.max(other)
}

/// The lesser of two addresses.
pub(crate) fn nearer(one: u64, other: u64) -> u64
    ensures one { result ≤ one }
    ensures other { result ≤ other }
    ensures least { (low : ℕ) → low ≤ one → low ≤ other → low ≤ result }
{
    if one < other { one } else { other }
}
