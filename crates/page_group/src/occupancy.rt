//! The occupied offsets of pages.
ghost use Rattle.std.specs.Prelude.{◌≡◌, ℕ, ◌<◌, ◌≤◌, ◌%◌, ◌||◌, false, [], ◌∷◌, length, slice_index, IfOk};
ghost use Rattle.std.specs.List.{slice_index_or};
ghost use Rattle.std.specs.List.Sorted.{IsStrictlyIncreasing};
ghost use Rattle.pun_base.specs.Ranges.{ends};
ghost use Rattle.page_group.specs.declared.offsets.Offsets.{Offsets as OffsetsState};
ghost use Rattle.page_group.specs.Pages.{ends_of, is_occupied, IsPageList};
ghost use Rattle.page_group.specs.Occupancy.{has, AreOccupied};

use crate::offsets::Offsets;
use pun_base::limits::PAGE_LEN;
use pun_base::range::Range;
use std::alloc::{AllocError, Global};

/// How many of ascending pages have lower addresses.
fn count_below(pages: &[u32], addr: u32) -> usize
    requires { IsStrictlyIncreasing pages.now }
    ensures within { result ≤ length pages.now }
    ensures below { (place : ℕ) → place < result → slice_index pages.now place < addr }
    ensures above { (place : ℕ) → result ≤ place → place < length pages.now
        → addr ≤ slice_index pages.now place }
{
    pages.partition_point(|page| *page < addr)
}

/// Adds the bytes of a piece to the offsets of a page.
fn add_to_page(set: &mut Offsets, page: u32, piece: Range)
    requires whole { page % 4096 ≡ 0 }
    requires below { page < piece.hi }
    ensures { (k : ℕ) → has set.new k
        ≡ (is_occupied (ends piece ∷ []) page k || has set.old k) }
{
    let lo = piece.lo.saturating_sub(page);
    let hi = (piece.hi - page).min(PAGE_LEN);
    set.insert_range(lo, hi);
}

/// Adds the bytes of a piece to the offsets of the pages.
fn add_piece(sets: &mut [Offsets], pages: &[u32], piece: Range)
    requires size { length sets.old ≡ length pages.now }
    requires ascending { IsStrictlyIncreasing pages.now }
    requires whole { (place : ℕ) → place < length pages.now
        → slice_index pages.now place % 4096 ≡ 0 }
    ensures { (place k : ℕ) (d : OffsetsState) → place < length pages.now
        → has (slice_index_or sets.new place d) k
        ≡ (is_occupied (ends piece ∷ []) (slice_index pages.now place) k
        || has (slice_index_or sets.old place d) k) }
{
    let first = count_below(pages, piece.lo / PAGE_LEN * PAGE_LEN);
    let end = count_below(pages, piece.hi);
    for place in first..end {
        add_to_page(&mut sets[place], pages[place], piece);
    }
}

/// A set without an offset for each page.
fn empty_sets(alloc: Global, count: usize) -> Result<Vec<Offsets>, AllocError>
    ensures size { IfOk result (λ sets. length sets.items ≡ count) }
    ensures empty { IfOk result (λ sets. (place k : ℕ) (d : OffsetsState) → place < count
        → has (slice_index_or sets.items place d) k ≡ false) }
{
    let mut sets = Vec::with_capacity(alloc, count)?;
    for _ in 0..count {
        sets.push(Offsets::none())?;
    }
    Ok(sets)
}

/// The occupied offsets of each of the pages that meet the pieces.
pub(crate) fn occupied_offsets(
    alloc: Global,
    pieces: &[Range],
    pages: &[u32],
) -> Result<Vec<Offsets>, AllocError>
    requires { IsPageList (ends_of pieces.now) pages.now }
    ensures { IfOk result (λ sets. AreOccupied (ends_of pieces.now) pages.now sets.items) }
{
    let mut sets = empty_sets(alloc, pages.len())?;
    for piece in pieces {
        add_piece(&mut sets, pages, *piece);
    }
    Ok(sets)
}
