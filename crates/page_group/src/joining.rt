//! Pages join groups.
ghost use Rattle.std.specs.Prelude.{◌≡◌, ℕ, ◌<◌, ◌≤◌, ◌^◌, ◌==◌, count_by, length, IfOk, OnOk};
ghost use Rattle.std.specs.List.{slice_index_or};
ghost use Rattle.page_group.specs.declared.offsets.Offsets.{Offsets as OffsetsState};
ghost use Rattle.page_group.specs.Pages.{ends_of, IsPageList};
ghost use Rattle.page_group.specs.Occupancy.{ShareOffset};
ghost use Rattle.page_group.specs.Joining.{AreJoined, IsAddedTo, IsStart, bound_of};

use crate::occupancy::occupied_offsets;
use crate::offsets::Offsets;
use pun_base::limits::PAGE_LEN;
use pun_base::range::Range;
use std::alloc::{AllocError, Global};

/// Where the search for the group of a page begins: at the group of an earlier page whose offsets
/// this page has too, and else at the first group.
fn first_tried(sets: &[Offsets], joined: &[u32], earlier: usize, offsets: &Offsets) -> usize
    requires { length joined.now ≤ length sets.now }
    ensures { IsStart sets.now joined.now offsets.now result }
{
    if earlier < joined.len() && sets[earlier].is_within(offsets) {
        joined[earlier] as usize
    } else {
        0
    }
}

/// The first group whose pages have none of a page's offsets; the one behind the last where there
/// is none. Each group before `start` has one of them.
fn first_open(groups: &[Offsets], offsets: &Offsets, start: usize) -> usize
    requires start { start ≤ length groups.now }
    requires met { (group : ℕ) (d : OffsetsState) → group < start
        → ShareOffset (slice_index_or groups.now group d) offsets.now }
    ensures within { result ≤ length groups.now }
    ensures open { (d : OffsetsState) → result < length groups.now
        → ShareOffset (slice_index_or groups.now result d) offsets.now → ⊥ }
    ensures met { (group : ℕ) (d : OffsetsState) → group < result
        → ShareOffset (slice_index_or groups.now group d) offsets.now }
{
    let (first, end) = offsets.span();
    for group in start..groups.len() {
        if !groups[group].meets(offsets, first, end) {
            return group;
        }
    }
    groups.len()
}

/// Adds a page's offsets to those of a group, or makes it the group behind the last.
fn add_to(groups: &mut Vec<Offsets>, group: usize, offsets: &Offsets) -> Result<(), AllocError>
    requires { group ≤ length groups.old.items }
    ensures { OnOk result (IsAddedTo group offsets.now groups.old.items groups.new.items) }
{
    if group < groups.len() {
        groups[group].join(offsets);
    } else {
        groups.push(*offsets)?;
    }
    Ok(())
}

/// The group of each page that meets a piece, in the order of the pages.
pub(crate) fn join_pages(
    alloc: Global,
    pieces: &[Range],
    pages: &[u32],
) -> Result<Vec<u32>, AllocError>
    requires listed { IsPageList (ends_of pieces.now) pages.now }
    requires fits { length pages.now < 2 ^ 32 }
    ensures { IfOk result (λ joined. AreJoined (ends_of pieces.now) pages.now joined.items) }
{
    let sets = occupied_offsets(alloc, pieces, pages)?;
    let mut groups = Vec::new(alloc);
    let mut joined = Vec::with_capacity(alloc, pages.len())?;
    // by its least offset, the last page
    let mut latest = vec![in alloc; 0u32; PAGE_LEN as usize]?;
    for offsets in &sets {
        let least = offsets.lowest();
        let start = first_tried(&sets, &joined, latest[least] as usize, offsets);
        let group = first_open(&groups, offsets, start);
        add_to(&mut groups, group, offsets)?;
        latest[least] = joined.len() as u32;
        joined.push(group as u32)?;
    }
    Ok(joined)
}

/// The least number above each of the groups.
pub(crate) fn count_groups(groups: &[u32]) -> u32
    requires { bound_of groups.now < 2 ^ 32 }
    ensures { result ≡ bound_of groups.now }
{
    let mut count = 0;
    for group in groups {
        count = count.max(*group + 1);
    }
    count
}

/// How many of the groups of pages are one group.
pub(crate) fn count_pages(groups: &[u32], group: u32) -> usize
    ensures { result ≡ count_by (λ other. other == group) groups.now }
{
    groups.iter().filter(|other| **other == group).count()
}
