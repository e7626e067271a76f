//! What is asked before the first turn.
ghost use Rattle.std.specs.Prelude.{◌≡◌, ◌+◌, ◌≤◌, None, map, IfOk};
ghost use Rattle.pun_base.specs.Actions.{IsAction};
ghost use Rattle.pun_base.specs.Limits.{most_sites, most_private_pages};
ghost use Rattle.elf_read.specs.Refusals.{refusal};
ghost use Rattle.elf_read.specs.Entries.{segments};
ghost use Rattle.address_space.specs.Free.{whole_pages};
ghost use Rattle.site_turns.specs.Planning.{first_unlisted};
ghost use Rattle.site_turns.specs.PrivateRange.{pages_of, taken_first, pages_for};
ghost use Rattle.site_turns.specs.Turned.{HasSameFree};

use address_space::space::Space;
use elf_read::elf::Elf;
use elf_read::segment::Segment;
use pun_base::action::Action;
use pun_base::limits::PAGE_LEN;
use pun_base::range::Range;
use start_entries::starts::Starts;
use std::alloc::{AllocError, Global};

/// The first site that is no start.
pub(crate) fn unlisted(starts: &Starts, sites: &[u32]) -> Option<u32>
    ensures { result ≡ first_unlisted starts.now sites.now }
{
    for site in sites {
        if starts.at(*site).is_none() {
            return Some(*site);
        }
    }
    None
}

/// The addresses of a segment in memory.
fn range_of(segment: &Segment) -> Range
    requires some { 1 ≤ segment.now.memsz }
    requires high { segment.now.vaddr + segment.now.memsz ≤ 0x7FFF0000 }
    ensures { whole_pages result ≡ pages_of segment.now.vaddr segment.now.memsz }
{
    let lo = segment.vaddr as u32;
    Range {
        lo,
        hi: lo + segment.memsz as u32,
    }
}

/// What is taken before the private range is: where the original is loaded, and what is reserved.
pub fn taken_ranges(
    alloc: Global,
    elf: &Elf<'_>,
    reserves: &[Range],
) -> Result<Vec<Range>, AllocError>
    ensures accepted { IfOk result (λ _. refusal 0x10000 elf.now.bytes ≡ None) }
    ensures taken { IfOk result (λ ranges. map whole_pages ranges.items
        ≡ taken_first (segments elf.now.bytes) reserves.now) }
{
    let mut taken = Vec::new(alloc);
    for segment in elf.loads() {
        taken.push(range_of(segment))?;
    }
    taken.extend_from_slice(reserves)?;
    Ok(taken)
}

/// The addresses that are free before the private range is taken.
pub(crate) fn free_space(
    alloc: Global,
    elf: &Elf<'_>,
    reserves: &[Range],
) -> Result<Space, AllocError>
    ensures accepted { IfOk result (λ _. refusal 0x10000 elf.now.bytes ≡ None) }
    ensures free { IfOk result (λ space. HasSameFree space.taken
        (taken_first (segments elf.now.bytes) reserves.now)) }
{
    let taken = taken_ranges(alloc, elf, reserves)?;
    Space::new(alloc, &taken)
}

/// How many pages hold what an action keeps for so many sites.
pub(crate) fn pages_for(action: Action, sites: u32) -> u32
    requires action { IsAction action }
    requires sites { sites ≤ most_sites }
    ensures value { result ≡ pages_for action sites }
    ensures some { 1 ≤ result }
    ensures few { result ≤ most_private_pages }
{
    (action.private_len(sites) as u32).div_ceil(PAGE_LEN)
}
