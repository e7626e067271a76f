//! Indexes: the pieces of code and the writes of each page, and the pages of each group, found without going over all.
ghost use Rattle.std.specs.Prelude.{◌≡◌, ℕ, ◌+◌, ◌/◌, ◌≤◌, Contains, IfOk, OnOk};
ghost use Rattle.std.specs.List.Sorted.{IsStrictlyIncreasing};
ghost use Rattle.elf_emit.specs.Views.{patches_of, pieces_of};
ghost use Rattle.elf_emit.specs.Index.{meets_page, shows, Finds, ArePairsOf, AddsPairs};

use crate::built::Built;
use crate::runs::Page;
use pun_base::limits::PAGE_LEN;
use pun_base::plan::Write;
use std::alloc::{AllocError, Global};

/// A pair of a number and a place is the number times this, and the place, which is less.
pub(crate) const PLACES: u64 = 1 << 32;

/// Appends the pairs of a place under the numbers from one up to and with another.
fn push_pairs(pairs: &mut Vec<u64>, first: u32, last: u32, place: u32) -> Result<(), AllocError>
    ensures { OnOk result (AddsPairs first last place pairs.old.items pairs.new.items) }
{
    for key in u64::from(first)..u64::from(last) + 1 {
        pairs.push(key * PLACES + u64::from(place))?;
    }
    Ok(())
}

/// Sorts pairs, each of which stays once.
fn sort_pairs(pairs: &mut Vec<u64>)
    ensures ascending { IsStrictlyIncreasing pairs.new.items }
    ensures each { (p : ℕ) → Contains pairs.old.items p → Contains pairs.new.items p }
{
    pairs.sort_unstable();
    pairs.dedup();
}

/// The number of the page behind bytes.
fn page_behind(addr: u32, len: usize) -> u32
    requires { len ≤ 4096 }
    ensures { result ≡ (addr + len) / 4096 }
{
    ((u64::from(addr) + len as u64) / PAGE_LEN as u64) as u32
}

/// The index of code by the pages that it meets.
pub(crate) fn index_code(alloc: Global, built: &[Built]) -> Result<Vec<u64>, AllocError>
    ensures { IfOk result (λ v. Finds meets_page (pieces_of built.now) v.items) }
{
    if built.len() > u32::MAX as usize {
        return Err(AllocError);
    }
    let mut pairs = Vec::new(alloc);
    for place in 0..built.len() {
        let piece = &built[place];
        let last = page_behind(piece.place, piece.code.bytes.as_slice().len());
        push_pairs(
            &mut pairs,
            piece.place / PAGE_LEN as u32,
            last,
            place as u32,
        )?;
    }
    sort_pairs(&mut pairs);
    Ok(pairs)
}

/// The index of writes by the pages that they meet.
pub(crate) fn index_writes(alloc: Global, writes: &[Write]) -> Result<Vec<u64>, AllocError>
    ensures { IfOk result (λ v. Finds meets_page (patches_of writes.now) v.items) }
{
    if writes.len() > u32::MAX as usize {
        return Err(AllocError);
    }
    let mut pairs = Vec::new(alloc);
    for place in 0..writes.len() {
        let write = &writes[place];
        let last = page_behind(write.addr, write.now.len());
        push_pairs(&mut pairs, write.addr / PAGE_LEN as u32, last, place as u32)?;
    }
    sort_pairs(&mut pairs);
    Ok(pairs)
}

/// The index of pages by their groups.
pub(crate) fn index_pages(alloc: Global, pages: &[Page]) -> Result<Vec<u64>, AllocError>
    ensures { IfOk result (λ v. Finds shows pages.now v.items) }
{
    if pages.len() > u32::MAX as usize {
        return Err(AllocError);
    }
    let mut pairs = Vec::new(alloc);
    for place in 0..pages.len() {
        let page = &pages[place];
        push_pairs(&mut pairs, page.group, page.group, place as u32)?;
    }
    sort_pairs(&mut pairs);
    Ok(pairs)
}

/// The pairs of a number among ascending ones.
pub(crate) fn pairs_of(pairs: &[u64], key: u32) -> &[u64]
    requires { IsStrictlyIncreasing pairs.now }
    ensures { ArePairsOf key pairs.now result.now }
{
    let first = u64::from(key) * PLACES;
    let last = first + (PLACES - 1);
    let rest = &pairs[pairs.partition_point(|pair| *pair < first)..];
    &rest[..rest.partition_point(|pair| *pair <= last)]
}
