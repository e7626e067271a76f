//! Groups of pages.
ghost use Rattle.std.specs.Prelude.{◌≡◌, ◌+◌, ◌<◌, ◌↔◌, IfOk, IfSome, IsSome, IsTrue, length};
ghost use Rattle.std.specs.List.{zip};
ghost use Rattle.page_group.specs.Pages.{ends_of, is_covered, is_occupied, AreDisjoint, MeetsPage};
ghost use Rattle.page_group.specs.Grouping.{pages, group_of, group_count, depth_of, IsGrouping};
ghost use Rattle.page_group.specs.Joining.{IsKept};

use crate::found_pages::found_pages;
use crate::joining::{count_groups, count_pages, join_pages};
use pun_base::limits::PAGE_LEN;
use pun_base::range::Range;
use std::alloc::{AllocError, Global};
use std::marker::Model;

/// Pieces of memory, and the group of each page that meets a piece. The pages of a group share a page of the file.
///
/// A page is named by its address, a multiple of 4,096: of another number, `file_page_of` answers `None`.
#[derive(Drop)]
pub struct Groups {
    pieces: Vec<Range>,
    pages: Vec<u32>,
    homes: Vec<u32>,
    count: u32,
}

impl Model for Groups {
    ghost use Rattle.std.specs.Prelude.{◌≡◌, ◌<◌, ◌^◌, length};
    ghost use Rattle.std.specs.List.{zip};
    ghost use Rattle.page_group.specs.Pages.{ends_of};
    ghost use Rattle.page_group.specs.Grouping.{GroupsState};
    ghost use Rattle.page_group.specs.Joining.{IsKept};

    ghost Value = { GroupsState };

    ghost view = { λ g.
        record { pieces = ends_of g.pieces.items; homes = zip g.pages.items g.homes.items } };

    ghost invariant = { λ g. IsKept (ends_of g.pieces.items) g.pages.items g.homes.items g.count };
}

/// Whether each piece begins at or behind the end of the one before it, so that none meet.
pub fn ascend(pieces: &[Range]) -> bool
    ensures { IsTrue result → AreDisjoint (ends_of pieces.now) }
{
    let mut end = 0;
    for piece in pieces {
        if piece.lo < end {
            return false;
        }
        end = piece.hi;
    }
    true
}

/// Groups the pages that meet the pieces: in ascending order each joins the first group whose pages
/// so far have no occupied offset in common with it.
pub fn group(alloc: Global, pieces: &[Range]) -> Result<Groups, AllocError>
    requires disjoint { AreDisjoint (ends_of pieces.now) }
    ensures pieces { IfOk result (λ g. g.pieces ≡ ends_of pieces.now) }
    ensures grouping { IfOk result (λ g. IsGrouping g.pieces g.homes) }
{
    group_owned(alloc, pieces.to_vec(alloc)?)
}

/// Groups the pages that meet the pieces, which are taken over and not copied.
pub fn group_owned(alloc: Global, pieces: Vec<Range>) -> Result<Groups, AllocError>
    requires disjoint { AreDisjoint (ends_of pieces.items) }
    ensures pieces { IfOk result (λ g. g.pieces ≡ ends_of pieces.items) }
    ensures grouping { IfOk result (λ g. IsGrouping g.pieces g.homes) }
{
    let (pages, homes, count) = group_pages(alloc, &pieces)?;
    let groups = Groups {
        pieces,
        pages,
        homes,
        count,
    };
    groups.keeps();
    Ok(groups)
}

/// The pages that meet the pieces, the group of each, and how many groups there are.
fn group_pages(alloc: Global, pieces: &[Range]) -> Result<(Vec<u32>, Vec<u32>, u32), AllocError>
    requires { AreDisjoint (ends_of pieces.now) }
    ensures { IfOk result (λ kept. IsKept (ends_of pieces.now) kept.0.items kept.1.items kept.2) }
{
    let pages = found_pages(alloc, pieces)?;
    let homes = join_pages(alloc, pieces, &pages)?;
    let count = count_groups(&homes);
    Ok((pages, homes, count))
}

/// Each page with its group.
fn zipped(alloc: Global, pages: &[u32], groups: &[u32]) -> Result<Vec<(u32, u32)>, AllocError>
    requires { length pages.now ≡ length groups.now }
    ensures { IfOk result (λ v. v.items ≡ zip pages.now groups.now) }
{
    let mut homes = Vec::with_capacity(alloc, pages.len())?;
    for place in 0..pages.len() {
        homes.push((pages[place], groups[place]))?;
    }
    Ok(homes)
}

impl Groups {
    /// What is kept is a grouping.
    fn keeps(&self)
        ensures { IsGrouping self.now.pieces self.now.homes }
    {
        let _pieces = &self.pieces;
    }

    /// The number of groups.
    pub fn count(&self) -> u32
        ensures { result ≡ group_count self.now.homes }
    {
        self.count
    }

    /// The addresses of the pages that meet a piece, in ascending order.
    pub fn pages(&self) -> &[u32]
        ensures value { result.now ≡ pages self.now.homes }
        ensures grouping { IsGrouping self.now.pieces self.now.homes }
    {
        self.keeps();
        &self.pages
    }

    /// The pages that meet a piece, in ascending order, each with its group.
    pub fn homes(&self, alloc: Global) -> Result<Vec<(u32, u32)>, AllocError>
        ensures homes { IfOk result (λ v. v.items ≡ self.now.homes) }
        ensures grouping { IsGrouping self.now.pieces self.now.homes }
    {
        self.keeps();
        zipped(alloc, &self.pages, &self.homes)
    }

    /// The group of the page at the address `page`, counted from 0: the file keeps one page for each group, in this order.
    pub fn file_page_of(&self, page: u32) -> Option<u32>
        ensures value { result ≡ group_of self.now.homes page }
        ensures meets { IsSome result ↔ MeetsPage self.now.pieces page }
        ensures below { IfSome result (λ group. group < group_count self.now.homes) }
    {
        match self.pages.binary_search(&page) {
            Ok(place) => Some(self.homes[place]),
            Err(_) => None,
        }
    }

    /// Whether a piece covers the byte at an offset in the page at the address `page`: not where `page` is no page's
    /// address, or where `offset` is 4,096 or more.
    pub fn occupied(&self, page: u32, offset: u32) -> bool
        ensures { result ≡ is_occupied self.now.pieces page offset }
    {
        page % PAGE_LEN == 0
            && offset < PAGE_LEN
            && self.covers(u64::from(page) + u64::from(offset))
    }

    /// Whether a piece covers the byte at an address.
    fn covers(&self, byte: u64) -> bool
        ensures { result ≡ is_covered self.now.pieces byte }
    {
        self.pieces.iter().any(|piece| u64::from(piece.lo) <= byte && byte < u64::from(piece.hi))
    }

    /// The number of pages of a group, which is 0 for a number at or above `count`.
    pub fn depth(&self, group: u32) -> u32
        ensures { result ≡ depth_of self.now.homes group }
    {
        count_pages(&self.homes, group) as u32
    }
}
