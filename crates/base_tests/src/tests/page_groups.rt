//! What the groups of pages tell of each page and byte, which no command shows; and a piece that is longer than any event's.
use page_group::groups::{Groups, ascend, group};
use pun_base::range::Range;
use std::alloc::Global;
use std::test::Fail;

/// Pieces by their ends: one of sixteen bytes across the end of a page, of three pages at offsets that meet and that don't, and a long one.
const ACROSS: &[(u32, u32)] = &[(0x21FF8, 0x22008)];

const THREE: &[(u32, u32)] = &[(0x30008, 0x30014), (0x31005, 0x31015), (0x32014, 0x32018)];

const LONG: &[(u32, u32)] = &[(0x40FFF, 0x42001)];

/// The groups of pieces that ascend.
fn groups_of(alloc: Global, pieces: &[(u32, u32)]) -> Result<Groups, Fail> {
    let mut ranges = Vec::new(alloc);
    for &(lo, hi) in pieces {
        if lo < hi {
            ranges.push(Range { lo, hi })?;
        }
    }
    if !ascend(&ranges) {
        return Err("pieces ascend".into());
    }
    Ok(group(alloc, &ranges)?)
}

/// Pieces, a page, and its group, if it has one.
const PAGES: [(&[(u32, u32)], u32, Option<u32>); 12] = [
    (&[], 0x21000, None),
    (ACROSS, 0x20000, None),
    (ACROSS, 0x21000, Some(0)),
    (ACROSS, 0x21008, None),
    (ACROSS, 0x22000, Some(0)),
    (ACROSS, 0x23000, None),
    (THREE, 0x30000, Some(0)),
    (THREE, 0x31000, Some(1)),
    (THREE, 0x32000, Some(0)),
    (LONG, 0x40000, Some(0)),
    (LONG, 0x41000, Some(1)),
    (LONG, 0x42000, Some(0)),
];

#[test]
fn pages_have_their_groups(rt: HostRuntime) -> Result<(), Fail> {
    for &(pieces, page, wanted) in &PAGES {
        let groups = groups_of(rt.alloc(), pieces)?;
        assert_eq!(rt; groups.file_page_of(page), wanted, "{page:x}");
    }
    Ok(())
}

/// Pieces, how many groups there are, and how many pages the first two have.
const DEPTHS: [(&[(u32, u32)], u32, u32, u32); 4] = [
    (&[], 0, 0, 0),
    (ACROSS, 1, 2, 0),
    (THREE, 2, 2, 1),
    (LONG, 2, 2, 1),
];

#[test]
fn groups_have_their_pages(rt: HostRuntime) -> Result<(), Fail> {
    for &(pieces, count, first, second) in &DEPTHS {
        let groups = groups_of(rt.alloc(), pieces)?;
        assert_eq!(rt; groups.count(), count);
        assert_eq!(rt; groups.depth(0), first);
        assert_eq!(rt; groups.depth(1), second);
        assert_eq!(rt; groups.depth(count), 0);
    }
    Ok(())
}

/// A page, an offset, and whether the byte is one of the piece across the end of a page; the last two are no offset in a page, and no
/// page's address.
const BYTES: [(u32, u32, bool); 7] = [
    (0x21000, 0xFF7, false),
    (0x21000, 0xFF8, true),
    (0x22000, 0, true),
    (0x22000, 7, true),
    (0x22000, 8, false),
    (0x21000, 0x1000, false),
    (0x21FF8, 0, false),
];

#[test]
fn bytes_are_occupied(rt: HostRuntime) -> Result<(), Fail> {
    let groups = groups_of(rt.alloc(), ACROSS)?;
    for &(page, offset, occupied) in &BYTES {
        assert_eq!(rt; groups.occupied(page, offset), occupied, "{page:x}");
    }
    Ok(())
}
