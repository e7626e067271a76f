use crate::tests::search_table::SEARCHES;
use address_space::marks::next_marked;
use address_space::space::Space;
use pun_base::range::Range;
use std::alloc::{AllocError, Global};
use std::test::Fail;

/// The program of two pages at 0x400000.
const PROGRAM: Range = Range {
    lo: 0x400000,
    hi: 0x402000,
};

/// The ranges of `SEARCHES`. Taken are the pages 0x21, 0x22, 0x24, 0x26, 0x27, two pages below the last one that can be
/// free, and the last page of all.
const TAKEN: [Range; 5] = [
    Range {
        lo: 0x21F80,
        hi: 0x22010,
    },
    Range {
        lo: 0x24000,
        hi: 0x25000,
    },
    Range {
        lo: 0x26FFF,
        hi: 0x27001,
    },
    Range {
        lo: 0x7FFED123,
        hi: 0x7FFEE001,
    },
    Range {
        lo: 0xFFFFFFF0,
        hi: 0xFFFFFFFF,
    },
];

#[test]
fn fits_beside_a_program(rt: HostRuntime) -> Result<(), Fail> {
    let space = Space::new(rt.alloc(), &[PROGRAM])?;
    assert_eq!(rt;
        space.least_fit(0x3FFFF0, 0x500000, 0x20, None),
        Some(0x402000)
    );
    assert_eq!(rt;
        space.least_fit_step(0x3FFF05, 0x500000, 0x100, 0xFC, None),
        Some(0x402005)
    );
    Ok(())
}

fn range(ends: (u32, u32)) -> Option<Range> {
    let (lo, hi) = ends;
    if lo < hi {
        Some(Range { lo, hi })
    } else {
        None
    }
}

#[test]
fn searches(rt: HostRuntime) -> Result<(), Fail> {
    let space = Space::new(rt.alloc(), &TAKEN)?;
    for &(lo, hi, step, size, avoid, found) in &SEARCHES {
        let (step, size) = (step.max(1), size.max(1));
        assert_eq!(rt;
            space.least_fit_step(lo, hi, step, size, range(avoid)),
            found
        );
        if step == 1 {
            assert_eq!(rt; space.least_fit(lo, hi, size, range(avoid)), found);
        }
    }
    Ok(())
}

/// Windows by their step and width, sizes, and what is found with the ranges of `TAKEN`, worked out by hand.
const NEAR_SEARCHES: [(i64, i64, u64, u64, u32, Option<u32>); 8] = [
    (0x1F80, 0x30000, 0x3000, 0x100, 0x10, Some(0x20000)),
    (0x21F80, 0x30000, 0x1000, 0x80, 0x10, Some(0x23F80)),
    (0x21F80, 0x30000, 0x1000, 0x81, 0x10, Some(0x23000)),
    (-0x10, 0x40000, 0x10000, 0x11, 4, Some(0x20000)),
    (-0x10, 0x40000, 0x10000, 0x10, 4, Some(0x2FFF0)),
    (0x20FF8, 0x23000, 0x1000, 0x10, 0x10, None),
    (0x20FF8, 0x23001, 0x1000, 0x10, 0x10, Some(0x23000)),
    (0x20FF8, 0x23001, 0x1000, 0x10, 0x1001, None),
];

#[test]
fn searches_near_steps(rt: HostRuntime) -> Result<(), Fail> {
    let space = Space::new(rt.alloc(), &TAKEN)?;
    for &(lo, hi, step, width, size, found) in &NEAR_SEARCHES {
        let (step, width) = (step.clamp(1, 1 << 32), width.clamp(1, 0x20000));
        assert_eq!(rt;
            space.least_fit_near(lo, hi, step, width, size.max(1)),
            found
        );
    }
    Ok(())
}

/// Windows, sizes, and of the distances from the window's begin, modulo 256, the first marked one from another one on, or 256.
const MARKED_DISTANCES: [(i64, i64, u32, usize, usize); 11] = [
    (0x20F10, 0x21000, 0x10, 0, 0),
    (0x20F10, 0x21000, 0x10, 0xE0, 0xE0),
    (0x20F10, 0x21000, 0x10, 0xE1, 256),
    (0x20FF8, 0x23001, 0x10, 0, 8),
    (0x20FF8, 0x23001, 0x10, 9, 256),
    (-0x10, 0x20001, 1, 0, 0x10),
    (-0x10, 0x20001, 1, 0x11, 256),
    (0x22F10, 0x23020, 4, 0xF, 0xF),
    (0x22F10, 0x23020, 4, 0x10, 0xF0),
    (0x20000, 0x20100, 1, 0xFF, 0xFF),
    (0x20000, 0x23000, 0x1001, 0, 256),
];

#[test]
fn marks_free_places(rt: HostRuntime) -> Result<(), Fail> {
    let space = Space::new(rt.alloc(), &TAKEN)?;
    for &(lo, hi, size, from, next) in &MARKED_DISTANCES {
        let mut words = [0; 4];
        space.mark_places(lo, hi, 256, size.max(1), &mut words);
        assert_eq!(rt; next_marked(&words, from.min(256), 256), next);
    }
    Ok(())
}

/// Takes the least place of a window where so many addresses are free.
fn taken(
    space: &mut Space,
    alloc: Global,
    lo: i64,
    hi: i64,
    size: u32,
) -> Result<Option<u32>, AllocError> {
    space.reserve(alloc, 1)?;
    let found = space.least_fit(lo, hi, size.max(1), None);
    if let Some(lo) = found {
        space.take(Range {
            lo,
            hi: lo + size.max(1),
        });
    }
    Ok(found)
}

#[test]
fn what_is_taken_is_no_longer_free(rt: HostRuntime) -> Result<(), Fail> {
    let mut space = Space::new(rt.alloc(), &TAKEN)?;
    for &(lo, hi, size, found) in &TURNS {
        assert_eq!(rt; taken(&mut space, rt.alloc(), lo, hi, size)?, found);
    }
    Ok(())
}

/// The ends of one range that is taken, nothing where they are equal, a number of pages, and the first run of so many: the page at
/// 0x20000; all but the last page that can be free, and one address more; all addresses but the last.
const FREE_PAGES: [((u32, u32), u32, Option<u32>); 11] = [
    ((0, 0), 1, Some(0x20000)),
    ((0, 0), 0x7FFD0, Some(0x20000)),
    ((0, 0), 0x7FFD1, None),
    ((0, 0), 0xFFFFFFFF, None),
    ((0x20FFF, 0x21000), 1, Some(0x21000)),
    ((0x20FFF, 0x21000), 0x7FFCF, Some(0x21000)),
    ((0x20FFF, 0x21000), 0x7FFD0, None),
    ((0x20000, 0x7FFEF000), 1, Some(0x7FFEF000)),
    ((0x20000, 0x7FFEF000), 2, None),
    ((0x20000, 0x7FFEF001), 1, None),
    ((0, 0xFFFFFFFF), 1, None),
];

/// Numbers of pages, and the first run of so many among what `TAKEN` leaves free.
const FREE_BESIDE: [(u32, Option<u32>); 4] = [
    (1, Some(0x20000)),
    (2, Some(0x28000)),
    (0x7FFC5, Some(0x28000)),
    (0x7FFC6, None),
];

#[test]
fn free_pages(rt: HostRuntime) -> Result<(), Fail> {
    for &(ends, pages, found) in &FREE_PAGES {
        let mut taken = Vec::new(rt.alloc());
        if let Some(range) = range(ends) {
            taken.push(range)?;
        }
        let space = Space::new(rt.alloc(), &taken)?;
        assert_eq!(rt; space.least_pages(pages.max(1)), found);
    }
    let space = Space::new(rt.alloc(), &TAKEN)?;
    for &(pages, found) in &FREE_BESIDE {
        assert_eq!(rt; space.least_pages(pages.max(1)), found);
    }
    Ok(())
}

/// Windows and sizes in turn, each place taken when it is found: found by the same program, which keeps a set of what was taken.
const TURNS: [(i64, i64, u32, Option<u32>); 13] = [
    (0x20000, 0x21000, 0x40, Some(0x20000)),
    (0x20000, 0x21000, 0x10, Some(0x20040)),
    (0x20020, 0x21000, 0x1, Some(0x20050)),
    (0x20F00, 0x24000, 0xFF, Some(0x20F00)),
    (0x20F00, 0x24000, 0x2, Some(0x23000)),
    (0x20F00, 0x24000, 0x1, Some(0x20FFF)),
    (0x20F00, 0x24000, 0x2, Some(0x23002)),
    (0x20000, 0x21000, 0xE00, Some(0x20051)),
    (0x20000, 0x21000, 0xB1, None),
    (0x20000, 0x21000, 0xB0, None),
    (0x20000, 0x20FFF, 0x1, Some(0x20E51)),
    (0x23002, 0x23003, 0x1, None),
    (0x23002, 0x23004, 0x1, None),
];
