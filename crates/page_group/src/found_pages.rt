//! The pages that meet a piece.
ghost use Rattle.std.specs.Prelude.{◌<◌, ◌^◌, length, IfOk, OnOk};
ghost use Rattle.pun_base.specs.Ranges.{ends};
ghost use Rattle.page_group.specs.Pages.{ends_of, IsPageList};
ghost use Rattle.page_group.specs.Finding.{Adds, EndBelow};

use pun_base::limits::PAGE_LEN;
use pun_base::range::Range;
use std::alloc::{AllocError, Global};

fn push_pages(found: &mut Vec<u32>, piece: Range) -> Result<(), AllocError>
    ensures adds { OnOk result (Adds (ends piece) found.old.items found.new.items) }
    ensures below { OnOk result (EndBelow (2 ^ 32) found.old.items
        → EndBelow (2 ^ 32) found.new.items) }
{
    let end = (piece.hi - 1) / PAGE_LEN + 1;
    for number in piece.lo / PAGE_LEN..end {
        found.push(number * PAGE_LEN)?;
    }
    Ok(())
}

/// The addresses of the pages that meet a piece, in ascending order; room to spare is given back.
pub fn found_pages(alloc: Global, pieces: &[Range]) -> Result<Vec<u32>, AllocError>
    ensures listed { IfOk result (λ pages. IsPageList (ends_of pieces.now) pages.items) }
    ensures fits { IfOk result (λ pages. length pages.items < 2 ^ 32) }
{
    let mut found = Vec::new(alloc);
    for piece in pieces {
        push_pages(&mut found, *piece)?;
    }
    found.sort_unstable();
    found.dedup();
    found.shrink_to_fit();
    Ok(found)
}
