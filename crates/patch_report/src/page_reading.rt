//! The lines of pages.
ghost use Rattle.std.specs.Prelude.{◌≡◌, option_map};
ghost use Rattle.patch_report.specs.Reading.{found, page_from, pages_at};
ghost use Rattle.patch_report.specs.Views.{at_value};
ghost use Rattle.patch_report.specs.Answers.{Shows};

use crate::error::ReportError;
use crate::line::Line;
use crate::line_reading::{Cursor, next_line};
use std::alloc::Global;

/// The next line, where it is that of a page from `low` on, as the page and its group.
#[tactic(auto, unfolding(crate::specs::Reading::found))]
fn find_page(low: u32, at: Cursor) -> Option<((u32, u32), Cursor)>
    ensures { option_map (λ x. (x.0, at_value x.1)) result
        ≡ found (page_from low) (at_value at.entry) }
{
    let (line, later) = next_line(at)?;
    match line {
        Line::Page { page, group } if low <= page => Some(((page, group), later)),
        _ => None,
    }
}

/// The next lines of pages in ascending order, at most so many, each with its group.
pub(crate) fn read_pages(
    alloc: Global,
    most: u32,
    at: Cursor,
) -> Result<(Vec<(u32, u32)>, Cursor), ReportError>
    ensures { Shows (λ x. (x.0.items, at_value x.1)) result (pages_at most 0 (at_value at.entry)) }
{
    let mut pages = Vec::new(alloc);
    let mut low = 0;
    let mut later = at;
    for turn in 0..most {
        match find_page(low, later) {
            None => return Ok((pages, later)),
            Some(next) => {
                let page = next.0;
                pages.push(page)?;
                low = page.0.saturating_add(1);
                later = next.1;
            }
        }
    }
    Ok((pages, later))
}
