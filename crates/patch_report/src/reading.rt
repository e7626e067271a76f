//! The parts of the report of a text.
ghost use Rattle.std.specs.Prelude.{◌≡◌, true, [], map, IfOk};
ghost use Rattle.patch_report.specs.Grammar.{is_new};
ghost use Rattle.patch_report.specs.Reading.{body_at, report_at, row_at, rows_at, site_of, wanted};
ghost use Rattle.patch_report.specs.Values.{row_value};
ghost use Rattle.patch_report.specs.Views.{at_value, parts_value};
ghost use Rattle.patch_report.specs.Answers.{Gives};

use crate::error::ReportError;
use crate::line::{Line, Mark, is_told};
use crate::line_reading::Cursor;
use crate::origin::{Origin, Version, version_in};
use crate::page_reading::read_pages;
use crate::part_reading::{
    read_action, read_count, read_end, read_origin, read_outcome, read_private, read_version,
    some_line,
};
use crate::row::ReportRow;
use crate::rows::RowMap;
use pun_base::action::Action;
use pun_base::limits::{ADDRESS_END, PAGE_LEN};
use pun_base::range::Range;
use std::alloc::Global;

/// So many pages lie below the end of the addresses.
const MOST_PAGES: u32 = ADDRESS_END / PAGE_LEN;

/// A site's line, whose number is `due`, whose site is none of those before it, and whose outcome
/// the version can tell.
#[tactic(auto, unfolding(crate::specs::Reading::wanted))]
fn read_site<'a>(
    version: Version,
    due: u32,
    before: &RowMap,
    at: Cursor<'a>,
) -> Result<((u32, Mark), Cursor<'a>), ReportError>
    ensures value { Gives (λ x. (x.0, at_value x.1)) result
        (wanted (site_of version due (map row_value before.now)) (at_value at.entry)) }
    ensures new { IfOk result (λ x. is_new x.0.0 (map row_value before.now) ≡ true) }
{
    let place = at.place;
    let (line, later) = some_line(at)?;
    match line {
        Line::Site {
            site,
            number,
            outcome,
        } => {
            if number != due || before.holds(site) || !is_told(outcome, version) {
                return Err(ReportError::BadReport { line: place });
            }
            Ok(((site, outcome), later))
        }
        _ => Err(ReportError::BadReport { line: place }),
    }
}

/// The next row, whose number is `due` and whose site is none of those before it.
#[tactic(auto, unfolding(crate::specs::Reading::row_at))]
fn read_row<'a>(
    version: Version,
    due: u32,
    before: &RowMap,
    at: Cursor<'a>,
) -> Result<(ReportRow, Cursor<'a>), ReportError>
    ensures value { Gives (λ x. (row_value x.0, at_value x.1)) result
        (row_at version due (map row_value before.now) (at_value at.entry)) }
    ensures new { IfOk result (λ x. is_new x.0.site (map row_value before.now) ≡ true) }
{
    let ((site, mark), later) = read_site(version, due, before, at)?;
    let (outcome, later) = read_outcome(mark, later)?;
    let row = ReportRow {
        site,
        number: due,
        outcome,
    };
    Ok((row, later))
}

/// The rows of so many sites.
fn read_rows(
    alloc: Global,
    version: Version,
    count: u32,
    at: Cursor,
) -> Result<(RowMap, Cursor), ReportError>
    ensures { Gives (λ x. (map row_value x.0, at_value x.1)) result
        (rows_at version count [] (at_value at.entry)) }
{
    let mut rows = RowMap::new(alloc);
    let mut later = at;
    for turn in 0..count {
        let (row, next) = read_row(version, count - 1 - turn, &rows, later)?;
        rows.push(row)?;
        later = next;
    }
    Ok((rows, later))
}

/// What a report is made of.
#[derive(Drop)]
pub(crate) struct Parts {
    pub origin: Option<Origin>,
    pub action: Action,
    pub private: Range,
    pub rows: RowMap,
    pub pages: Vec<(u32, u32)>,
}

/// The parts of a report behind what its version tells, line by line.
#[tactic(auto, unfolding(crate::specs::Reading::body_at, crate::specs::Reading::most_pages))]
fn read_body(alloc: Global, origin: Option<Origin>, at: Cursor) -> Result<Parts, ReportError>
    ensures { Gives parts_value result (body_at origin (at_value at.entry)) }
{
    let (action, at) = read_action(at)?;
    let (private, at) = read_private(at)?;
    let (count, at) = read_count(at)?;
    let (rows, at) = read_rows(alloc, version_in(origin), count, at)?;
    let (pages, at) = read_pages(alloc, MOST_PAGES, at)?;
    read_end(at)?;
    Ok(Parts {
        origin,
        action,
        private,
        rows,
        pages,
    })
}

/// The parts of a report, line by line.
#[tactic(auto, unfolding(crate::specs::Reading::report_at))]
pub(crate) fn read_parts(alloc: Global, at: Cursor) -> Result<Parts, ReportError>
    ensures { Gives parts_value result (report_at (at_value at.entry)) }
{
    let (version, at) = read_version(at)?;
    let (origin, at) = read_origin(version, at)?;
    read_body(alloc, origin, at)
}
