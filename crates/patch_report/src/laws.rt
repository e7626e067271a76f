//! What the definitions promise of lines and reports, and that reading and printing undo one
//! another.
ghost use Rattle.std.specs.Prelude.{◌≡◌, IfOk};
ghost use Rattle.patch_report.specs.Answers.{IsReadAs};
ghost use Rattle.patch_report.specs.Bounds.{ReportsAreBounded};
ghost use Rattle.patch_report.specs.Laws.{LinesAreSpelled, RefusalsAreFirst, ReportsAreExact, VersionsAreNumbers};

use crate::error::ReportError;
use crate::report::{Report, read};
use std::alloc::Global;

/// A line is read at the front of a text exactly where it may stand in a report and its text and an
/// LF stand there.
pub fn lines_are_spelled()
    ensures { LinesAreSpelled }
{}

/// A report that a text spells keeps the bounds of its parts.
pub fn reports_are_bounded()
    ensures { ReportsAreBounded }
{}

/// A text is read as a report exactly where it is that report's text.
pub fn reports_are_exact()
    ensures { ReportsAreExact }
{}

/// A text is refused at a line exactly where it is no report's and that line is the first with
/// which no report agrees.
pub fn refusals_are_first()
    ensures { RefusalsAreFirst }
{}

/// Another version is told exactly where the first line is `e9report` and a decimal number other
/// than 1 and 2.
pub fn versions_are_numbers()
    ensures { VersionsAreNumbers }
{}

/// What was read prints its own text.
pub fn printed_again(alloc: Global, text: &[u8]) -> Result<Vec<u8>, ReportError>
    ensures { IfOk result (λ printed. printed.items ≡ text.now) }
{
    let report = read(alloc, text)?;
    let printed = report.print(alloc)?;
    Ok(printed)
}

/// What is printed is read as the report that it was.
pub fn read_again(alloc: Global, report: &Report) -> Result<Report, ReportError>
    ensures { IsReadAs (λ r. r) report.now result }
{
    report.keeps();
    let text = report.print(alloc)?;
    let again = read(alloc, text.as_slice())?;
    Ok(again)
}
