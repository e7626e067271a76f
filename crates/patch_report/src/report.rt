//! Reports.
ghost use Rattle.std.specs.Prelude.{◌≡◌, length, map, slice_get, option_map, IfOk};
ghost use Rattle.std.specs.Option.{option_copied};
ghost use Rattle.pun_base.specs.Ranges.{ends};
ghost use Rattle.patch_report.specs.Answers.{ReadsReport, ReadsReports};
ghost use Rattle.patch_report.specs.Grammar.{IsReport, IsTold};
ghost use Rattle.patch_report.specs.Rows.{row_of};
ghost use Rattle.patch_report.specs.Spelling.{report_text};
ghost use Rattle.patch_report.specs.Values.{body_of, row_value, written};

use crate::error::ReportError;
use crate::line_reading::Cursor;
use crate::origin::Origin;
use crate::printing::{push_head, push_pages, push_rows, push_version};
use crate::reading::{Parts, read_parts};
use crate::row::ReportRow;
use crate::rows::RowMap;
use crate::version::has_other_version;
use pun_base::action::Action;
use pun_base::range::Range;
use std::alloc::{AllocError, Global};
use std::marker::Model;

/// What a patch did: its action, the private range, a row for each site in turn order, and the
/// pages of trampolines with their groups; in version 2 also what the original was.
#[derive(Drop)]
pub struct Report {
    parts: Parts,
}

impl Model for Report {
    ghost use Rattle.patch_report.specs.Grammar.{IsReport};
    ghost use Rattle.patch_report.specs.Values.{ReportValue};
    ghost use Rattle.patch_report.specs.Views.{parts_value};

    ghost Value = { ReportValue };

    ghost view = { λ r. parts_value r.parts };

    ghost invariant = { λ r. IsReport (parts_value r.parts) };
}

/// A copy of each row, in order.
fn copied_rows(alloc: Global, rows: &[ReportRow]) -> Result<Vec<ReportRow>, AllocError>
    ensures { IfOk result (λ copies. copies.items ≡ rows.now) }
{
    let mut copies = Vec::with_capacity(alloc, rows.len())?;
    for row in rows {
        copies.push(row.copied())?;
    }
    Ok(copies)
}

impl Report {
    /// A report of version 2 of these parts, which is one that a text tells.
    pub fn new(
        alloc: Global,
        action: Action,
        private: Range,
        rows: &[ReportRow],
        pages: &[(u32, u32)],
        origin: Origin,
    ) -> Result<Report, AllocError>
        requires { IsReport (written (body_of action private rows.now pages.now) origin) }
        ensures { IfOk result (λ report.
            report ≡ written (body_of action private rows.now pages.now) origin) }
    {
        Report::of_rows(
            alloc,
            action,
            private,
            copied_rows(alloc, rows)?,
            Vec::from_slice(alloc, pages)?,
            origin,
        )
    }

    /// A report of version 2 of these parts, whose rows and pages are taken over and not copied.
    pub fn of_rows(
        alloc: Global,
        action: Action,
        private: Range,
        rows: Vec<ReportRow>,
        pages: Vec<(u32, u32)>,
        origin: Origin,
    ) -> Result<Report, AllocError>
        requires { IsReport (written (body_of action private rows.items pages.items) origin) }
        ensures { IfOk result (λ report.
            report ≡ written (body_of action private rows.items pages.items) origin) }
    {
        let parts = Parts {
            origin: Some(origin),
            action,
            private,
            rows: RowMap::of_rows(alloc, rows)?,
            pages,
        };
        Ok(Report { parts })
    }

    /// What the original was. A report of version 1 doesn't tell it.
    pub fn origin(&self) -> Option<Origin>
        ensures { result ≡ self.now.origin }
    {
        self.parts.origin
    }

    /// What each event does.
    pub fn action(&self) -> Action
        ensures { result ≡ self.now.body.action }
    {
        self.parts.action
    }

    /// The private range.
    pub fn private(&self) -> Range
        ensures { ends result ≡ self.now.body.private }
    {
        self.parts.private
    }

    /// The number of rows.
    pub fn row_count(&self) -> usize
        ensures { result ≡ length self.now.body.rows }
    {
        self.parts.rows.as_slice().len()
    }

    /// The rows in turn order.
    pub fn rows(&self) -> &[ReportRow]
        ensures { map row_value result.now ≡ self.now.body.rows }
    {
        self.parts.rows.as_slice()
    }

    /// The row at a place in turn order, from 0.
    pub fn row(&self, place: usize) -> Option<&ReportRow>
        ensures { option_map (λ r. row_value r.now) result ≡ slice_get self.now.body.rows place }
    {
        self.parts.rows.as_slice().get(place)
    }

    /// The row of a site.
    pub fn row_of(&self, site: u32) -> Option<&ReportRow>
        ensures { option_map row_value (option_copied result) ≡ row_of site self.now.body.rows }
    {
        self.parts.rows.get(site)
    }

    /// The pages of trampolines in ascending order, each with its group.
    pub fn pages(&self) -> &[(u32, u32)]
        ensures { result.now ≡ self.now.body.pages }
    {
        self.parts.pages.as_slice()
    }

    /// What each report keeps: its lines are within their bounds, its numbers run down to 0, no
    /// site comes twice, and its pages ascend.
    pub fn keeps(&self)
        ensures report { IsReport self.now }
        ensures told { IsTold self.now.body }
    {
        let _parts = &self.parts;
    }

    /// The report's text.
    pub fn print(&self, alloc: Global) -> Result<Vec<u8>, AllocError>
        ensures { IfOk result (λ text. text.items ≡ report_text self.now) }
    {
        let mut text = Vec::new(alloc);
        let range = self.parts.private;
        push_version(&mut text, self.parts.origin)?;
        push_head(
            &mut text,
            self.parts.action,
            range.lo,
            range.hi,
            self.row_count(),
        )?;
        push_rows(&mut text, self.parts.rows.as_slice())?;
        push_pages(&mut text, self.parts.pages.as_slice())?;
        text.extend_from_slice(b"end\n")?;
        Ok(text)
    }
}

/// The report of a text. Another text is refused at the first line, counted from 1, with
/// which no report agrees: the line behind the last one is missing, and a last line without LF
/// agrees with none. A first line of `e9report` and a decimal number other than 1 and 2 names
/// another version. `Memory` may come in place of any answer.
pub fn read(alloc: Global, text: &[u8]) -> Result<Report, ReportError>
    ensures answer { ReadsReport (λ r. r) text.now result }
    ensures whole { ReadsReports (λ r. r) text.now result }
{
    if has_other_version(text) {
        return Err(ReportError::BadVersion { line: 1 });
    }
    let parts = read_parts(alloc, Cursor { text, place: 1 })?;
    Ok(Report { parts })
}
