//! A report with its lines and runs at hand.
ghost use Rattle.std.specs.Prelude.{◌≡◌, ◌==◌, ◌++◌, ◌+◌, ◌^◌, ◌&&◌, ◌≤◌, ◌<◌, ℕ, true, nat_le, nat_lt, map, IsTrue, IfOk, OnOk};
ghost use Rattle.std.specs.List.{list_any, count_by};
ghost use Rattle.std.specs.List.Sorted.{IsPermutation, IsNonDecreasingBy};
ghost use Rattle.patch_report.specs.Values.{write_value, row_value};
ghost use Rattle.image_check.specs.Nearness.{IsNear};
ghost use Rattle.image_check.specs.Parts.{line_of};
ghost use Rattle.sound_images.specs.Reports as reports;

use crate::near::near;
use patch_report::report::Report;
use patch_report::row::{RUN_MAX, ReportRow};
use pun_base::action::Action;
use pun_base::limits::PAGE_LEN;
use pun_base::plan::Write;
use pun_base::tramp::Tramp;
use std::alloc::{AllocError, Global};
use std::marker::Model;

/// A trampoline of a report, with the number of its row.
#[derive(Clone, Copy, Debug, PartialEq, Eq)]
pub struct ReportLine {
    pub number: u32,
    pub tramp: Tramp,
}

/// A report with all its trampolines, in turn order and sorted by start, and its runs sorted by
/// address. Clauses see the report's value.
#[derive(Drop)]
pub struct FlatReport<'a> {
    report: &'a Report,
    lines: Vec<ReportLine>,
    started: Vec<ReportLine>,
    runs: Vec<Write>,
}

impl<'a> Model for FlatReport<'a> {
    ghost use Rattle.patch_report.specs.Values.{BodyValue};
    ghost use Rattle.image_check.specs.Parts.{IsFlat};

    ghost Value = { BodyValue };

    ghost view = { λ f. f.report.now.body };

    ghost invariant = { λ f. IsFlat f.report.now.body f.lines.items f.started.items f.runs.items };
}

/// Appends the trampolines of a row.
#[tactic(auto, using(sound_images::proofs::OutcomeTramps::tramps_told))]
fn push_lines(lines: &mut Vec<ReportLine>, row: &ReportRow) -> Result<(), AllocError>
    ensures { OnOk result (map line_of lines.new.items
        ≡ map line_of lines.old.items ++ reports.row_lines (row_value row.now)) }
{
    for tramp in row.outcome.tramps() {
        lines.push(ReportLine {
            number: row.number,
            tramp: *tramp,
        })?;
    }
    Ok(())
}

/// All trampolines of a report, in turn order.
pub fn lines_of(alloc: Global, report: &Report) -> Result<Vec<ReportLine>, AllocError>
    ensures { IfOk result (λ v. map line_of v.items ≡ reports.lines report.now.body) }
{
    let mut lines = Vec::new(alloc);
    for row in report.rows() {
        push_lines(&mut lines, row)?;
    }
    Ok(lines)
}

/// Trampolines sorted by start.
fn by_start(alloc: Global, lines: &[ReportLine]) -> Result<Vec<ReportLine>, AllocError>
    ensures moved { IfOk result (λ v. IsPermutation lines.now v.items) }
    ensures rises { IfOk result (λ v. IsNonDecreasingBy (λ l. l.tramp.start) v.items) }
{
    let mut started = lines.to_vec(alloc)?;
    started.sort_by_key(|line| line.tramp.start)?;
    Ok(started)
}

/// Runs sorted by address.
fn by_address(runs: Vec<Write>) -> Result<Vec<Write>, AllocError>
    ensures moved { IfOk result (λ v. IsPermutation runs.items v.items) }
    ensures rises { IfOk result (λ v. IsNonDecreasingBy (λ w. w.addr) v.items) }
{
    let mut sorted = runs;
    sorted.sort_by_key(|run| run.addr)?;
    Ok(sorted)
}

/// Whether an address is in a run.
pub(crate) fn is_in(addr: u64, run: &Write) -> bool
    ensures { result ≡ reports.in_run addr (write_value run.entry.now) }
{
    let first = u64::from(run.addr);
    first <= addr && addr < first + run.was.len() as u64
}

/// The address after the one of these runs that holds `addr`; `addr` itself where none does.
fn end_among(runs: &[Write], addr: u64) -> u64
    ensures from { addr ≤ result }
    ensures written { (x : ℕ) → addr ≤ x → x < result
        → list_any (λ w. reports.in_run addr (write_value w) && reports.in_run x (write_value w))
        runs.now ≡ true }
{
    for run in runs {
        if is_in(addr, run) {
            return u64::from(run.addr) + run.was.len() as u64;
        }
    }
    addr
}

/// Whether an address is on one of these pages.
fn is_on(pages: &[(u32, u32)], addr: u64) -> bool
    ensures { result ≡ list_any (λ p. nat_le p.0 addr && nat_lt addr (p.0 + 4096)) pages.now }
{
    pages.iter().any(|(page, _)| u64::from(*page) <= addr
        && addr < u64::from(*page) + PAGE_LEN as u64)
}

/// Whether `addr` and `addr + more` are on one of these pages.
fn are_on(pages: &[(u32, u32)], addr: u64, more: u64) -> bool
    requires { addr + more < 2 ^ 64 }
    ensures { result ≡ list_any (λ p. nat_le p.0 addr && nat_lt (addr + more) (p.0 + 4096))
        pages.now }
{
    pages.iter().any(|(page, _)| u64::from(*page) <= addr
        && addr + more < u64::from(*page) + PAGE_LEN as u64)
}

impl<'a> FlatReport<'a> {
    /// The report with its lists.
    pub(crate) fn new(alloc: Global, report: &'a Report) -> Result<FlatReport<'a>, AllocError>
        ensures { IfOk result (λ f. f ≡ report.now.body) }
    {
        let lines = lines_of(alloc, report)?;
        let started = by_start(alloc, &lines)?;
        let told = report.runs(alloc)?;
        let runs = by_address(told)?;
        Ok(FlatReport {
            report,
            lines,
            started,
            runs,
        })
    }

    /// The report that these lists were made of.
    pub(crate) fn report(&self) -> &Report
        ensures { result.now.body ≡ self.now }
    {
        self.report
    }

    /// The report's trampolines, in turn order.
    pub(crate) fn lines(&self) -> &[ReportLine]
        ensures { map line_of result.now ≡ reports.lines self.now }
    {
        &self.lines
    }

    /// The report's runs, sorted by address.
    pub(crate) fn runs(&self) -> &[Write]
        ensures moved { IsPermutation (reports.runs self.now) (map write_value result.now) }
        ensures rises { IsNonDecreasingBy (λ w. w.addr) result.now }
    {
        &self.runs
    }

    /// The runs that can hold an address.
    pub(crate) fn near_runs(&self, addr: u64) -> &[Write]
        ensures { IsNear write_value (λ w. w.addr) 16 addr result.now (reports.runs self.now) }
    {
        near(self.runs(), RUN_MAX as u64, addr)
    }

    /// The trampolines that can start at an address.
    pub(crate) fn near_lines(&self, addr: u64) -> &[ReportLine]
        ensures { IsNear line_of (λ l. l.tramp.start) 1 addr result.now (reports.lines self.now) }
    {
        near(&self.started, 1, addr)
    }

    /// The pages of trampolines on which an address can be.
    fn near_pages(&self, addr: u64) -> &[(u32, u32)]
        ensures { IsNear (λ y. y) (λ p. p.0) 4096 addr result.now self.now.pages }
    {
        self.report.keeps();
        near(self.report.pages(), PAGE_LEN as u64, addr)
    }

    /// Whether an address is in a run.
    #[tactic(auto, using(sound_images::proofs::CountedElements::written_by_count))]
    pub(crate) fn is_written(&self, addr: u64) -> bool
        ensures { result ≡ reports.is_written self.now addr }
    {
        self.times_written(addr) > 0
    }

    /// How many runs an address is in.
    pub(crate) fn times_written(&self, addr: u64) -> usize
        ensures { result ≡ reports.times_written self.now addr }
    {
        self.near_runs(addr)
            .iter()
            .filter(|run| is_in(addr, run))
            .count()
    }

    /// The address after a run that holds `addr`; `addr` itself where it isn't written.
    pub(crate) fn written_to(&self, addr: u64) -> u64
        ensures from { addr ≤ result }
        ensures written { (x : ℕ) → addr ≤ x → x < result
            → reports.is_written self.now x ≡ true }
    {
        end_among(self.near_runs(addr), addr)
    }

    /// Whether an address is the start of a trampoline.
    #[tactic(auto, using(sound_images::proofs::CountedElements::started_by_count))]
    pub(crate) fn starts_line(&self, addr: u64) -> bool
        ensures { result ≡ reports.starts_line self.now addr }
    {
        self.times_started(addr) > 0
    }

    /// Of how many trampolines an address is the start.
    pub(crate) fn times_started(&self, addr: u64) -> usize
        ensures { result ≡ reports.times_started self.now addr }
    {
        self.near_lines(addr)
            .iter()
            .filter(|line| u64::from(line.tramp.start) == addr)
            .count()
    }

    /// Whether an address is in the private range.
    pub(crate) fn in_private(&self, addr: u64) -> bool
        ensures { result ≡ reports.in_private self.now addr }
    {
        let range = self.report.private();
        u64::from(range.lo) <= addr && addr < u64::from(range.hi)
    }

    /// Whether an address is on a page of trampolines.
    pub(crate) fn on_page(&self, addr: u64) -> bool
        ensures { result ≡ reports.on_page self.now addr }
    {
        is_on(self.near_pages(addr), addr)
    }

    /// Whether all addresses from `addr` to `addr + more` are on one page of trampolines.
    pub(crate) fn on_one_page(&self, addr: u64, more: u64) -> bool
        requires { addr + more < 2 ^ 64 }
        ensures { IsTrue result → (x : ℕ) → addr ≤ x → x ≤ addr + more
            → reports.on_page self.now x ≡ true }
    {
        are_on(self.near_pages(addr), addr, more)
    }
}
