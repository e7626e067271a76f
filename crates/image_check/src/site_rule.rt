//! Rule 6: rows, entry point and the size of the private range.
ghost use Rattle.std.specs.Prelude.{◌≡◌, ◌≢◌, ◌↔◌, ◌≤◌, IsTrue, option_map, length, None};
ghost use Rattle.std.specs.List.{list_any};
ghost use Rattle.pun_base.specs.Limits.{most_sites};
ghost use Rattle.elf_read.specs.Entries.{entry_of};
ghost use Rattle.patch_report.specs.Values.{row_value};
ghost use Rattle.image_check.specs.Parts.{row_is_bad, any_row_bad, least_bad, is_too_short};
ghost use Rattle.sound_images.specs.Rules as rules;
ghost use Rattle.sound_images.specs.Rules.{SiteFails};
ghost use Rattle.sound_images.specs.Cases.{case_of};

use crate::lesser::lesser;
use elf_read::elf::Elf;
use patch_report::report::Report;
use patch_report::row::ReportRow;
use pun_base::tramp::Tramp;
use start_entries::starts::Starts;

/// Whether a trampoline has an event.
fn has_event(tramps: &[Tramp]) -> bool
    ensures { result ≡ list_any (λ t. t.event) tramps.now }
{
    tramps.iter().any(|tramp| tramp.event)
}

/// Whether the first of a row's trampolines is the site's own, with an event, and no other has one.
fn is_own(site: u32, tramps: &[Tramp]) -> bool
    ensures { result ≡ rules.is_own site tramps.now }
{
    let Some((first, others)) = tramps.split_first() else {
        return true;
    };
    let own = first.start == site && first.event;
    own && !has_event(others)
}

/// Whether a site is below that of the row before it, if there is one.
fn is_below(site: u32, before: Option<&ReportRow>) -> bool
    ensures { result ≡ rules.is_below site (option_map (λ r. row_value r.now) before.entry) }
{
    match before {
        None => true,
        Some(row) => site < row.site,
    }
}

/// Whether a row that comes after another one is bad: its site isn't listed or isn't below the one
/// before, or its trampolines aren't the site's.
#[tactic(auto, using(sound_images::proofs::OutcomeTramps::tramps_told))]
fn is_bad(row: &ReportRow, before: Option<&ReportRow>, starts: &Starts) -> bool
    ensures { result ≡ row_is_bad starts.now (option_map (λ r. row_value r.now) before.entry)
        (row_value row.now) }
{
    starts.at(row.site).is_none()
        || (!is_below(row.site, before) || !is_own(row.site, row.outcome.tramps()))
}

/// Whether a row with this site is bad.
fn row_fails(report: &Report, starts: &Starts, addr: u64) -> bool
    ensures { result ≡ any_row_bad starts.now None report.now.body.rows addr }
{
    let mut before = None;
    for row in report.rows() {
        if u64::from(row.site) == addr && is_bad(row, before, starts) {
            return true;
        }
        before = Some(row);
    }
    false
}

/// The least site of a bad row.
pub(crate) fn least_bad(report: &Report, starts: &Starts) -> Option<u64>
    ensures { result ≡ least_bad starts.now None None report.now.body.rows }
{
    let mut least = None;
    let mut before = None;
    for row in report.rows() {
        if is_bad(row, before, starts) {
            least = lesser(least, Some(u64::from(row.site)));
        }
        before = Some(row);
    }
    least
}

/// Whether the private range begins at an address and is too short.
fn is_short(report: &Report, addr: u64) -> bool
    requires { length report.now.body.rows ≤ most_sites }
    ensures { result ≡ is_too_short report.now.body addr }
{
    let private = report.private();
    let first = u64::from(private.lo);
    addr == first
        && u64::from(private.hi) < first + report.action().private_len(report.row_count() as u32)
}

/// Whether an address is the patched entry point and not the original's.
fn is_moved_entry(orig: &Elf<'_>, patched: &Elf<'_>, addr: u64) -> bool
    ensures { IsTrue result ↔ (addr ≡ entry_of patched.now.bytes)
        × (addr ≢ entry_of orig.now.bytes) }
{
    addr == patched.entry() && addr != orig.entry()
}

/// Whether rule 6 fails at an address.
pub(crate) fn site_fails(
    orig: &Elf<'_>,
    patched: &Elf<'_>,
    starts: &Starts,
    report: &Report,
    addr: u64,
) -> bool
    requires { length report.now.body.rows ≤ most_sites }
    ensures { IsTrue result ↔ SiteFails (case_of orig.now.bytes patched.now.bytes starts.now
        report.now.body) addr }
{
    if row_fails(report, starts, addr) {
        return true;
    }
    if is_moved_entry(orig, patched, addr) {
        return true;
    }
    is_short(report, addr)
}
