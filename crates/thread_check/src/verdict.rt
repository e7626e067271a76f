//! The verdict on a file that is patched for threads.
ghost use Rattle.std.specs.Prelude.{◌≡◌, map, IfOk};
ghost use Rattle.start_entries.specs.Laws.{IsBuilt};
ghost use Rattle.image_check.specs.declared.verdict.Verdict.TheVariants.{Yes};
ghost use Rattle.image_check.specs.Parts.{line_of};
ghost use Rattle.sound_images.specs.Reports as reports;
ghost use Rattle.sound_images.specs.Cases.{case_of};
ghost use Rattle.image_check.specs.Verdict.{case_in};
ghost use Rattle.thread_check.specs.LineParts as parts;
ghost use Rattle.thread_check.specs.LineParts.{IsEventsVerdict, IsImageVerdict};
ghost use Rattle.thread_check.specs.ThreadSoundness.{IsThreadCaseFollowed};
ghost use Rattle.thread_check.specs.ThreadVerdict.{IsThreadVerdict};

use crate::line_rule::judge;
use crate::places::first_overlap;
use elf_read::elf::Elf;
use image_check::checked::Checked;
use image_check::flat::{ReportLine, lines_of};
use image_check::placed::by_place;
use image_check::placed_code::PlacedCode;
use image_check::rule::Rule;
use image_check::verdict::Verdict;
use patch_report::report::Report;
use site_turns::mode::is_shared;
use start_entries::starts::Starts;
use std::alloc::{AllocError, Global};

/// The first of the rules 1, 2, 5, 6 and 3 that fails, where each first fails there, if it does.
fn first_failure(
    byte: Option<u64>,
    write: Option<u64>,
    range: Option<u64>,
    site: Option<u64>,
    entry: Option<u64>,
) -> Verdict
    ensures { result ≡ parts.first_failure byte write range site entry }
{
    if let Some(addr) = byte {
        return Verdict::No { addr, rule: 1 };
    }
    if let Some(addr) = write {
        return Verdict::No { addr, rule: 2 };
    }
    if let Some(addr) = range {
        return Verdict::No { addr, rule: 5 };
    }
    if let Some(addr) = site {
        return Verdict::No { addr, rule: 6 };
    }
    match entry {
        None => Verdict::Yes,
        Some(addr) => Verdict::No { addr, rule: 3 },
    }
}

/// Judges by rules 1, 2, 3, 5 and 6 of any patched file.
fn judge_image(alloc: Global, checked: &Checked<'_>) -> Result<Verdict, AllocError>
    ensures { IfOk result (λ v. IsImageVerdict (case_in checked.now) v) }
{
    let byte = checked.least(alloc, Rule::Byte)?;
    let write = checked.least(alloc, Rule::Write)?;
    let range = checked.least(alloc, Rule::Range)?;
    let site = checked.least(alloc, Rule::Site)?;
    let entry = checked.least(alloc, Rule::Entry)?;
    Ok(first_failure(byte, write, range, site, entry))
}

/// Judges the trampolines of a report, which are these lines, by rules 3 and 4, but for what follows where the other rules hold, where
/// threads can get the events of its action; where they can't, rule 6 fails at the private range's first address.
fn judge_events(
    alloc: Global,
    orig: &Elf<'_>,
    patched: &Elf<'_>,
    starts: &Starts,
    report: &Report,
    lines: &[ReportLine],
) -> Result<Verdict, AllocError>
    requires built { IsBuilt orig.now.bytes starts.now }
    requires lines { map line_of lines.now ≡ reports.lines report.now.body }
    ensures { IfOk result (λ v. IsEventsVerdict
        (case_of orig.now.bytes patched.now.bytes starts.now report.now.body) v) }
{
    report.keeps();
    let _accepted = orig.file();
    let action = report.action();
    if !is_shared(action) {
        let low = u64::from(report.private().lo);
        return Ok(Verdict::No { addr: low, rule: 6 });
    }
    let mut codes = Vec::new(alloc);
    for line in lines {
        match judge(orig, patched, starts, report, line) {
            Ok(bytes) => {
                let _fits = bytes.as_slice();
                codes.push(PlacedCode { line: *line, bytes })?;
            }
            Err(verdict) => return Ok(verdict),
        }
    }
    let sorted = by_place(codes)?;
    match first_overlap(&sorted) {
        None => Ok(Verdict::Yes),
        Some(addr) => Ok(Verdict::No { addr, rule: 4 }),
    }
}

/// The verdict of these: of the rules of any patched file, and of the action with the trampolines.
fn whole(image: Verdict, events: Verdict) -> Verdict
    ensures { result ≡ parts.whole image events }
{
    match image {
        Verdict::No { addr, rule } => Verdict::No { addr, rule },
        Verdict::Yes => events,
    }
}

/// Judges a file that is patched for threads by the six rules for threads. The starts are those of
/// the original. Where the verdict is Yes, the patched file starts where the original does, and runs
/// with any number of threads as the original does, and counts or covers, under a condition where the report
/// tells one, or keeps a ring. Where it is No, the rule fails at the address.
pub fn check_threads(
    alloc: Global,
    orig: &Elf<'_>,
    patched: &Elf<'_>,
    starts: &Starts,
    report: &Report,
) -> Result<Verdict, AllocError>
    requires built { IsBuilt orig.now.bytes starts.now }
    ensures verdict { IfOk result (λ verdict. IsThreadVerdict
        (case_of orig.now.bytes patched.now.bytes starts.now report.now.body) verdict) }
    ensures followed { IfOk result (λ verdict. verdict ≡ Yes → IsThreadCaseFollowed
        (case_of orig.now.bytes patched.now.bytes starts.now report.now.body)) }
{
    report.keeps();
    let _accepted = orig.file();
    let checked = Checked::new(alloc, orig, patched, starts, report)?;
    let image = judge_image(alloc, &checked)?;
    let lines = lines_of(alloc, report)?;
    let events = judge_events(alloc, orig, patched, starts, report, lines.as_slice())?;
    Ok(whole(image, events))
}
