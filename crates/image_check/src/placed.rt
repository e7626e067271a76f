//! The code of trampolines at their places.
ghost use Rattle.std.specs.Prelude.{◌≡◌, ℕ, List, IfOk, None};
ghost use Rattle.std.specs.List.Sorted.{IsPermutation, IsNonDecreasingBy};
ghost use Rattle.elf_read.specs.Refusals.{refusal};
ghost use Rattle.start_entries.specs.Laws.{IsBuilt};
ghost use Rattle.patch_report.specs.Grammar.{IsTold};
ghost use Rattle.image_check.specs.CodeParts.{IsCodeOf, IsLow, ArePlaced};
ghost use Rattle.image_check.specs.Parts.{line_of};
ghost use Rattle.sound_images.specs.Reports as reports;
ghost use Rattle.sound_images.specs.Cases.{case_of};

use crate::flat::{FlatReport, ReportLine};
use crate::placed_code::PlacedCode;
use code_bytes::code::CodeBytes;
use elf_read::elf::Elf;
use pun_base::action::Action;
use start_entries::starts::Starts;
use std::alloc::{AllocError, Global};
use trampoline::{Event, build};

/// The event of a trampoline, if it has one.
fn event_of(action: Action, line: &ReportLine) -> Option<Event>
    ensures { result ≡ reports.event_of action (line_of line.now) }
{
    if line.tramp.event {
        Some(Event {
            action,
            number: line.number,
        })
    } else {
        None
    }
}

/// The code of a trampoline, made of the instruction at its start in the original; no byte where
/// that can't be displaced.
fn code_of(orig: &Elf<'_>, starts: &Starts, flat: &FlatReport<'_>, line: &ReportLine) -> CodeBytes
    requires accepted { refusal 0x10000 orig.now.bytes ≡ None }
    requires built { IsBuilt orig.now.bytes starts.now }
    requires low { IsLow flat.now (line_of line.now) }
    ensures { (p : List ℕ) → IsCodeOf (case_of orig.now.bytes p starts.now flat.now)
        (line_of line.now) result }
{
    let Some(entry) = starts.at(line.tramp.start) else {
        return CodeBytes::from_slice(&[]);
    };
    let Some(insn) = entry.form else {
        return CodeBytes::from_slice(&[]);
    };
    let report = flat.report();
    let event = event_of(report.action(), line);
    let private = report.private().lo;
    let bytes = &orig.window(entry.addr)[..usize::from(entry.len)];
    match build(&insn, bytes, entry.addr, line.tramp.place, event, private) {
        Ok(code) => code.bytes,
        Err(_) => CodeBytes::from_slice(&[]),
    }
}

/// The code of all trampolines of a report, in turn order.
pub(crate) fn codes_of(
    alloc: Global,
    orig: &Elf<'_>,
    starts: &Starts,
    flat: &FlatReport<'_>,
) -> Result<Vec<PlacedCode>, AllocError>
    requires built { IsBuilt orig.now.bytes starts.now }
    requires report { IsTold flat.now }
    ensures { IfOk result (λ v. (p : List ℕ)
        → ArePlaced (case_of orig.now.bytes p starts.now flat.now) v.items) }
{
    let _accepted = orig.file();
    let mut codes = Vec::new(alloc);
    for line in flat.lines() {
        let bytes = code_of(orig, starts, flat, line);
        let _fits = bytes.as_slice();
        codes.push(PlacedCode { line: *line, bytes })?;
    }
    Ok(codes)
}

/// Code sorted by place.
pub fn by_place(codes: Vec<PlacedCode>) -> Result<Vec<PlacedCode>, AllocError>
    ensures moved { IfOk result (λ v. IsPermutation codes.items v.items) }
    ensures rises { IfOk result (λ v. IsNonDecreasingBy (λ p. p.line.tramp.place) v.items) }
{
    let mut sorted = codes;
    sorted.sort_by_key(|code| code.line.tramp.place)?;
    Ok(sorted)
}
