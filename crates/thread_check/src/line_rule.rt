//! Rules 3 and 4 for one trampoline.
ghost use Rattle.std.specs.Prelude.{◌≡◌, ◌↔◌, ◌+◌, ◌<◌, ◌^◌, ℕ, List, None, IsTrue, MatchResult, length};
ghost use Rattle.elf_read.specs.Image.{image_of};
ghost use Rattle.elf_read.specs.Refusals.{refusal};
ghost use Rattle.start_entries.specs.Laws.{IsBuilt};
ghost use Rattle.image_check.specs.CodeParts.{IsLow};
ghost use Rattle.image_check.specs.Parts.{line_of};
ghost use Rattle.sound_images.specs.Cases.{case_of};
ghost use Rattle.site_turns.specs.Modes.{IsShared};
ghost use Rattle.thread_check.specs.LineParts.{Lands, IsCodeFound, IsCodeVerdict, IsSoundLine, IsLineFailure};

use crate::loaded::{first_broken, is_loaded};
use code_bytes::code::CodeBytes;
use elf_read::elf::Elf;
use image_check::flat::ReportLine;
use image_check::jumps::jump_at;
use image_check::verdict::Verdict;
use patch_report::report::Report;
use site_turns::mode::thread_event_of;
use site_turns::start_insn::insn_at;
use start_entries::starts::Starts;
use thread_runs::thread_trampoline;

/// The code of a trampoline, made of the instruction at its start in the original; none where that
/// isn't listed, shares a byte with another one, or can't be displaced where threads share memory.
fn code_of(orig: &Elf<'_>, starts: &Starts, report: &Report, line: &ReportLine) -> Option<CodeBytes>
    requires accepted { refusal 0x10000 orig.now.bytes ≡ None }
    requires built { IsBuilt orig.now.bytes starts.now }
    requires low { IsLow report.now.body (line_of line.now) }
    requires shared { IsShared report.now.body.action }
    ensures { (p : List ℕ) → IsCodeFound
        (case_of orig.now.bytes p starts.now report.now.body) (line_of line.now) result }
{
    let Some(at) = insn_at(orig, starts, line.tramp.start) else {
        return None;
    };
    if at.entry.shared {
        return None;
    }
    let action = report.action();
    let private = report.private().lo;
    match thread_trampoline(
        thread_event_of(action, line.tramp.event),
        at.insn,
        at.bytes,
        at.entry.addr,
        line.tramp.place,
        line.number,
        private,
    ) {
        Ok(code) => Some(code.bytes),
        Err(_) => None,
    }
}

/// Whether the jump at a start leads to a place, or to where the original loads a byte.
fn lands(orig: &Elf<'_>, patched: &Elf<'_>, start: u64, place: u64) -> bool
    ensures { IsTrue result
        ↔ Lands (image_of orig.now.bytes) (image_of patched.now.bytes) start place }
{
    match jump_at(patched, start) {
        None => false,
        Some(target) => target == place || is_loaded(orig, target),
    }
}

/// What rule fails of 3 and 4, and where, for a trampoline with this code.
fn judge_code(orig: &Elf<'_>, patched: &Elf<'_>, start: u64, place: u64, code: &[u8]) -> Verdict
    requires { place + length code.now < 2 ^ 64 }
    ensures { IsCodeVerdict (image_of orig.now.bytes) (image_of patched.now.bytes)
        start place code.now result }
{
    if lands(orig, patched, start, place) {
        match first_broken(orig, patched, place, code) {
            None => Verdict::Yes,
            Some(addr) => Verdict::No { addr, rule: 4 },
        }
    } else {
        Verdict::No {
            addr: start,
            rule: 3,
        }
    }
}

/// The code of a trampoline that is sound; what fails where it isn't.
pub(crate) fn judge(
    orig: &Elf<'_>,
    patched: &Elf<'_>,
    starts: &Starts,
    report: &Report,
    line: &ReportLine,
) -> Result<CodeBytes, Verdict>
    requires accepted { refusal 0x10000 orig.now.bytes ≡ None }
    requires built { IsBuilt orig.now.bytes starts.now }
    requires low { IsLow report.now.body (line_of line.now) }
    requires shared { IsShared report.now.body.action }
    ensures { MatchResult result
        (IsSoundLine (case_of orig.now.bytes patched.now.bytes starts.now report.now.body)
        (line_of line.now))
        (IsLineFailure (case_of orig.now.bytes patched.now.bytes starts.now report.now.body)
        (line_of line.now)) }
{
    let start = u64::from(line.tramp.start);
    let place = u64::from(line.tramp.place);
    match code_of(orig, starts, report, line) {
        None => Err(Verdict::No {
            addr: start,
            rule: 3,
        }),
        Some(code) => {
            let bytes = code.as_slice();
            match judge_code(orig, patched, start, place, bytes) {
                Verdict::Yes => Ok(code),
                Verdict::No { addr, rule } => Err(Verdict::No { addr, rule }),
            }
        }
    }
}
