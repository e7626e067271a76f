//! Rule 3: the starts of trampolines.
ghost use Rattle.std.specs.Prelude.{◌≡◌, ◌↔◌, IsTrue, IfOk, List, ℕ, None, length};
ghost use Rattle.std.specs.List.{AllByRecursion};
ghost use Rattle.start_entries.specs.Listed.{IsSpelledEntry};
ghost use Rattle.image_check.specs.Jumps.{LineFails, AnyLineFails};
ghost use Rattle.image_check.specs.Parts.{line_of};
ghost use Rattle.sound_images.specs.Rules.{EntryFails, displaced_at};
ghost use Rattle.image_check.specs.Stretches.{CoversFirst, LineBroken};
ghost use Rattle.sound_images.specs.Cases.{case_of};

use crate::flat::{FlatReport, ReportLine};
use crate::jumps::leads;
use crate::span::{Span, push_unless};
use crate::spans::single;
use elf_read::elf::Elf;
use insn_form::displaced_len;
use start_entries::starts::Starts;
use std::alloc::{AllocError, Global};

/// How many bytes the relocated code has of the instruction at a listed start.
fn displaced_at(starts: &Starts, addr: u32) -> Option<u8>
    requires { AllByRecursion IsSpelledEntry starts.now }
    ensures { result ≡ displaced_at starts.now addr }
{
    let entry = starts.at(addr)?;
    let insn = entry.form?;
    displaced_len(&insn, entry.len, entry.addr)
}

/// Whether the instruction at an address isn't listed or has no relocated code.
fn stays(starts: &Starts, addr: u32) -> bool
    requires { AllByRecursion IsSpelledEntry starts.now }
    ensures { IsTrue result ↔ (displaced_at starts.now addr ≡ None) }
{
    match displaced_at(starts, addr) {
        None => true,
        Some(_) => false,
    }
}

/// Whether rule 3 fails for a trampoline with this start.
fn line_fails(
    patched: &Elf<'_>,
    starts: &Starts,
    flat: &FlatReport<'_>,
    addr: u64,
    line: &ReportLine,
) -> bool
    requires { AllByRecursion IsSpelledEntry starts.now }
    ensures { (o : List ℕ) → IsTrue result ↔ LineFails
        (case_of o patched.now.bytes starts.now flat.now) addr (line_of line.now) }
{
    if u64::from(line.tramp.start) != addr {
        return false;
    }
    if stays(starts, line.tramp.start) {
        return true;
    }
    if flat.times_started(addr) >= 2 {
        return true;
    }
    !leads(patched, starts, addr, u64::from(line.tramp.place))
}

/// Whether rule 3 fails for one of these trampolines.
fn lines_fail(
    patched: &Elf<'_>,
    starts: &Starts,
    flat: &FlatReport<'_>,
    addr: u64,
    lines: &[ReportLine],
) -> bool
    requires { AllByRecursion IsSpelledEntry starts.now }
    ensures { (o : List ℕ) → IsTrue result ↔ AnyLineFails
        (case_of o patched.now.bytes starts.now flat.now) addr lines.now }
{
    for line in lines {
        if line_fails(patched, starts, flat, addr, line) {
            return true;
        }
    }
    false
}

/// Whether rule 3 fails at an address.
pub(crate) fn entry_fails(
    patched: &Elf<'_>,
    starts: &Starts,
    flat: &FlatReport<'_>,
    addr: u64,
) -> bool
    requires { AllByRecursion IsSpelledEntry starts.now }
    ensures { (o : List ℕ) → IsTrue result ↔ EntryFails
        (case_of o patched.now.bytes starts.now flat.now) addr }
{
    lines_fail(patched, starts, flat, addr, flat.near_lines(addr))
}

/// The starts of trampolines at which rule 3 fails.
pub(crate) fn entry_spans(
    alloc: Global,
    patched: &Elf<'_>,
    starts: &Starts,
    flat: &FlatReport<'_>,
    lines: &[ReportLine],
) -> Result<Vec<Span>, AllocError>
    requires { AllByRecursion IsSpelledEntry starts.now }
    ensures { IfOk result (λ v. (o : List ℕ)
        → CoversFirst (LineBroken (case_of o patched.now.bytes starts.now flat.now))
        lines.now (length lines.now) v.items) }
{
    let mut spans = Vec::new(alloc);
    for line in lines {
        let start = u64::from(line.tramp.start);
        let fails = line_fails(patched, starts, flat, start, line);
        push_unless(!fails, single(start), &mut spans)?;
    }
    Ok(spans)
}
