//! Rule 4: the code of trampolines.
ghost use Rattle.std.specs.Prelude.{◌≡◌, ◌<◌, IsTrue, IfOk, List, Some, ℕ, length, slice_get, option_map};
ghost use Rattle.std.specs.List.{list_any, count_by};
ghost use Rattle.std.specs.List.Sorted.{IsNonDecreasingBy};
ghost use Rattle.start_entries.specs.declared.entry.StartEntry.{StartEntry};
ghost use Rattle.image_check.specs.CodeParts as parts;
ghost use Rattle.image_check.specs.Parts.{cell_of};
ghost use Rattle.image_check.specs.Stretches.{CoversFirst, CodeBroken, EndBelow, IsHeldCode, code_end};
ghost use Rattle.sound_images.specs.Cases.{case_of};

use crate::cells::{LoadedByte, loaded_at};
use crate::flat::FlatReport;
use crate::near::{begin_from, near};
use crate::placed_code::PlacedCode;
use crate::span::{Span, farther, push_unless};
use crate::standing::stands;
use elf_read::elf::Elf;
use std::alloc::{AllocError, Global};

/// The most bytes of a trampoline's code.
const CODE_MOST: u64 = 128;

/// Whether an address is in placed code.
fn is_in_code(addr: u64, code: &PlacedCode) -> bool
    ensures { result ≡ parts.in_code addr code.now }
{
    let first = u64::from(code.line.tramp.place);
    first <= addr && addr < first + code.bytes.as_slice().len() as u64
}

/// Whether this byte is loaded, R-X.
fn holds_code(cell: Option<LoadedByte>, byte: u8) -> bool
    ensures { result ≡ parts.holds_code (option_map cell_of cell) byte }
{
    match cell {
        None => false,
        Some(cell) => cell.byte == byte && cell.perms == 5,
    }
}

/// Whether an address is in placed code and what is loaded there isn't its byte, R-X.
fn breaks_code(addr: u64, code: &PlacedCode, now: Option<LoadedByte>) -> bool
    ensures { result ≡ parts.breaks_code (option_map cell_of now) addr code.now }
{
    if !is_in_code(addr, code) {
        return false;
    }
    let place = (addr - u64::from(code.line.tramp.place)) as usize;
    !holds_code(now, code.bytes.as_slice()[place])
}

/// Whether an address is in some code and what is loaded there isn't its byte, R-X.
fn is_broken(codes: &[PlacedCode], addr: u64, now: Option<LoadedByte>) -> bool
    ensures { result ≡ list_any (parts.breaks_code (option_map cell_of now) addr) codes.now }
{
    codes.iter().any(|code| breaks_code(addr, code, now))
}

/// In how many codes an address is.
fn times_placed(codes: &[PlacedCode], addr: u64) -> usize
    ensures { result ≡ count_by (parts.in_code addr) codes.now }
{
    codes.iter().filter(|code| is_in_code(addr, code)).count()
}

/// Whether rule 4 fails at an address for some code.
fn breaks_rule(patched: &Elf<'_>, flat: &FlatReport<'_>, codes: &[PlacedCode], addr: u64) -> bool
    ensures { (o : List ℕ) (es : List StartEntry) → result
        ≡ parts.wrong_code (case_of o patched.now.bytes es flat.now) codes.now addr }
{
    let times = times_placed(codes, addr);
    times >= 1
        && (times >= 2 || (is_broken(codes, addr, loaded_at(patched, addr)) || !flat.on_page(addr)))
}

/// Whether rule 4 fails at an address, for code sorted by place.
pub(crate) fn code_fails(
    patched: &Elf<'_>,
    flat: &FlatReport<'_>,
    codes: &[PlacedCode],
    addr: u64,
) -> bool
    requires rises { IsNonDecreasingBy (λ p. p.line.tramp.place) codes.now }
    ensures { (o : List ℕ) (es : List StartEntry) → result
        ≡ parts.wrong_code (case_of o patched.now.bytes es flat.now) codes.now addr }
{
    breaks_rule(patched, flat, near(codes, CODE_MOST, addr), addr)
}

/// The address after placed code.
fn end_of(code: &PlacedCode) -> u64
    ensures { result ≡ code_end code.now }
{
    u64::from(code.line.tramp.place) + code.bytes.as_slice().len() as u64
}

/// The addresses of placed code, and the one after them.
fn code_span(code: &PlacedCode) -> Span
    ensures { result ≡ parts.code_span code.now }
{
    Span {
        first: u64::from(code.line.tramp.place),
        last: end_of(code),
    }
}

/// Whether code is loaded, R-X, on one page of trampolines.
fn is_held(patched: &Elf<'_>, flat: &FlatReport<'_>, code: &PlacedCode) -> bool
    ensures { IsTrue result → (o : List ℕ) (es : List StartEntry)
        → IsHeldCode (case_of o patched.now.bytes es flat.now) code.now }
{
    let bytes = code.bytes.as_slice();
    let place = u64::from(code.line.tramp.place);
    if bytes.is_empty() {
        return false;
    }
    if flat.on_one_page(place, bytes.len() as u64 - 1) {
        match stands(patched, place, bytes) {
            None => false,
            Some(perms) => perms == 5,
        }
    } else {
        false
    }
}

/// Whether the code at an index is known to keep rule 4: it is held, begins where all code before
/// it has ended, and ends where all code after it begins.
fn keeps_rule(
    patched: &Elf<'_>,
    flat: &FlatReport<'_>,
    codes: &[PlacedCode],
    place: usize,
    code: &PlacedCode,
    reached: u64,
) -> bool
    requires rises { IsNonDecreasingBy (λ p. p.line.tramp.place) codes.now }
    requires inside { place < length codes.now }
    requires below { EndBelow code_end codes.now place reached }
    ensures { IsTrue result → slice_get codes.now place ≡ Some code.now
        → (o : List ℕ) (es : List StartEntry) (x : ℕ)
        → CodeBroken (case_of o patched.now.bytes es flat.now) codes.now x code.now → ⊥ }
{
    if u64::from(code.line.tramp.place) < reached {
        return false;
    }
    if begin_from(codes, place + 1, end_of(code)) {
        is_held(patched, flat, code)
    } else {
        false
    }
}

/// The spans of code that can break rule 4, for code sorted by place.
pub(crate) fn code_spans(
    alloc: Global,
    patched: &Elf<'_>,
    flat: &FlatReport<'_>,
    codes: &[PlacedCode],
) -> Result<Vec<Span>, AllocError>
    requires rises { IsNonDecreasingBy (λ p. p.line.tramp.place) codes.now }
    ensures { IfOk result (λ v. (o : List ℕ) (es : List StartEntry)
        → CoversFirst (CodeBroken (case_of o patched.now.bytes es flat.now) codes.now)
        codes.now (length codes.now) v.items) }
{
    let mut spans = Vec::new(alloc);
    let mut reached = 0;
    let mut place = 0;
    for code in codes {
        let holds = keeps_rule(patched, flat, codes, place, code, reached);
        push_unless(holds, code_span(code), &mut spans)?;
        reached = farther(reached, end_of(code));
        place += 1;
    }
    Ok(spans)
}
