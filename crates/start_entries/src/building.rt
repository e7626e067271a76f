//! The entry of one start, the mark whether it shares bytes, and how a start is judged.
ghost use Rattle.std.specs.Prelude.{◌≡◌, ◌+◌, ◌≤◌, ◌++◌, ℕ, List, [], ◌∷◌, length, Some, None, IfOk, OnOk, MatchResult};
ghost use Rattle.elf_read.specs.Code as code;
ghost use Rattle.start_entries.specs.Entries.{before_next, start_entry};
ghost use Rattle.start_entries.specs.Marking.{further, is_next_below, marked_entry, reached_with, with_mark};
ghost use Rattle.start_entries.specs.Refusals.{refusal_of};

use crate::entry::StartEntry;
use crate::refusal::StartError;
use elf_read::elf::Elf;
use insn_form::{Insn, front_form};
use length_decode::{Shape, decode};
use std::alloc::AllocError;
use std::cmp::min;

/// How far a start of unknown length reaches, by its window.
fn reach(window: &[u8], addr: u32, next: Option<u32>) -> u8
    requires { length window.now ≤ 15 }
    ensures { result ≡ before_next addr next (length window.now) }
{
    let most = window.len() as u8;
    match next {
        None => most,
        Some(next) => min(u32::from(most), next.saturating_sub(addr)) as u8,
    }
}

/// Whether the next start is below an address.
fn is_next_below(next: Option<u32>, end: u64) -> bool
    ensures { result ≡ is_next_below next end }
{
    match next {
        None => false,
        Some(next) => u64::from(next) < end,
    }
}

/// Appends an entry, marked where it shares bytes with the entries before it, which reach up to an address,
/// or with those from the next start on. Answers the address that all these reach.
#[inline(always)]
fn push_marked(
    items: &mut Vec<StartEntry>,
    addr: u32,
    len: u8,
    form: Option<Insn>,
    reached: u64,
    next: Option<u32>,
) -> Result<u64, AllocError>
    ensures reached { IfOk result (λ new. new ≡ further reached (addr + len)) }
    ensures pushed { OnOk result (items.new.items ≡ items.old.items
        ++ marked_entry reached next addr len form ∷ []) }
{
    let end = u64::from(addr) + u64::from(len);
    items.push(StartEntry {
        addr,
        len,
        form,
        shared: u64::from(addr) < reached || is_next_below(next, end),
    })?;
    Ok(if reached < end { end } else { reached })
}

/// Appends the entry of a start with this window, marked, where `next` is the start after it. Answers the address
/// that the entries reach.
#[inline(always)]
pub(crate) fn push_by_window(
    items: &mut Vec<StartEntry>,
    window: &[u8],
    addr: u32,
    reached: u64,
    next: Option<u32>,
) -> Result<u64, AllocError>
    requires { length window.now ≤ 15 }
    ensures reached { IfOk result (λ new. (file : List ℕ) → window.now ≡ code.window file addr
        → new ≡ reached_with reached (start_entry file addr next)) }
    ensures pushed { OnOk result ((file : List ℕ) → window.now ≡ code.window file addr
        → items.new.items ≡ items.old.items ++ with_mark reached next (start_entry file addr next) ∷ []) }
{
    match decode(window) {
        Shape::Known(parts) => {
            let form = Some(front_form(&parts, window));
            push_marked(items, addr, parts.len, form, reached, next)
        }
        Shape::Unknown | Shape::Short => {
            let len = reach(window, addr, next);
            push_marked(items, addr, len, None, reached, next)
        }
    }
}

/// The window of a start, which is looked for first in the segment at `place`, or how the start is refused.
#[inline(always)]
pub(crate) fn window_of_start<'a>(
    elf: &'a Elf<'_>,
    place: &mut usize,
    addr: u32,
) -> Result<&'a [u8], StartError>
    ensures { MatchResult result (λ window. (window.now ≡ code.window elf.now.bytes addr)
        × (refusal_of elf.now.bytes addr ≡ None))
        (λ error. refusal_of elf.now.bytes addr ≡ Some error) }
{
    let window = elf.window_near(place, addr);
    if window.is_empty() {
        Err(StartError::NotExecutable { addr })
    } else {
        Ok(window)
    }
}
