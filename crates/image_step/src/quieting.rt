//! What a step touches of listed instructions.
ghost use Rattle.std.specs.Prelude.{◌≡◌, ◌+◌, ◌≤◌, length, option_copied, true, IfSome, IsTrue};
ghost use Rattle.std.specs.List.Sorted.{IsStrictlyIncreasing};
ghost use Rattle.cpu_state.specs.Bytes.{avoids};
ghost use Rattle.insn_form.specs.Machine.{avoids_answer, avoids_writes};
ghost use Rattle.cpu_step.specs.Facts.{access_list, info_from};
ghost use Rattle.cpu_step.specs.Steps.{avoids_accesses, avoids_told};
ghost use Rattle.start_entries.specs.Finding.{addresses};
ghost use Rattle.image_runs.specs.Listed.{BeginBelow, HaveNone, IsParted, are_short, is_known_start, is_listed_byte, is_start};

use cpu_state::world::{Entry, MemWrite};
use cpu_step::step_info::{Access, StepFacts};
use pun_base::limits::INSTRUCTION_MAX;
use start_entries::entry::StartEntry;
use start_entries::starts::Starts;

/// How many entries begin so many bytes below an address, or further below; these come first.
fn count_below(entries: &[StartEntry], bytes: u64, addr: u64) -> usize
    requires rising { IsStrictlyIncreasing (addresses entries.now) }
    requires few { bytes ≤ 15 }
    ensures bound { result ≤ length entries.now }
    ensures parted { IsParted entries.now bytes addr result }
{
    entries.partition_point(|entry| u64::from(entry.addr) + bytes <= addr)
}

/// The place of the first entry that can hold an address, and that behind the last one.
fn places(entries: &[StartEntry], addr: u64) -> (usize, usize)
    requires { IsStrictlyIncreasing (addresses entries.now) }
    ensures order { result.0 ≤ result.1 }
    ensures bound { result.1 ≤ length entries.now }
    ensures first { IsParted entries.now 15 addr result.0 }
    ensures end { IsParted entries.now 0 addr result.1 }
{
    let first = count_below(entries, INSTRUCTION_MAX as u64, addr);
    let end = count_below(entries, 0, addr);
    (first, end)
}

/// Whether one of these entries has a byte at an address.
fn has_byte(entries: &[StartEntry], addr: u64) -> bool
    ensures { result ≡ is_listed_byte entries.now addr }
{
    entries.iter().any(|entry| {
        u64::from(entry.addr) <= addr && addr < u64::from(entry.addr) + u64::from(entry.len)
    })
}

/// Whether an address is that of a byte of a listed instruction.
pub(crate) fn is_listed_byte(starts: &Starts, addr: u64) -> bool
    requires { are_short starts.now ≡ true }
    ensures { result ≡ is_listed_byte starts.now addr }
{
    let entries = starts.entries();
    let (first, end) = places(entries, addr);
    has_byte(&entries[first..end], addr)
}

/// Whether one of these entries begins at an address.
fn is_address(entries: &[StartEntry], addr: u64) -> bool
    ensures { result ≡ is_start entries.now addr }
{
    entries.iter().any(|entry| u64::from(entry.addr) == addr)
}

/// Whether one of them does that is of known length.
fn is_known_address(entries: &[StartEntry], addr: u64) -> bool
    ensures { result ≡ is_known_start entries.now addr }
{
    entries.iter().any(|entry| u64::from(entry.addr) == addr && entry.form.is_some())
}

/// What the starts say of an address.
#[derive(Clone, Copy)]
pub(crate) struct Standing {
    /// Whether it is a listed start.
    pub(crate) start: bool,
    /// Whether it is a listed start of known length.
    pub(crate) known: bool,
    /// The place of the first entry above it.
    pub(crate) next: usize,
}

/// Whether the entry at a place is of known length, where it begins at an address.
fn known_at(entries: &[StartEntry], place: usize, addr: u64) -> Option<bool>
    requires { IsStrictlyIncreasing (addresses entries.now) }
    ensures start { IfSome result (λ known. is_start entries.now addr ≡ true) }
    ensures known { IfSome result (λ known. is_known_start entries.now addr ≡ known) }
{
    let entry = entries.get(place)?;
    if u64::from(entry.addr) == addr {
        Some(entry.form.is_some())
    } else {
        None
    }
}

/// What the starts say of an address, wherever it is; entries above it begin at the place `next`.
fn stand_anywhere(starts: &Starts, addr: u64, next: usize) -> Standing
    ensures start { result.start ≡ is_start starts.now addr }
    ensures known { result.known ≡ is_known_start starts.now addr }
{
    let entries = starts.entries();
    match u32::try_from(addr) {
        Ok(addr) => match starts.at(addr) {
            Some(entry) => Standing {
                start: true,
                known: entry.form.is_some(),
                next,
            },
            None => Standing {
                start: false,
                known: false,
                next,
            },
        },
        Err(_) => Standing {
            start: is_address(entries, addr),
            known: is_known_address(entries, addr),
            next,
        },
    }
}

/// What the starts say of an address, whose entry likely stands at the place `near`.
pub(crate) fn stand(starts: &Starts, near: usize, addr: u64) -> Standing
    ensures start { result.start ≡ is_start starts.now addr }
    ensures known { result.known ≡ is_known_start starts.now addr }
{
    let entries = starts.entries();
    if let Some(known) = known_at(entries, near, addr) {
        return Standing {
            start: true,
            known,
            next: near.wrapping_add(1),
        };
    }
    stand_anywhere(starts, addr, count_below(entries, 0, addr))
}

/// Whether the entry at a place begins so far below an address that it can't reach it, and with it those before it.
fn is_below(entries: &[StartEntry], place: usize, addr: u64) -> bool
    requires { IsStrictlyIncreasing (addresses entries.now) }
    ensures { IsTrue result → BeginBelow entries.now (place + 1) addr }
{
    match entries.get(place) {
        Some(entry) => {
            let start = u64::from(entry.addr);
            start <= addr && INSTRUCTION_MAX as u64 <= addr - start
        }
        None => false,
    }
}

/// Whether the first so many entries begin so far below an address that they can't reach it.
fn begin_below(entries: &[StartEntry], count: usize, addr: u64) -> bool
    requires { IsStrictlyIncreasing (addresses entries.now) }
    ensures { IsTrue result → BeginBelow entries.now count addr }
{
    if count == 0 {
        return true;
    }
    is_below(entries, count - 1, addr)
}

/// Whether no entry begins from one address up to another, nor so near below the first that it could reach it.
fn are_apart(entries: &[StartEntry], addr: u64, end: u64) -> bool
    requires rising { IsStrictlyIncreasing (addresses entries.now) }
    requires short { are_short entries.now ≡ true }
    ensures { IsTrue result → HaveNone entries.now addr end }
{
    if begin_below(entries, entries.len(), addr) {
        return true;
    }
    begin_below(entries, count_below(entries, 0, end), addr)
}

/// Whether no listed instruction begins among so many addresses, nor so near below them that it could reach them.
fn is_clear(starts: &Starts, addr: u64, count: usize) -> bool
    requires { are_short starts.now ≡ true }
    ensures { IsTrue result → avoids (is_listed_byte starts.now) addr count ≡ true }
{
    match addr.checked_add(count as u64) {
        Some(end) => are_apart(starts.entries(), addr, end),
        None => false,
    }
}

/// Whether none of so many bytes from an address on is one of a listed instruction.
fn avoids(starts: &Starts, addr: u64, count: usize) -> bool
    requires { are_short starts.now ≡ true }
    ensures { result ≡ avoids (is_listed_byte starts.now) addr count }
{
    if is_clear(starts, addr, count) {
        return true;
    }
    let mut at = addr;
    for _turn in 0..count {
        if is_listed_byte(starts, at) {
            return false;
        }
        at = at.wrapping_add(1);
    }
    true
}

/// Whether an access, where one is made, meets no byte of a listed instruction.
fn avoids_access(starts: &Starts, access: Access) -> bool
    requires { are_short starts.now ≡ true }
    ensures { result ≡ avoids_accesses (is_listed_byte starts.now) (access_list access) }
{
    if access.is_made {
        avoids(starts, access.addr, usize::from(access.size))
    } else {
        true
    }
}

/// Whether no write of an answer meets a byte of a listed instruction.
fn avoid_writes(starts: &Starts, writes: &[MemWrite]) -> bool
    requires { are_short starts.now ≡ true }
    ensures { result ≡ avoids_writes (is_listed_byte starts.now) writes.now }
{
    for write in writes {
        if !avoids(starts, write.addr, write.bytes.as_slice().len()) {
            return false;
        }
    }
    true
}

/// Whether no write of the answer of an entry meets a byte of a listed instruction.
fn avoids_answer(starts: &Starts, next: Option<&Entry>) -> bool
    requires { are_short starts.now ≡ true }
    ensures { result ≡ avoids_answer (is_listed_byte starts.now) (option_copied next.entry) }
{
    match next {
        Some(entry) => avoid_writes(starts, entry.answer.writes.as_slice()),
        None => true,
    }
}

/// Whether a step that told this met no byte of a listed instruction.
pub(crate) fn leaves_listed(starts: &Starts, facts: &StepFacts, next: Option<&Entry>) -> bool
    requires { are_short starts.now ≡ true }
    ensures { result ≡ avoids_told (is_listed_byte starts.now) (option_copied next.entry)
        (info_from facts.now) }
{
    avoids_access(starts, facts.read)
        && avoids_access(starts, facts.write)
        && (!facts.answer_wrote || avoids_answer(starts, next))
}
