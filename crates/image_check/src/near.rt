//! What begins near an address, in lists that are sorted by where things begin.
ghost use Rattle.std.specs.Prelude.{◌≡◌, ◌≤◌, ℕ, Bool, IsTrue};
ghost use Rattle.std.specs.List.{count_by};
ghost use Rattle.std.specs.List.Sorted.{IsNonDecreasingBy};
ghost use Rattle.start_entries.specs.declared.entry.StartEntry.{StartEntry};
ghost use Rattle.image_check.specs.Nearness.{IsNear};
ghost use Rattle.image_check.specs.Stretches.{BeginFrom};

use crate::flat::ReportLine;
use crate::placed_code::PlacedCode;
use pun_base::limits::INSTRUCTION_MAX;
use pun_base::plan::Write;
use start_entries::entry::StartEntry;
use start_entries::starts::Starts;

/// Something that begins at an address.
pub(crate) trait Located {
    /// Where the element begins.
    ghost first: { Self → ℕ };

    /// Where the element begins.
    fn first(&self) -> u64
        ensures { result ≡ first self.now };
}

impl Located for Write {
    ghost first = { λ w. w.addr };

    fn first(&self) -> u64 {
        u64::from(self.addr)
    }
}

impl Located for ReportLine {
    ghost first = { λ l. l.tramp.start };

    fn first(&self) -> u64 {
        u64::from(self.tramp.start)
    }
}

impl Located for PlacedCode {
    ghost first = { λ p. p.line.tramp.place };

    fn first(&self) -> u64 {
        u64::from(self.line.tramp.place)
    }
}

impl Located for StartEntry {
    ghost first = { λ e. e.addr };

    fn first(&self) -> u64 {
        u64::from(self.addr)
    }
}

impl Located for (u32, u32) {
    ghost first = { λ p. p.0 };

    fn first(&self) -> u64 {
        u64::from(self.0)
    }
}

/// The elements that begin at `addr` or less than `size` bytes below it.
pub(crate) fn near<T: Located>(items: &[T], size: u64, addr: u64) -> &[T]
    requires rises { IsNonDecreasingBy T.first items.now }
    ensures near { IsNear (λ y. y) T.first size addr result.now items.now }
    ensures part { (q : T → Bool) → count_by q result.now ≤ count_by q items.now }
{
    let low = addr.saturating_sub(size);
    let rest = &items[items.partition_point(|item| item.first() < low)..];
    &rest[..rest.partition_point(|item| item.first() <= addr)]
}

/// Whether the elements from an index of the list on begin at `addr` or above.
pub(crate) fn begin_from<T: Located>(items: &[T], place: usize, addr: u64) -> bool
    requires rises { IsNonDecreasingBy T.first items.now }
    ensures { IsTrue result → BeginFrom T.first items.now place addr }
{
    if place >= items.len() {
        return true;
    }
    addr <= items[place].first()
}

/// The listed instructions that can hold an address.
pub(crate) fn near_entries(starts: &Starts, addr: u64) -> &[StartEntry]
    ensures near { IsNear (λ e. e) (λ e. e.addr) 15 addr result.now starts.now }
    ensures part { (q : StartEntry → Bool) → count_by q result.now ≤ count_by q starts.now }
{
    near(starts.entries(), INSTRUCTION_MAX as u64, addr)
}
