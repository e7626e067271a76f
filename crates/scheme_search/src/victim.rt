//! Instructions beside a site that a plan may patch.
ghost use Rattle.std.specs.Prelude.{◌≡◌, ℕ, ◌+◌, ◌<◌, ◌≤◌, ◌^◌, ◌↔◌, IsTrue, true, Some, Contains};
ghost use Rattle.start_list.specs.Forms.{MayBeVictim, work_length};
ghost use Rattle.start_list.specs.TurnViews.{share_segment};
ghost use Rattle.start_list.specs.Turning.{view_of};
ghost use Rattle.scheme_search.specs.Meetings.{IsSized};

use crate::site_turn::SiteTurn;
use crate::standing::are_code;
use crate::work::work_size;
use byte_locks::lock::Lock;
use start_entries::entry::StartEntry;
use start_list::turn::{Turn, is_code_at};

/// The address after a site.
pub fn site_end(here: &SiteTurn<'_>) -> u32
    ensures value { result ≡ here.now.site.addr + here.now.site.len }
    ensures low { result ≤ 0x7FFF0000 }
{
    here.site.addr + u32::from(here.site.len)
}

/// The address after a listed instruction.
pub(crate) fn entry_end(here: &SiteTurn<'_>, entry: &StartEntry) -> u32
    requires { Contains here.now.turn.starts.now entry.now }
    ensures value { result ≡ entry.now.addr + entry.now.len }
    ensures low { result ≤ 0x7FFF0000 }
{
    entry.addr + u32::from(entry.len)
}

/// Whether the `count` bytes after a listed instruction are code of the site's segment.
pub fn is_code_behind(here: &SiteTurn<'_>, entry: &StartEntry, count: u8) -> bool
    requires listed { Contains here.now.turn.starts.now entry.now }
    requires few { count ≤ 4 }
    ensures { IsTrue result ↔ ((k : ℕ) → k < count → share_segment
        (view_of here.now.turn).segments here.now.site.addr (entry.now.addr + entry.now.len + k) ≡ true) }
{
    are_code(&here.segment, entry_end(here, entry), count)
}

/// Whether a listed instruction may be patched beside the site.
pub fn may_be_victim(here: &SiteTurn<'_>, entry: &StartEntry) -> bool
    requires { Contains here.now.turn.starts.now entry.now }
    ensures { IsTrue result ↔ MayBeVictim (view_of here.now.turn) here.now.site entry.now }
{
    is_code_at(&here.segment, entry.addr)
        && here.turn.is_movable(entry)
        && here.turn.untouched(entry)
}

/// How many bytes the code has that does a victim's work elsewhere.
pub fn victim_work(here: &SiteTurn<'_>, victim: &StartEntry) -> u32
    requires { MayBeVictim (view_of here.now.turn) here.now.site victim.now }
    ensures value { work_length victim.now ≡ Some result }
    ensures sized { IsSized result }
{
    work_size(victim).unwrap()
}

/// Whether `count` bytes from an address on may be written.
pub fn are_free(turn: &Turn<'_>, addr: u32, count: u8) -> bool
    requires { addr + count < 2 ^ 32 }
    ensures { IsTrue result
        ↔ ((k : ℕ) → k < count → (view_of turn.now).lock (addr + k) ≡ Lock.Free) }
{
    for k in 0..count {
        if !turn.locks.is_free(addr + u32::from(k)) {
            return false;
        }
    }
    true
}
