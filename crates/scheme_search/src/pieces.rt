//! The pieces of a plan: what is written and what is punned.
ghost use Rattle.std.specs.Prelude.{◌≡◌, ◌+◌, ◌<◌, ◌≤◌, ◌^◌, ◌-◌, [], ◌∷◌, length, map, Contains};
ghost use Rattle.std.specs.List.{AllByRecursion};
ghost use Rattle.pun_base.specs.Ranges.{is_within};
ghost use Rattle.jump_form.specs.Jumps.{AreBytes};
ghost use Rattle.start_list.specs.Forms.{for_site, for_victim};
ghost use Rattle.start_list.specs.Plans.{AreRuns, TellsPun, bytes_from, pun_run, tramp_of};
ghost use Rattle.start_list.specs.TurnViews.{memory_now};
ghost use Rattle.start_list.specs.Turning.{view_of};

use crate::site_turn::SiteTurn;
use crate::standing::standing_bytes;
use crate::victim::entry_end;
use pun_base::byte_list::ByteList;
use pun_base::plan::Write;
use pun_base::plan_lists::{PunList, TrampList};
use pun_base::pun::Pun;
use pun_base::tramp::Tramp;
use start_entries::entry::StartEntry;
use start_list::turn::Turn;

/// The write that puts these bytes at an address.
pub fn write_of(turn: &Turn<'_>, addr: u32, bytes: &[u8]) -> Write
    requires few { (1 ≤ length bytes.now) × (length bytes.now ≤ 16) }
    requires place { addr + 16 < 2 ^ 32 }
    ensures addr { result.addr ≡ addr }
    ensures was { result.was ≡ bytes_from (memory_now (view_of turn.now)) addr (length bytes.now) }
    ensures after { result.now ≡ bytes.now }
{
    Write {
        addr,
        was: standing_bytes(turn, addr, bytes.len() as u8),
        now: ByteList::from_slice(bytes),
    }
}

/// A list of bytes as a `ByteList`, whose elements are below 256.
fn byte_list(bytes: &[u8]) -> ByteList
    requires { length bytes.now ≤ 16 }
    ensures value { result ≡ bytes.now }
    ensures small { AreBytes result }
{
    ByteList::from_slice(bytes)
}

/// The `count` bytes that stand from an address on, as high displacement bytes of a jump before them.
fn fixed_bytes(turn: &Turn<'_>, addr: u32, count: u8) -> ByteList
    requires few { count ≤ 16 }
    requires place { addr + count < 2 ^ 32 }
    ensures value { result ≡ bytes_from (memory_now (view_of turn.now)) addr count }
    ensures length { length result ≡ count }
    ensures small { AreBytes result }
{
    let standing = standing_bytes(turn, addr, count);
    byte_list(standing.as_slice())
}

/// The `count` bytes that stand after a listed instruction, as high displacement bytes of a jump in
/// it.
pub fn fixed_behind(here: &SiteTurn<'_>, entry: &StartEntry, count: u8) -> ByteList
    requires listed { Contains here.now.turn.starts.now entry.now }
    requires few { count ≤ 4 }
    ensures value { result ≡ bytes_from (memory_now (view_of here.now.turn))
        (entry.now.addr + entry.now.len) count }
    ensures length { length result ≡ count }
    ensures small { AreBytes result }
{
    fixed_bytes(&here.turn, entry_end(here, entry), count)
}

/// The bytes that stand from an address on, as punned ones.
fn pun_of(turn: &Turn<'_>, addr: u32, count: u8) -> Pun
    requires few { count ≤ 16 }
    requires place { addr + count < 2 ^ 32 }
    ensures addr { result.addr ≡ addr }
    ensures length { length result.bytes ≡ count }
    ensures tells { TellsPun (memory_now (view_of turn.now)) result }
{
    Pun {
        addr,
        bytes: standing_bytes(turn, addr, count),
    }
}

/// What a jump puns that ends `reach` bytes after an instruction's start: the bytes after the
/// instruction.
pub fn puns_behind(turn: &Turn<'_>, entry: &StartEntry, reach: u8) -> PunList
    requires few { reach ≤ entry.now.len + 16 }
    requires place { entry.now.addr + reach ≤ 0x7FFF0000 }
    ensures runs { AreRuns (is_within (entry.now.addr + entry.now.len) (reach - entry.now.len))
        (map pun_run result) }
    ensures bytes { AllByRecursion (TellsPun (memory_now (view_of turn.now))) result }
{
    let mut puns = PunList::new();
    if entry.len < reach {
        let addr = entry.addr + u32::from(entry.len);
        puns.push(pun_of(turn, addr, reach - entry.len));
    }
    puns
}

/// The site's trampoline and the victim's, at their places.
pub fn two_tramps(site: &StartEntry, first: u32, victim: &StartEntry, second: u32) -> TrampList
    ensures { result ≡ map tramp_of
        (for_site site.now first ∷ for_victim victim.now second ∷ []) }
{
    let mut tramps = TrampList::new();
    tramps.push(Tramp {
        place: first,
        start: site.addr,
        event: true,
    });
    tramps.push(Tramp {
        place: second,
        start: victim.addr,
        event: false,
    });
    tramps
}
