//! The plan of one jump on a site, after pads.
ghost use Rattle.std.specs.Prelude.{◌≡◌, ℕ, ◌+◌, ◌<◌, ◌≤◌, min, map};
ghost use Rattle.std.specs.List.{AllByRecursion};
ghost use Rattle.start_list.specs.PlanJumps.{is_punned, after_writes};
ghost use Rattle.start_list.specs.Plans.{AreRuns, TellsPun, pun_run, bytes_from};
ghost use Rattle.start_list.specs.TurnViews.{memory_now};
ghost use Rattle.start_list.specs.Turning.{view_of};
ghost use Rattle.scheme_search.specs.Padded.{jumps, Reaches, IsPaddedPlan};

use crate::site_turn::SiteTurn;
use crate::standing::standing_bytes;
use jump_form::jump::spell;
use pun_base::byte_list::ByteList;
use pun_base::limits::JUMP_LEN;
use pun_base::outcome::Plan;
use pun_base::plan::Write;
use pun_base::plan_lists::{PunList, TrampList, WriteList};
use pun_base::pun::Pun;
use pun_base::scheme::Scheme;
use pun_base::tramp::Tramp;
use start_entries::entry::StartEntry;
use std::cmp::min;

/// A REX prefix without a bit (Intel SDM, volume 2, section 2.2.1).
pub const PAD: u8 = 0x40;

/// How many bytes of the jump lie in the site.
fn written_len(site: &StartEntry, pads: u8) -> u8
    requires { pads ≤ 3 }
    ensures { result ≡ min site.now.len (pads + 5) }
{
    min(site.len, pads + JUMP_LEN)
}

/// What the jump writes on the site.
fn jump_write(here: &SiteTurn<'_>, pads: u8, place: u32) -> Write
    requires inside { pads < here.now.site.len }
    requires few { pads ≤ 3 }
    requires low { here.now.site.addr + pads + 5 ≤ 0x7FFF0000 }
    requires reaches { Reaches (view_of here.now.turn) here.now.site pads place }
    ensures addr { result.addr ≡ here.now.site.addr }
    ensures was { result.was ≡ bytes_from (memory_now (view_of here.now.turn)) here.now.site.addr
        (min here.now.site.len (pads + 5)) }
    ensures after { result.now ≡ bytes_from (after_writes (memory_now (view_of here.now.turn))
        (jumps here.now.site pads place)) here.now.site.addr (min here.now.site.len (pads + 5)) }
{
    let site = &here.site;
    let len = written_len(site, pads);
    let jump = spell(site.addr, pads, PAD, place);
    let was = standing_bytes(&here.turn, site.addr, len);
    let now = ByteList::from_slice(&jump.as_slice()[..usize::from(len)]);
    Write {
        addr: site.addr,
        was,
        now,
    }
}

/// What the jump puns after the site.
fn jump_puns(here: &SiteTurn<'_>, pads: u8) -> PunList
    requires inside { pads < here.now.site.len }
    requires few { pads ≤ 3 }
    requires low { here.now.site.addr + pads + 5 ≤ 0x7FFF0000 }
    ensures runs { (place : ℕ) → AreRuns (is_punned (jumps here.now.site pads place))
        (map pun_run result) }
    ensures bytes { AllByRecursion (TellsPun (memory_now (view_of here.now.turn))) result }
{
    let site = &here.site;
    let mut puns = PunList::new();
    if site.len < pads + JUMP_LEN {
        let addr = site.addr + u32::from(site.len);
        let bytes = standing_bytes(&here.turn, addr, pads + JUMP_LEN - site.len);
        puns.push(Pun { addr, bytes });
    }
    puns
}

/// The plan of the jump after `pads` pads to the site's trampoline at a place.
pub fn padded_plan(here: &SiteTurn<'_>, scheme: Scheme, pads: u8, place: u32) -> Plan
    requires inside { pads < here.now.site.len }
    requires few { pads ≤ 3 }
    requires low { here.now.site.addr + pads + 5 ≤ 0x7FFF0000 }
    requires reaches { Reaches (view_of here.now.turn) here.now.site pads place }
    ensures { IsPaddedPlan (view_of here.now.turn) here.now.site scheme pads place result }
{
    let mut tramps = TrampList::new();
    tramps.push(Tramp {
        place,
        start: here.site.addr,
        event: true,
    });
    let mut writes = WriteList::new();
    writes.push(jump_write(here, pads, place));
    Plan {
        scheme,
        tramps,
        writes,
        puns: jump_puns(here, pads),
    }
}
