//! The first choice of pads, of a shared value and of two places, for one victim.
ghost use Rattle.std.specs.Prelude.{◌≡◌, ◌+◌, ◌-◌, ◌<◌, ◌≤◌, ◌↔◌, min, IsTrue, Some};
ghost use Rattle.start_list.specs.Forms.{shared_behind, work_length};
ghost use Rattle.start_list.specs.Turning.{view_of};
ghost use Rattle.scheme_search.specs.Order.{FirstBy};
ghost use Rattle.scheme_search.specs.Shared.{by_pick};
ghost use Rattle.scheme_search.specs.Meetings.{IsSized};
ghost use Rattle.scheme_succ.specs.Choices.{IsGood, IsGoodAt, IsGoodBehind, IsGoodWith, IsBeside, IsOpen, IsMeetingOf, whole_order, behind_order, pad_order};

use pun_base::limits::JUMP_LEN;
use scheme_search::meeting::{Meeting, front_first};
use scheme_search::pieces::fixed_behind;
use scheme_search::shared::Pick;
use scheme_search::site_turn::SiteTurn;
use scheme_search::victim::{are_free, is_code_behind, victim_work};
use start_entries::entry::StartEntry;
use std::cmp::min;

/// The first and the last REX prefix (Intel SDM, volume 2, section 2.2.1).
const FIRST_REX: u8 = 0x40;

const LAST_REX: u8 = 0x4F;

/// The most pads of a victim's jump.
const MOST_PADS: u8 = 4;

/// The most displacement bytes that both jumps have.
const MOST_SHARED: u8 = 2;

/// The pads of the site's jump, those of the victim's and their byte, the shared value and the two places.
#[derive(Clone, Copy)]
pub struct Choice {
    pub pads: u8,
    pub victim_pads: u8,
    pub pad: u8,
    pub pick: Pick,
}

/// How many displacement bytes of the victim's jump lie in the victim and in the displacement of the site's jump.
fn shared_bytes(site: &StartEntry, victim: &StartEntry, pads: u8, victim_pads: u8) -> u8
    requires site { site.now.len ≤ 4 }
    requires pads { pads < site.now.len }
    requires victim_pads { (victim_pads ≤ 4) × (victim_pads < victim.now.len) }
    ensures { result ≡ shared_behind site.now victim.now pads victim_pads }
{
    min(
        (pads + 4).saturating_sub(site.len + victim_pads),
        victim.len - (victim_pads + 1),
    )
}

/// How many displacement bytes of the victim's jump lie in the victim.
fn victim_own(victim: &StartEntry, victim_pads: u8) -> u8
    requires { victim_pads < victim.now.len }
    ensures { result ≡ min (victim.now.len - victim_pads - 1) 4 }
{
    min(victim.len - victim_pads - 1, 4)
}

/// How many bytes of the victim its jump writes.
pub fn victim_written(victim: &StartEntry, victim_pads: u8) -> u8
    requires { victim_pads ≤ 4 }
    ensures { result ≡ min victim.now.len (victim_pads + 5) }
{
    min(victim.len, victim_pads + JUMP_LEN)
}

/// Whether the bytes that the victim's jump writes are free, and those after the victim that it
/// needs are code of the site's segment.
fn is_open(here: &SiteTurn<'_>, victim: &StartEntry, victim_pads: u8) -> bool
    requires beside { IsBeside here.now victim.now }
    requires victim_pads { (victim_pads ≤ 4) × (victim_pads < victim.now.len) }
    ensures { IsTrue result ↔ IsOpen (view_of here.now.turn) here.now.site victim.now victim_pads }
{
    are_free(&here.turn, victim.addr, victim_written(victim, victim_pads))
        && is_code_behind(here, victim, 4 - victim_own(victim, victim_pads))
}

/// The meeting of the site's jump and the victim's.
fn meeting_of(
    here: &SiteTurn<'_>,
    victim: &StartEntry,
    pads: u8,
    victim_pads: u8,
    pad: u8,
) -> Meeting
    requires beside { IsBeside here.now victim.now }
    requires pads { pads < here.now.site.len }
    requires victim_pads { (victim_pads ≤ 4) × (victim_pads < victim.now.len) }
    ensures { IsMeetingOf (view_of here.now.turn) here.now.site victim.now pads victim_pads pad result }
{
    let own = victim_own(victim, victim_pads);
    Meeting {
        front_next: here.site.addr + u32::from(pads) + u32::from(JUMP_LEN),
        own: here.site.len - pads - 1,
        back_next: victim.addr + u32::from(victim_pads) + u32::from(JUMP_LEN),
        pads: victim_pads,
        pad,
        back_own: own,
        fixed: fixed_behind(here, victim, 4 - own),
    }
}

/// The first choice with these pads of both jumps, for this meeting of theirs, where the victim's
/// work takes `work` bytes elsewhere.
fn with_pad(
    here: &SiteTurn<'_>,
    victim: &StartEntry,
    work: u32,
    pads: u8,
    meeting: &Meeting,
) -> Option<Choice>
    requires beside { IsBeside here.now victim.now }
    requires pads { pads < here.now.site.len }
    requires victim_pads { (meeting.now.pads ≤ 4) × (meeting.now.pads < victim.now.len) }
    requires few { shared_behind here.now.site victim.now pads meeting.now.pads ≤ 2 }
    requires open { IsOpen (view_of here.now.turn) here.now.site victim.now meeting.now.pads }
    requires rex { (0x40 ≤ meeting.now.pad) × (meeting.now.pad ≤ 0x4F) }
    requires one_pad { meeting.now.pads ≡ 0 → meeting.now.pad ≡ 0x40 }
    requires work { work_length victim.now ≡ Some work }
    requires sized { IsSized work }
    requires meeting { IsMeetingOf (view_of here.now.turn) here.now.site victim.now pads
        meeting.now.pads meeting.now.pad meeting.now }
    ensures { FirstBy (by_pick (λ c. c.pick)) (IsGoodWith (view_of here.now.turn) here.now.site victim.now pads
        meeting.now.pads meeting.now.pad) result }
{
    match front_first(here.turn.space, meeting, here.tramp_size(), work) {
        None => None,
        Some(pick) => Some(Choice {
            pads,
            victim_pads: meeting.pads,
            pad: meeting.pad,
            pick,
        }),
    }
}

/// The first choice with these numbers of pads of both jumps.
fn with_victim_pads(
    here: &SiteTurn<'_>,
    victim: &StartEntry,
    pads: u8,
    victim_pads: u8,
) -> Option<Choice>
    requires beside { IsBeside here.now victim.now }
    requires pads { pads < here.now.site.len }
    requires victim_pads { (victim_pads ≤ 4) × (victim_pads < victim.now.len) }
    ensures { FirstBy pad_order
        (IsGoodBehind (view_of here.now.turn) here.now.site victim.now pads victim_pads) result }
{
    if shared_bytes(&here.site, victim, pads, victim_pads) > MOST_SHARED {
        return None;
    }
    if !is_open(here, victim, victim_pads) {
        return None;
    }
    let last = if victim_pads == 0 {
        FIRST_REX
    } else {
        LAST_REX
    };
    let work = victim_work(here, victim);
    let mut meeting = meeting_of(here, victim, pads, victim_pads, FIRST_REX);
    for pad in FIRST_REX..last + 1 {
        meeting.pad = pad;
        if let Some(choice) = with_pad(here, victim, work, pads, &meeting) {
            return Some(choice);
        }
    }
    None
}

/// One more than the most pads of a victim's jump.
fn pads_end(victim: &StartEntry) -> u8
    ensures { result ≡ min victim.now.len 5 }
{
    min(victim.len, MOST_PADS + 1)
}

/// The first choice with `pads` pads of the site's jump.
fn with_pads(here: &SiteTurn<'_>, victim: &StartEntry, pads: u8) -> Option<Choice>
    requires beside { IsBeside here.now victim.now }
    requires pads { pads < here.now.site.len }
    ensures { FirstBy behind_order (IsGoodAt (view_of here.now.turn) here.now.site victim.now pads) result }
{
    for victim_pads in 0..pads_end(victim) {
        if let Some(choice) = with_victim_pads(here, victim, pads, victim_pads) {
            return Some(choice);
        }
    }
    None
}

/// The first choice of pads, of a shared value and of two places, for this victim.
pub fn first_choice(here: &SiteTurn<'_>, victim: &StartEntry) -> Option<Choice>
    requires { IsBeside here.now victim.now }
    ensures { FirstBy whole_order (IsGood (view_of here.now.turn) here.now.site victim.now) result }
{
    for pads in 0..here.site.len {
        if let Some(choice) = with_pads(here, victim, pads) {
            return Some(choice);
        }
    }
    None
}
