//! The first choice of a victim, of a place in it, of a shared value and of two places.
ghost use Rattle.std.specs.Prelude.{◌≡◌, ◌+◌, ◌-◌, ◌<◌, ◌≤◌, ◌↔◌, min, IsTrue, Some, false, is_some, Contains};
ghost use Rattle.start_entries.specs.Finding.{entry_at};
ghost use Rattle.start_list.specs.Forms.{work_length};
ghost use Rattle.start_list.specs.Turning.{view_of};
ghost use Rattle.scheme_search.specs.Meetings.{IsSized};
ghost use Rattle.scheme_search.specs.Order.{FirstBy};
ghost use Rattle.scheme_search.specs.Shared.{by_pick};
ghost use Rattle.scheme_near.specs.Choices.{IsGood, IsGoodOf, IsGoodAt, IsBeside, AreFree, IsOpen, IsMeetingOf, whole_order, offset_order};

use pun_base::limits::JUMP_LEN;
use scheme_search::meeting::{Meeting, back_first};
use scheme_search::pieces::fixed_behind;
use scheme_search::plan::PAD;
use scheme_search::shared::Pick;
use scheme_search::site_turn::SiteTurn;
use scheme_search::victim::{are_free, is_code_behind, may_be_victim, site_end, victim_work};
use start_entries::entry::StartEntry;
use start_list::turn::Turn;
use std::cmp::min;

/// How many bytes a `jmp rel8` has (Intel SDM, volume 2, JMP rel8), and so the fewest that a site
/// patched by this scheme has.
pub const SHORT_JUMP_LEN: u8 = 2;

/// How far from a site's start a short jump leads at most: its length and the greatest displacement.
const FARTHEST: u32 = SHORT_JUMP_LEN as u32 + 127;

/// A victim, how far after its start the site's short jump leads, the shared value and the two
/// places.
#[derive(Clone, Copy)]
pub struct Choice {
    pub victim: StartEntry,
    pub offset: u8,
    pub pick: Pick,
}

/// How many displacement bytes of the jump inside the victim lie in the victim.
fn inner_own(victim: &StartEntry, offset: u8) -> u8
    requires { offset < victim.now.len }
    ensures { result ≡ min (victim.now.len - offset - 1) 4 }
{
    min(victim.len - offset - 1, 4)
}

/// How many displacement bytes of the victim's own jump lie before the jump inside.
fn outer_own(offset: u8) -> u8
    requires { 2 ≤ offset }
    ensures { result ≡ min (offset - 1) 4 }
{
    min(offset - 1, 4)
}

/// How many bytes a jump without pads writes where `room` are left of its instruction.
pub fn written_len(room: u8) -> u8
    ensures { result ≡ min room 5 }
{
    min(room, JUMP_LEN)
}

/// Whether the victim's bytes that its two jumps write are free.
fn are_victim_bytes_free(turn: &Turn<'_>, victim: &StartEntry, offset: u8) -> bool
    requires inside { offset < victim.now.len }
    requires end { victim.now.addr + victim.now.len ≤ 0x7FFF0000 }
    ensures { IsTrue result ↔ AreFree (view_of turn.now) victim.now offset }
{
    if !are_free(turn, victim.addr, written_len(victim.len)) {
        return false;
    }
    let place = victim.addr + u32::from(offset);
    let count = written_len(victim.len - offset);
    are_free(turn, place, count)
}

/// Whether the bytes that the two jumps write in the victim are free, and the bytes after it that
/// they need are code of the site's segment.
fn is_open(here: &SiteTurn<'_>, victim: &StartEntry, offset: u8) -> bool
    requires beside { IsBeside here.now victim.now }
    requires inside { (2 ≤ offset) × (offset < victim.now.len) }
    ensures { IsTrue result ↔ IsOpen (view_of here.now.turn) here.now.site victim.now offset }
{
    are_victim_bytes_free(&here.turn, victim, offset)
        && is_code_behind(here, victim, 4 - inner_own(victim, offset))
}

/// The meeting of the victim's own jump and the jump inside it.
fn meeting_of(here: &SiteTurn<'_>, victim: &StartEntry, offset: u8) -> Meeting
    requires beside { IsBeside here.now victim.now }
    requires inside { (2 ≤ offset) × (offset < victim.now.len) }
    ensures { IsMeetingOf (view_of here.now.turn) victim.now offset result }
{
    let own = inner_own(victim, offset);
    Meeting {
        front_next: victim.addr + u32::from(JUMP_LEN),
        own: outer_own(offset),
        back_next: victim.addr + u32::from(offset) + u32::from(JUMP_LEN),
        pads: 0,
        pad: PAD,
        back_own: own,
        fixed: fixed_behind(here, victim, 4 - own),
    }
}

/// The first choice with the short jump to this place in the victim, where the bytes are open and
/// the victim's work takes `work` bytes elsewhere.
fn at_place(here: &SiteTurn<'_>, victim: &StartEntry, work: u32, offset: u8) -> Option<Choice>
    requires room { 2 ≤ here.now.site.len }
    requires beside { IsBeside here.now victim.now }
    requires inside { (2 ≤ offset) × (offset < victim.now.len) }
    requires near { victim.now.addr + offset ≤ here.now.site.addr + 129 }
    requires unlisted { is_some (entry_at here.now.turn.starts.now (victim.now.addr + offset)) ≡ false }
    requires open { IsOpen (view_of here.now.turn) here.now.site victim.now offset }
    requires work { work_length victim.now ≡ Some work }
    requires sized { IsSized work }
    ensures { FirstBy (by_pick (λ c. c.pick)) (IsGoodAt (view_of here.now.turn) here.now.site victim.now offset) result }
{
    let meeting = meeting_of(here, victim, offset);
    match back_first(here.turn.space, &meeting, here.tramp_size(), work) {
        None => None,
        Some(pick) => Some(Choice {
            victim: *victim,
            offset,
            pick,
        }),
    }
}

/// The first choice with the short jump to this place in the victim, if its bytes are open and no
/// start is listed there.
fn with_offset(here: &SiteTurn<'_>, victim: &StartEntry, work: u32, offset: u8) -> Option<Choice>
    requires room { 2 ≤ here.now.site.len }
    requires beside { IsBeside here.now victim.now }
    requires inside { (2 ≤ offset) × (offset < victim.now.len) }
    requires work { work_length victim.now ≡ Some work }
    requires sized { IsSized work }
    ensures { FirstBy (by_pick (λ c. c.pick)) (IsGoodAt (view_of here.now.turn) here.now.site victim.now offset) result }
{
    let place = victim.addr + u32::from(offset);
    if place > here.site.addr + FARTHEST {
        return None;
    }
    match here.turn.starts.at(place) {
        Some(_) => None,
        None => {
            if is_open(here, victim, offset) {
                at_place(here, victim, work, offset)
            } else {
                None
            }
        }
    }
}

/// The first choice with this victim.
fn in_victim(here: &SiteTurn<'_>, victim: &StartEntry) -> Option<Choice>
    requires room { 2 ≤ here.now.site.len }
    requires beside { IsBeside here.now victim.now }
    ensures { FirstBy offset_order (IsGoodOf (view_of here.now.turn) here.now.site victim.now) result }
{
    let work = victim_work(here, victim);
    for offset in 2..victim.len {
        if let Some(choice) = with_offset(here, victim, work, offset) {
            return Some(choice);
        }
    }
    None
}

/// The first choice with this entry as the victim, if it may be one.
fn in_entry(here: &SiteTurn<'_>, entry: &StartEntry) -> Option<Choice>
    requires room { 2 ≤ here.now.site.len }
    requires listed { Contains here.now.turn.starts.now entry.now }
    requires above { here.now.site.addr + here.now.site.len ≤ entry.now.addr }
    ensures { FirstBy offset_order (IsGoodOf (view_of here.now.turn) here.now.site entry.now) result }
{
    if may_be_victim(here, entry) {
        in_victim(here, entry)
    } else {
        None
    }
}

/// The first choice of a victim, of a place in it, of a shared value and of two places.
pub fn first_choice(here: &SiteTurn<'_>) -> Option<Choice>
    requires { 2 ≤ here.now.site.len }
    ensures { FirstBy whole_order (IsGood (view_of here.now.turn) here.now.site) result }
{
    let mut last = site_end(here) - 1;
    while let Some(entry) = here.turn.starts.next_after(last) {
        if entry.addr > here.site.addr + FARTHEST {
            return None;
        }
        match in_entry(here, entry) {
            Some(choice) => return Some(choice),
            None => last = entry.addr,
        }
    }
    None
}
