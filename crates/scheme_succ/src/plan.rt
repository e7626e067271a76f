//! The plan of a site's jump that ends in its victim's jump.
ghost use Rattle.std.specs.Prelude.{◌≡◌};
ghost use Rattle.start_list.specs.PlanJumps.{after_writes};
ghost use Rattle.start_list.specs.Plans.{IsPlanOf, bytes_from};
ghost use Rattle.start_list.specs.TurnViews.{memory_now};
ghost use Rattle.start_list.specs.Turning.{view_of};
ghost use Rattle.scheme_succ.specs.Choices.{IsBeside, IsGood, candidate, jumps, written_count};

use crate::choice::{Choice, victim_written};
use arrayvec::ArrayVec;
use jump_form::jump::spell;
use pun_base::limits::JUMP_LEN;
use pun_base::outcome::Plan;
use pun_base::plan::Write;
use pun_base::plan_lists::WriteList;
use pun_base::scheme::Scheme;
use scheme_search::pieces::{puns_behind, two_tramps, write_of};
use scheme_search::plan::PAD;
use scheme_search::site_turn::SiteTurn;
use start_entries::entry::StartEntry;

/// What the two jumps write: one run of bytes, since the victim begins where the site ends.
fn jump_write(here: &SiteTurn<'_>, victim: &StartEntry, choice: &Choice) -> Write
    requires beside { IsBeside here.now victim.now }
    requires good { IsGood (view_of here.now.turn) here.now.site victim.now choice.now }
    ensures addr { result.addr ≡ here.now.site.addr }
    ensures was { result.was ≡ bytes_from (memory_now (view_of here.now.turn)) here.now.site.addr
        (written_count here.now.site victim.now choice.now) }
    ensures after { result.now ≡ bytes_from (after_writes (memory_now (view_of here.now.turn))
        (jumps here.now.site victim.now choice.now)) here.now.site.addr
        (written_count here.now.site victim.now choice.now) }
{
    let front = spell(here.site.addr, choice.pads, PAD, choice.pick.first);
    let back = spell(
        victim.addr,
        choice.victim_pads,
        choice.pad,
        choice.pick.second,
    );
    let written = victim_written(victim, choice.victim_pads);
    let mut bytes: ArrayVec<u8, 16> = ArrayVec::new();
    bytes
        .try_extend_from_slice(&front.as_slice()[..usize::from(here.site.len)])
        .unwrap();
    bytes
        .try_extend_from_slice(&back.as_slice()[..usize::from(written)])
        .unwrap();
    write_of(&here.turn, here.site.addr, bytes.as_slice())
}

/// The plan of a choice of scheme T2.
pub fn behind_plan(here: &SiteTurn<'_>, victim: &StartEntry, choice: &Choice) -> Plan
    requires beside { IsBeside here.now victim.now }
    requires good { IsGood (view_of here.now.turn) here.now.site victim.now choice.now }
    ensures { IsPlanOf (view_of here.now.turn) here.now.site (candidate victim.now choice.now) result }
{
    let mut writes = WriteList::new();
    writes.push(jump_write(here, victim, choice));
    Plan {
        scheme: Scheme::T2,
        tramps: two_tramps(&here.site, choice.pick.first, victim, choice.pick.second),
        writes,
        puns: puns_behind(&here.turn, victim, choice.victim_pads + JUMP_LEN),
    }
}
