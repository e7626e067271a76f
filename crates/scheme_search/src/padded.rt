//! One jump on a site, after pads: its least target, and the plan.
ghost use Rattle.std.specs.Prelude.{◌≡◌, ◌+◌, ◌-◌, ◌<◌, ◌≤◌, min, IfSome};
ghost use Rattle.pun_base.specs.Least.{Least};
ghost use Rattle.start_list.specs.Turning.{view_of};
ghost use Rattle.scheme_search.specs.Padded.{Reaches, IsTarget};

use crate::site_turn::SiteTurn;
use crate::standing::{are_code, standing_bytes};
use jump_form::window::{Targets, window};
use start_entries::entry::StartEntry;
use std::cmp::min;

/// How many displacement bytes of the jump lie in the site.
fn own_bytes(site: &StartEntry, pads: u8) -> u8
    requires { pads < site.now.len }
    ensures value { result ≡ min (site.now.len - pads - 1) 4 }
    ensures few { result ≤ 4 }
{
    min(site.len - pads - 1, 4)
}

/// The least of these targets at which the site's trampoline is free.
fn least_target(here: &SiteTurn<'_>, targets: &Targets) -> Option<u32>
    ensures { Least (IsTarget (view_of here.now.turn) here.now.site targets.now) result }
{
    let size = here.tramp_size();
    here.turn
        .space
        .least_fit(targets.lo, targets.hi, size, None)
}

/// The least place of the site's trampoline to which a jump after `pads` pads can lead.
pub fn least_place(here: &SiteTurn<'_>, pads: u8) -> Option<u32>
    requires { pads < here.now.site.len }
    ensures least { Least (Reaches (view_of here.now.turn) here.now.site pads) result }
    ensures low { IfSome result (λ _. here.now.site.addr + pads + 5 ≤ 0x7FFF0000) }
{
    let site = &here.site;
    let own = own_bytes(site, pads);
    let end = site.addr + u32::from(site.len);
    if are_code(&here.segment, end, 4 - own) {
        let fixed = standing_bytes(&here.turn, end, 4 - own);
        let targets = window(site.addr, pads, own, fixed.as_slice());
        least_target(here, &targets)
    } else {
        None
    }
}
