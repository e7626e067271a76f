//! Schemes B1 and B2.
ghost use Rattle.start_list.specs.Sites.{IsSite};
ghost use Rattle.start_list.specs.Plans.{FirstPlan};
ghost use Rattle.start_list.specs.Turning.{view_of};

use pun_base::outcome::Plan;
use pun_base::scheme::Scheme;
use scheme_search::padded::least_place;
use scheme_search::plan::padded_plan;
use scheme_search::site_turn::{SHORT, SiteTurn};
use start_entries::entry::StartEntry;
use start_list::turn::Turn;

/// A plan of B1 for a site at its turn.
pub fn plan_b1(here: &SiteTurn<'_>) -> Option<Plan>
    ensures { FirstPlan (view_of here.now.turn) here.now.site Scheme.B1 result }
{
    if here.site.len <= SHORT {
        return None;
    }
    match least_place(here, 0) {
        None => None,
        Some(place) => Some(padded_plan(here, Scheme::B1, 0, place)),
    }
}

/// Scheme B1: a jump that fits into the site, to the least place for its trampoline (Duck, Gao, Roychoudhury, PLDI 2020,
/// section 3).
pub fn find_b1(turn: &Turn<'_>, site: &StartEntry) -> Option<Plan>
    requires { IsSite turn.now site.now }
    ensures { FirstPlan (view_of turn.now) site.now Scheme.B1 result }
{
    plan_b1(&SiteTurn::new(turn, site))
}

/// A plan of B2 for a site at its turn.
pub fn plan_b2(here: &SiteTurn<'_>) -> Option<Plan>
    ensures { FirstPlan (view_of here.now.turn) here.now.site Scheme.B2 result }
{
    if here.site.len > SHORT {
        return None;
    }
    match least_place(here, 0) {
        None => None,
        Some(place) => Some(padded_plan(here, Scheme::B2, 0, place)),
    }
}

/// Scheme B2: a jump on a shorter site, whose last bytes are those that stand after the site, to
/// the least place for its trampoline (Duck, Gao, Roychoudhury, PLDI 2020, section 3).
pub fn find_b2(turn: &Turn<'_>, site: &StartEntry) -> Option<Plan>
    requires { IsSite turn.now site.now }
    ensures { FirstPlan (view_of turn.now) site.now Scheme.B2 result }
{
    plan_b2(&SiteTurn::new(turn, site))
}
