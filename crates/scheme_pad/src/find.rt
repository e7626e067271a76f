//! Scheme T1.
ghost use Rattle.start_list.specs.Sites.{IsSite};
ghost use Rattle.start_list.specs.Plans.{FirstPlan};
ghost use Rattle.start_list.specs.Turning.{view_of};

use pun_base::outcome::Plan;
use pun_base::scheme::Scheme;
use scheme_search::padded::least_place;
use scheme_search::plan::padded_plan;
use scheme_search::site_turn::{SHORT, SiteTurn};
use start_entries::entry::StartEntry;
use start_list::turn::Turn;

/// A plan of T1 for a site at its turn.
pub fn plan_t1(here: &SiteTurn<'_>) -> Option<Plan>
    ensures { FirstPlan (view_of here.now.turn) here.now.site Scheme.T1 result }
{
    if here.site.len > SHORT {
        return None;
    }
    for pads in 1..here.site.len {
        if let Some(place) = least_place(here, pads) {
            return Some(padded_plan(here, Scheme::T1, pads, place));
        }
    }
    None
}

/// Scheme T1: a jump after the least number of pads with which one leads to a free place, to the
/// least such place (Duck, Gao, Roychoudhury, PLDI 2020, section 3).
pub fn find_t1(turn: &Turn<'_>, site: &StartEntry) -> Option<Plan>
    requires { IsSite turn.now site.now }
    ensures { FirstPlan (view_of turn.now) site.now Scheme.T1 result }
{
    plan_t1(&SiteTurn::new(turn, site))
}
