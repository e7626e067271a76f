//! Scheme T3.
ghost use Rattle.start_list.specs.Sites.{IsSite};
ghost use Rattle.start_list.specs.Plans.{FirstPlan};
ghost use Rattle.start_list.specs.Turning.{view_of};

use crate::choice::{SHORT_JUMP_LEN, first_choice};
use crate::plan::near_plan;
use pun_base::outcome::Plan;
use pun_base::scheme::Scheme;
use scheme_search::site_turn::SiteTurn;
use start_entries::entry::StartEntry;
use start_list::turn::Turn;

/// A plan of T3 for a site at its turn.
pub fn plan_t3(here: &SiteTurn<'_>) -> Option<Plan>
    ensures { FirstPlan (view_of here.now.turn) here.now.site Scheme.T3 result }
{
    if here.site.len < SHORT_JUMP_LEN {
        return None;
    }
    match first_choice(here) {
        None => None,
        Some(choice) => Some(near_plan(here, &choice)),
    }
}

/// Scheme T3: a short jump from the site into a victim above it, by the first choice of the victim,
/// of the place in it, of the bytes that its two jumps share and of the two places (PLDI 2020
/// paper, section 3).
pub fn find_t3(turn: &Turn<'_>, site: &StartEntry) -> Option<Plan>
    requires { IsSite turn.now site.now }
    ensures { FirstPlan (view_of turn.now) site.now Scheme.T3 result }
{
    plan_t3(&SiteTurn::new(turn, site))
}
