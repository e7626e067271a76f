//! Scheme T2.
ghost use Rattle.start_list.specs.Sites.{IsSite};
ghost use Rattle.start_list.specs.Plans.{FirstPlan};
ghost use Rattle.start_list.specs.Turning.{view_of};

use crate::choice::first_choice;
use crate::plan::behind_plan;
use pun_base::outcome::Plan;
use pun_base::scheme::Scheme;
use scheme_search::site_turn::{SHORT, SiteTurn};
use scheme_search::victim::{may_be_victim, site_end};
use start_entries::entry::StartEntry;
use start_list::turn::Turn;

/// A plan of T2 for a site at its turn.
pub fn plan_t2(here: &SiteTurn<'_>) -> Option<Plan>
    ensures { FirstPlan (view_of here.now.turn) here.now.site Scheme.T2 result }
{
    if here.site.len > SHORT {
        return None;
    }
    match here.turn.starts.at(site_end(here)) {
        None => None,
        Some(victim) => {
            if may_be_victim(here, victim) {
                match first_choice(here, victim) {
                    None => None,
                    Some(choice) => Some(behind_plan(here, victim, &choice)),
                }
            } else {
                None
            }
        }
    }
}

/// Scheme T2: a jump on a short site that ends in the jump of the victim right after it, by the
/// first choice of pads, of the bytes that both jumps share and of the two places (PLDI 2020 paper,
/// section 3).
pub fn find_t2(turn: &Turn<'_>, site: &StartEntry) -> Option<Plan>
    requires { IsSite turn.now site.now }
    ensures { FirstPlan (view_of turn.now) site.now Scheme.T2 result }
{
    plan_t2(&SiteTurn::new(turn, site))
}
