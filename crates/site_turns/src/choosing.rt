//! What becomes of a site at its turn.
ghost use Rattle.start_list.specs.Sites.{IsSite};
ghost use Rattle.start_list.specs.Turning.{view_of};
ghost use Rattle.site_turns.specs.Laws.{single, five};
ghost use Rattle.site_turns.specs.Turned.{FoundBy, IsJudged, IsFreeSite};

use pun_base::outcome::{Outcome, Plan};
use scheme_near::find::plan_t3;
use scheme_pad::find::plan_t1;
use scheme_pun::find::{plan_b1, plan_b2};
use scheme_search::site_turn::SiteTurn;
use scheme_succ::find::plan_t2;
use start_entries::entry::StartEntry;
use start_list::turn::Turn;

/// The first plan of the first scheme that has one, of the schemes with one trampoline.
fn find_single(here: &SiteTurn<'_>) -> Option<Plan>
    ensures { FoundBy (view_of here.now.turn) here.now.site single result }
{
    if let Some(plan) = plan_b1(here) {
        return Some(plan);
    }
    if let Some(plan) = plan_b2(here) {
        return Some(plan);
    }
    plan_t1(here)
}

/// The first plan of the first scheme that has one, of all five schemes.
fn find(here: &SiteTurn<'_>) -> Option<Plan>
    ensures { FoundBy (view_of here.now.turn) here.now.site five result }
{
    if let Some(plan) = find_single(here) {
        return Some(plan);
    }
    if let Some(plan) = plan_t2(here) {
        return Some(plan);
    }
    plan_t3(here)
}

/// The first plan of the first scheme that has one, of all five schemes, for a site of a turn.
fn find_for(turn: &Turn<'_>, site: &StartEntry) -> Option<Plan>
    requires { IsSite turn.now site.now }
    ensures { FoundBy (view_of turn.now) site.now five result }
{
    let here = SiteTurn::new(turn, site);
    find(&here)
}

/// What becomes of a site: a plan is applied, or it is left, since it shares bytes, since its
/// instruction can't be displaced or since no scheme has a plan.
pub(crate) fn judge(turn: &Turn<'_>, site: &StartEntry) -> Outcome
    requires { IsFreeSite turn.now site.now }
    ensures { IsJudged five (view_of turn.now) site.now result }
{
    if site.shared {
        return Outcome::Shared;
    }
    if !turn.is_movable(site) {
        return Outcome::NotRelocatable;
    }
    match find_for(turn, site) {
        Some(plan) => Outcome::Patched(plan),
        None => Outcome::NoPlan,
    }
}
