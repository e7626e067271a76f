//! The turns over the sites.
ghost use Rattle.std.specs.Prelude.{◌≡◌, ◌≤◌, None, length, IfOk, IfErr};
ghost use Rattle.std.specs.List.Sorted.{IsStrictlyIncreasing};
ghost use Rattle.pun_base.specs.Actions.{IsAction};
ghost use Rattle.pun_base.specs.Limits.{most_sites};
ghost use Rattle.elf_read.specs.Refusals.{refusal};
ghost use Rattle.start_entries.specs.Laws.{IsBuilt};
ghost use Rattle.site_turns.specs.Modes.{action_of, rules_of};
ghost use Rattle.site_turns.specs.Planning.{requested, Turns, IsTurned, IsPlanned, IsRequestRefused};

use crate::asking::{free_space, pages_for, unlisted};
use crate::building::{EventSetting, build_all};
use crate::error::TurnError;
use crate::mode::Mode;
use crate::planned::Planned;
use crate::progress::{Progress, turn_all};
use crate::setting::Setting;
use elf_read::elf::Elf;
use patch_report::row::ReportRow;
use pun_base::action::Action;
use pun_base::limits::PAGE_LEN;
use pun_base::range::Range;
use start_entries::starts::Starts;
use std::alloc::{AllocError, Global};

/// What the turns give: the private range, and a row for each site in turn order.
#[derive(Drop)]
pub struct TurnedSites {
    pub private: Range,
    pub rows: Vec<ReportRow>,
}

/// Makes the turn of each site, from the highest to the lowest: the site gets a jump to a place for
/// code, or is left. No code is made.
///
/// `sites` are addresses in ascending order, and no new code stands in the reserved ranges.
pub fn turn_sites(
    alloc: Global,
    elf: &Elf<'_>,
    starts: &Starts,
    sites: &[u32],
    mode: Mode,
    reserves: &[Range],
) -> Result<TurnedSites, TurnError>
    requires ascend { IsStrictlyIncreasing sites.now }
    requires few { length sites.now ≤ most_sites }
    requires action { IsAction (action_of mode) }
    requires built { IsBuilt elf.now.bytes starts.now }
    ensures accepted { IfOk result (λ _. refusal 0x10000 elf.now.bytes ≡ None) }
    ensures turned { IfOk result (λ p. (turns : Turns) × IsTurned (rules_of mode)
        (requested elf.now.bytes starts.now sites.now (action_of mode) reserves.now) turns p.private p.rows.items) }
    ensures refused { IfErr result (λ error. IsRequestRefused
        (requested elf.now.bytes starts.now sites.now (action_of mode) reserves.now) error) }
{
    if let Some(site) = unlisted(starts, sites) {
        return Err(TurnError::NotListed { site });
    }
    let Ok(space) = free_space(alloc, elf, reserves) else {
        return Err(TurnError::Memory);
    };
    let pages = pages_for(mode.action(), sites.len() as u32);
    let Some(lo) = space.least_pages(pages) else {
        return Err(TurnError::NoPrivate { pages });
    };
    let private = Range {
        lo,
        hi: lo + pages * PAGE_LEN,
    };
    let setting = Setting {
        elf,
        starts,
        mode,
        private,
    };
    let Ok(done) = turn_all(alloc, &setting, sites, space) else {
        return Err(TurnError::Memory);
    };
    let Progress {
        locks: _,
        space: _,
        rows,
    } = done;
    Ok(TurnedSites { private, rows })
}

/// Plans each site, from the highest to the lowest: the site gets a jump to new code, or is left.
///
/// `sites` are addresses in ascending order, and no new code stands in the reserved ranges.
pub fn plan_all(
    alloc: Global,
    elf: &Elf<'_>,
    starts: &Starts,
    sites: &[u32],
    action: Action,
    reserves: &[Range],
) -> Result<Planned, TurnError>
    requires ascend { IsStrictlyIncreasing sites.now }
    requires few { length sites.now ≤ most_sites }
    requires action { IsAction action }
    requires built { IsBuilt elf.now.bytes starts.now }
    ensures planned { IfOk result (λ p. (turns : Turns) × IsPlanned
        (requested elf.now.bytes starts.now sites.now action reserves.now) turns p) }
    ensures refused { IfErr result (λ error. IsRequestRefused
        (requested elf.now.bytes starts.now sites.now action reserves.now) error) }
{
    let TurnedSites { private, rows } = turn_sites(
        alloc,
        elf,
        starts,
        sites,
        Mode::Events(action),
        reserves,
    )?;
    let setting = EventSetting {
        elf,
        starts,
        action,
        private,
    };
    let Ok(built) = build_all(alloc, &setting, &rows) else {
        return Err(TurnError::Memory);
    };
    Ok(Planned::new(private, rows, built))
}
