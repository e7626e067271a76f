//! One turn.
ghost use Rattle.std.specs.Prelude.{◌≡◌, ◌-◌, ◌≤◌, List, None, Some, true, is_some, length, OnOk, IfOk, Contains};
ghost use Rattle.address_space.specs.declared.extent.Extent.{Extent};
ghost use Rattle.byte_locks.specs.Locking.{lock_at};
ghost use Rattle.site_turns.specs.Modes.{schemes_of};
ghost use Rattle.site_turns.specs.Turned.{IsSetting, scene_by, size_at, IsFreeIn, HasTurned, CanApply, HasApplied, CanEnact, HasEnacted, CanAdd, HasAdded, HasBegun, HasAllTurned};
ghost use Rattle.std.specs.List.Sorted.{IsStrictlyIncreasing};
ghost use Rattle.pun_base.specs.Limits.{most_sites};
ghost use Rattle.address_space.specs.Free.{IsFree};
ghost use Rattle.site_turns.specs.Planning.{first_unlisted};

use crate::choosing::judge;
use crate::locking::{change_runs, pun_runs};
use crate::setting::Setting;
use address_space::space::Space;
use byte_locks::locks::Locks;
use patch_report::row::{RUN_MAX, ReportRow};
use pun_base::outcome::{Outcome, Plan};
use pun_base::range::Range;
use pun_base::tramp::Tramp;
use scheme_search::work::work_size;
use start_entries::entry::StartEntry;
use start_list::turn::Turn;
use std::alloc::{AllocError, Global};

/// The most bytes that a plan locks: three runs are written and three are punned.
const ROOM: u32 = 6 * RUN_MAX as u32;

/// The most trampolines of a plan.
const TRAMPS: u32 = 2;

/// What the turns so far have done: the locks, what is taken, and the rows.
#[derive(Drop)]
pub(crate) struct Progress {
    pub(crate) locks: Locks,
    pub(crate) space: Space,
    pub(crate) rows: Vec<ReportRow>,
}

/// How many bytes the code of a trampoline has.
fn size_of(setting: &Setting<'_>, tramp: &Tramp) -> u32
    requires set { IsSetting setting.now }
    requires movable { is_some (size_at setting.now tramp.now) ≡ true }
    ensures { size_at setting.now tramp.now ≡ Some result }
{
    let entry = setting.starts.at(tramp.start).unwrap();
    let work = work_size(entry).unwrap();
    let event = if tramp.event {
        setting.mode.event_size()
    } else {
        0
    };
    event + work
}

/// Takes the addresses of trampolines.
fn take_trampolines(setting: &Setting<'_>, tramps: &[Tramp], space: &mut Space)
    requires set { IsSetting setting.now }
    requires room { CanAdd setting.now space.old tramps.now }
    ensures { HasAdded setting.now tramps.now space.old space.new }
{
    for tramp in tramps {
        let end = tramp.place + size_of(setting, tramp);
        space.take(Range {
            lo: tramp.place,
            hi: end,
        });
    }
}

impl Progress {
    /// The progress before the first turn: the private range is taken, and there is room for the
    /// rows of so many sites.
    fn begin(
        alloc: Global,
        space: Space,
        private: Range,
        sites: usize,
    ) -> Result<Progress, AllocError>
        requires { IsFree space.taken private.lo (private.hi - private.lo) }
        ensures { IfOk result (λ p. HasBegun space.taken private p) }
    {
        let rows = Vec::with_capacity(alloc, sites)?;
        let mut space = space;
        space.reserve(alloc, 1)?;
        space.take(private);
        Ok(Progress {
            locks: Locks::new(alloc),
            space,
            rows,
        })
    }

    /// Applies a plan.
    fn apply(&mut self, alloc: Global, setting: &Setting<'_>, plan: &Plan) -> Result<(), AllocError>
        requires set { IsSetting setting.now }
        requires plan { CanApply setting.now plan.now self.old }
        ensures { OnOk result (HasApplied setting.now plan.now self.old self.new) }
    {
        self.locks.reserve(alloc, ROOM)?;
        self.space.reserve(alloc, TRAMPS)?;
        change_runs(&mut self.locks, plan.writes.as_slice());
        pun_runs(&mut self.locks, plan.puns.as_slice());
        take_trampolines(setting, plan.tramps.as_slice(), &mut self.space);
        Ok(())
    }

    /// Enacts the outcome of a site: applies its plan, or does nothing where the site is left.
    fn enact(
        &mut self,
        alloc: Global,
        setting: &Setting<'_>,
        outcome: &Outcome,
    ) -> Result<(), AllocError>
        requires set { IsSetting setting.now }
        requires can { CanEnact setting.now outcome.now self.old }
        ensures { OnOk result (HasEnacted setting.now outcome.now self.old self.new) }
    {
        match outcome {
            Outcome::Patched(plan) => self.apply(alloc, setting, plan),
            Outcome::NotRelocatable | Outcome::NoPlan | Outcome::Shared => Ok(()),
        }
    }

    /// The turn of the site with a number.
    pub(crate) fn turn(
        &mut self,
        alloc: Global,
        setting: &Setting<'_>,
        site: &StartEntry,
        number: u32,
    ) -> Result<(), AllocError>
        requires set { IsSetting setting.now }
        requires listed { Contains setting.now.starts.now site.now }
        requires free { IsFreeIn (lock_at self.old.locks) site.now }
        ensures { OnOk result ((shut : List Extent)
            → HasTurned (scene_by setting.now shut) (schemes_of setting.now.mode) site.now number
            self.old self.new) }
    {
        let outcome = judge(
            &Turn {
                elf: setting.elf,
                starts: setting.starts,
                locks: &self.locks,
                space: &self.space,
                event_size: setting.mode.event_size(),
                threads: setting.mode.threads(),
            },
            site,
        );
        self.enact(alloc, setting, &outcome)?;
        self.rows.push(ReportRow {
            site: site.addr,
            number,
            outcome,
        })?;
        Ok(())
    }
}

/// The turns of sites, from the highest to the lowest, with what is free before the first one.
pub(crate) fn turn_all(
    alloc: Global,
    setting: &Setting<'_>,
    sites: &[u32],
    space: Space,
) -> Result<Progress, AllocError>
    requires set { IsSetting setting.now }
    requires ascend { IsStrictlyIncreasing sites.now }
    requires few { length sites.now ≤ most_sites }
    requires listed { first_unlisted setting.now.starts.now sites.now ≡ None }
    requires private { IsFree space.taken setting.now.private.lo
        (setting.now.private.hi - setting.now.private.lo) }
    ensures { IfOk result (λ p. HasAllTurned setting.now sites.now space.taken p) }
{
    let mut progress = Progress::begin(alloc, space, setting.private, sites.len())?;
    for number in (0..sites.len()).rev() {
        let entry = setting.starts.at(sites[number]).unwrap();
        progress.turn(alloc, setting, entry, number as u32)?;
    }
    Ok(progress)
}
