//! What is planned for a guest of several threads.
ghost use Rattle.std.specs.Prelude.{◌≤◌, length, IfOk, IfErr};
ghost use Rattle.std.specs.List.Sorted.{IsStrictlyIncreasing};
ghost use Rattle.pun_base.specs.Actions.{IsAction};
ghost use Rattle.pun_base.specs.Limits.{most_sites};
ghost use Rattle.start_entries.specs.Laws.{IsBuilt};
ghost use Rattle.site_turns.specs.Modes.{IsShared};
ghost use Rattle.site_turns.specs.Planning.{requested, Turns, IsRequestRefused};
ghost use Rattle.guest_threads.specs.ThreadPlanning.{IsThreadPlanned, CanBuildThread, code_in};

use code_bytes::code::Code;
use elf_read::elf::Elf;
use pun_base::action::Action;
use pun_base::range::Range;
use pun_base::tramp::Tramp;
use site_turns::building::{Coding, build_all};
use site_turns::error::TurnError;
use site_turns::mode::{Mode, thread_event_of};
use site_turns::plan::{TurnedSites, turn_sites};
use site_turns::planned::Planned;
use site_turns::start_insn::insn_at;
use start_entries::starts::Starts;
use std::alloc::Global;
use thread_runs::thread_trampoline;

/// What the code of trampolines for threads is made of: what events do, the original, its starts, and
/// the private range.
#[derive(Clone, Copy)]
pub(crate) struct ThreadSetting<'a> {
    pub(crate) action: Action,
    pub(crate) elf: &'a Elf<'a>,
    pub(crate) starts: &'a Starts,
    pub(crate) private: Range,
}

impl Coding for ThreadSetting<'_> {
    ghost can = { CanBuildThread };

    ghost is_code = { code_in };

    fn code_of(&self, number: u32, tramp: &Tramp) -> Code {
        let Some(at) = insn_at(self.elf, self.starts, tramp.start) else {
            unreachable!();
        };
        thread_trampoline(
            thread_event_of(self.action, tramp.event),
            at.insn,
            at.bytes,
            at.entry.addr,
            tramp.place,
            number,
            self.private.lo,
        )
        .unwrap()
    }
}

/// Plans each site for a guest of several threads, from the highest to the lowest: the site gets a
/// jump to new code, whose event is the action's, or is left. A victim's code has no event.
///
/// `sites` are addresses in ascending order, and no new code stands in the reserved ranges.
pub fn plan_threads(
    alloc: Global,
    elf: &Elf<'_>,
    starts: &Starts,
    sites: &[u32],
    action: Action,
    reserves: &[Range],
) -> Result<Planned, TurnError>
    requires ascend { IsStrictlyIncreasing sites.now }
    requires few { length sites.now ≤ most_sites }
    requires action { IsAction action }
    requires shared { IsShared action }
    requires built { IsBuilt elf.now.bytes starts.now }
    ensures planned { IfOk result (λ p. (turns : Turns) × IsThreadPlanned
        (requested elf.now.bytes starts.now sites.now action reserves.now) turns p) }
    ensures refused { IfErr result (λ error. IsRequestRefused
        (requested elf.now.bytes starts.now sites.now action reserves.now) error) }
{
    let TurnedSites { private, rows } = turn_sites(
        alloc,
        elf,
        starts,
        sites,
        Mode::Threads(action),
        reserves,
    )?;
    let setting = ThreadSetting {
        action,
        elf,
        starts,
        private,
    };
    let Ok(built) = build_all(alloc, &setting, &rows) else {
        return Err(TurnError::Memory);
    };
    Ok(Planned::new(private, rows, built))
}
