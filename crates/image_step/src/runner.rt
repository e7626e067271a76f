//! A file that runs, and how a run of it ends.
ghost use Rattle.std.specs.Prelude.{◌≡◌, ◌+◌, ◌≤◌, length, true};
ghost use Rattle.image_runs.specs.Listed.{are_short, is_known_start};

use cpu_state::state::State;
use cpu_state::world::Entry;
use cpu_step::kept::KeptInsns;
use cpu_step::stop::Stop;
use start_entries::starts::Starts;

/// A file that runs under a script, whose world it borrows.
#[derive(Drop)]
pub struct Runner<'a> {
    pub(crate) state: State,
    pub(crate) kept: KeptInsns,
    pub(crate) world: &'a [Entry],
    pub(crate) used: usize,
    pub(crate) starts: Starts,
    pub(crate) steps: u64,
    pub(crate) outside: u64,
    pub(crate) quiet: bool,
    /// Whether the state stands at a listed start of known length.
    pub(crate) known: bool,
    /// The place among the starts where the next step likely leads.
    pub(crate) near: usize,
    pub ghost counted: { outside ≤ steps + 1 },
    pub ghost within: { used ≤ length world.now },
    pub ghost stands: { known ≡ is_known_start starts state.rip },
    pub ghost short: { are_short starts ≡ true },
}

/// How a run ended: the number of its steps, and why there is no further one, where that is so.
#[derive(Debug, PartialEq, Eq, Drop)]
pub struct RunEnd {
    pub steps: u64,
    pub stop: Option<Stop>,
}
