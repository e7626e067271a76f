//! What becomes of a site.
ghost use Rattle.std.specs.Prelude.{◌≡◌};
ghost use Rattle.pun_base.specs.Outcomes.{outcome_tramps, outcome_writes};

use crate::plan::Write;
use crate::plan_lists::{PunList, TrampList, WriteList};
use crate::scheme::Scheme;
use crate::tramp::Tramp;

/// How a site is patched: its trampolines, what is written, and what must stay as it is.
#[derive(Debug, PartialEq, Eq, Drop)]
pub struct Plan {
    pub scheme: Scheme,
    pub tramps: TrampList,
    pub writes: WriteList,
    pub puns: PunList,
}

/// What becomes of a site.
#[derive(Debug, PartialEq, Eq, Drop)]
pub enum Outcome {
    /// It is patched so.
    Patched(Plan),
    /// Its instruction can't be moved.
    NotRelocatable,
    /// No plan is admissible.
    NoPlan,
    /// Its instruction shares bytes with another start's.
    Shared,
}

impl Outcome {
    /// Its trampolines: none where the site isn't patched.
    pub fn tramps(&self) -> &[Tramp]
        ensures { result.now ≡ outcome_tramps self.now }
    {
        match self {
            Outcome::Patched(plan) => plan.tramps.as_slice(),
            Outcome::NotRelocatable | Outcome::NoPlan | Outcome::Shared => &[],
        }
    }

    /// What is written: nothing where the site isn't patched.
    pub fn writes(&self) -> &[Write]
        ensures { result.now ≡ outcome_writes self.now }
    {
        match self {
            Outcome::Patched(plan) => plan.writes.as_slice(),
            Outcome::NotRelocatable | Outcome::NoPlan | Outcome::Shared => &[],
        }
    }
}
