//! A patched file that runs up to an outside state.
ghost use Rattle.std.specs.Prelude.{◌≡◌, ◌+◌, ◌-◌, ◌^◌, ◌<◌, true, List, []};
ghost use Rattle.insn_form.specs.Machine.{Machine};
ghost use Rattle.image_step.specs.Running.{Shows};
ghost use Rattle.guest_findings.specs.Generating.{StepsOn, RanUntil};

use guest_gen::guest::STEPS;
use image_step::runner::Runner;

/// The most steps: 24 for each of the original's.
const MOST: u32 = 24 * STEPS;

/// Runs on, step by step, until so many states stand at a listed start, and answers the steps.
///
/// It ends sooner where no step leads on, and after `MOST` steps.
pub fn follow(runner: &mut Runner<'_>, number: u64) -> u32
    requires { runner.old.steps ≡ 0 }
    ensures { (s : Machine) → Shows runner.old s []
        → RanUntil runner.old.starts number s runner.new result }
{
    for turn in 0..MOST {
        if number <= runner.outside() {
            return turn;
        }
        if !advance(runner) {
            return turn;
        }
    }
    MOST
}

/// Makes a step, and tells whether one was made.
fn advance(runner: &mut Runner<'_>) -> bool
    requires { runner.old.steps < 2 ^ 64 - 2 }
    ensures starts { runner.new.starts ≡ runner.old.starts }
    ensures steps { result ≡ true → runner.new.steps ≡ runner.old.steps + 1 }
    ensures shows { (s : Machine) (ts : List Machine) → Shows runner.old s ts
        → StepsOn runner.new s ts result }
{
    runner.run(1).stop.is_none()
}
