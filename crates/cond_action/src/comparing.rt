//! The steps of comparisons (Intel SDM, volume 2, CMP and Jcc).
ghost use Rattle.std.specs.Prelude.{◌≡◌, ◌+◌, ◌≤◌, ◌++◌, ◌∷◌, [], length};
ghost use Rattle.pun_base.specs.Actions.{listed};
ghost use Rattle.event_steps.specs.declared.step.EventStep.TheVariants.{Compare, SkipIf};
ghost use Rattle.cond_action.specs.Codes.{failing};
ghost use Rattle.cond_action.specs.CondLists.{register_checks};

use arrayvec::ArrayVec;
use event_steps::step::EventStep;
use pun_base::action::{CompareOp, Comparison, Comparisons};

/// The condition code of the jump that is taken where a comparison fails: `jne`, `je`, `jae`, `ja`, `jbe`, `jb`.
fn failing_code(op: CompareOp) -> u8
    ensures { result ≡ failing op }
{
    match op {
        CompareOp::Eq => 5,
        CompareOp::Ne => 4,
        CompareOp::Lt => 3,
        CompareOp::Le => 7,
        CompareOp::Gt => 6,
        CompareOp::Ge => 2,
    }
}

/// Adds a comparison, and a jump over so many of the next steps where it fails.
fn push_check(steps: &mut ArrayVec<EventStep, 16>, one: Comparison, over: u8)
    requires { length steps.old.items + 2 ≤ 16 }
    ensures { steps.new.items ≡ steps.old.items ++ (Compare one.reg one.value ∷ SkipIf (failing one.op) over ∷ []) }
{
    steps.push(EventStep::Compare(one.reg, one.value));
    steps.push(EventStep::SkipIf(failing_code(one.op), over));
}

/// Adds the comparisons, each with a jump over those behind it and the step that records.
pub(crate) fn push_checks(steps: &mut ArrayVec<EventStep, 16>, list: Comparisons)
    requires { length steps.old.items + 6 ≤ 16 }
    ensures { steps.new.items ≡ steps.old.items ++ register_checks (listed list) }
{
    match list {
        Comparisons::One(a) => push_check(steps, a, 1),
        Comparisons::Two(a, b) => {
            push_check(steps, a, 3);
            push_check(steps, b, 1);
        }
        Comparisons::Three(a, b, c) => {
            push_check(steps, a, 5);
            push_check(steps, b, 3);
            push_check(steps, c, 1);
        }
    }
}
