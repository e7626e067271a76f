//! Laws about rewritten files.
ghost use Rattle.insn_form.specs.Step.{Step};
ghost use Rattle.rewrite_core.specs.Laws.{JudgedInTurn, PlannedOnce, JudgedOnce};
ghost use Rattle.rewrite_core.specs.GlossesWith.{FollowsSaidWith};
ghost use Rattle.rewrite_core.specs.Glosses.{MomentsSaid, FollowsSaid, QuietRuns, CoverLength, CoverRecord, CountRecord, RingRecord, WhenRecord};

/// An input has one job or one refusal at most: first by its plan, then by the table of its file.
pub fn judged_once()
    ensures in_turn { JudgedInTurn }
    ensures planned { PlannedOnce }
    ensures judged { JudgedOnce }
{}

/// What it means that a patched run follows the original's, one fact at a time: its outside states,
/// its end, its passes and its record.
pub fn follows_said()
    ensures any_step { MomentsSaid }
    ensures step { FollowsSaid Step }
{}

/// What it means that a patched run with deliveries follows the original's: its outside states, its
/// end, its passes and its record.
pub fn follows_said_with()
    ensures { FollowsSaidWith }
{}

/// The original's quiet runs, of which the headline speaks, are runs: a step that leaves the listed
/// bytes alone is a step.
#[tactic(auto, using(crate::proofs::QuietRuns::quiet))]
pub fn quiet_runs()
    ensures { QuietRuns Step }
{}

/// What the record tells under cover.
#[tactic(auto, using(crate::proofs::CoverRecords::cover_length, crate::proofs::CoverRecords::cover_byte))]
pub fn cover_record()
    ensures length { CoverLength }
    ensures bytes { CoverRecord }
{}

/// What the record tells under count.
#[tactic(auto, using(crate::proofs::CountRecords::count_field))]
pub fn count_record()
    ensures { CountRecord }
{}

/// What the record tells under a ring.
pub fn ring_record()
    ensures { RingRecord }
{}

/// What the record tells under a condition.
#[tactic(auto, using(crate::proofs::ConditionalRecords::when_same))]
pub fn when_record()
    ensures { WhenRecord }
{}
