//! What the definitions promise of scripts without deliveries.
ghost use Rattle.inspect_commands.specs.StepLaws.{PlainRunsAreTold};

/// Of a script without deliveries `step` tells the tally of the run that it has alone.
#[tactic(auto, using(crate::proofs::PlainRuns::plain_runs))]
pub fn plain_runs_are_told()
    ensures { PlainRunsAreTold }
{}
