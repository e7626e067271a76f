//! Laws of what the commands answer.
ghost use Rattle.settle_commands.specs.SettleAnswers.{SettleHasOneVerdict};
ghost use Rattle.settle_commands.specs.UnsettleAnswers.{UnsettleHasOneVerdict};

/// There is one verdict at most on what `settle` reads.
pub fn settle_has_one_verdict()
    ensures { SettleHasOneVerdict }
{}

/// There is one verdict at most on what `unsettle` reads.
pub fn unsettle_has_one_verdict()
    ensures { UnsettleHasOneVerdict }
{}
