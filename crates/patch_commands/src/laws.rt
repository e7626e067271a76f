//! Laws of what is judged of inputs.
ghost use Rattle.pun_base.specs.declared.action.Action.{Action};
ghost use Rattle.command_io.specs.Verdict.{plain};
ghost use Rattle.patch_commands.specs.Answers.{HasOneVerdict};
ghost use Rattle.patch_commands.specs.LoadAnswers.{with_stub};
ghost use Rattle.patch_commands.specs.ThreadsAnswers.{ThreadsHaveOneVerdict, for_threads, for_threads_with_stub};
ghost use Rattle.patch_commands.specs.UnpatchAnswers.{UnpatchHasOneVerdict};

/// Of the inputs that a desk holds there is one verdict at most, for each command that writes.
pub fn one_verdict()
    ensures patch { HasOneVerdict plain }
    ensures load { HasOneVerdict with_stub }
    ensures threads { ThreadsHaveOneVerdict }
    ensures threads_reported { (action : Action) → HasOneVerdict (for_threads action) }
    ensures threads_loaded { (action : Action) → HasOneVerdict (for_threads_with_stub action) }
    ensures unpatch { UnpatchHasOneVerdict }
{}
