//! What a settled file does when it is started.
ghost use Rattle.settled_runs.specs.Laws.{StubTells, SettledStarts, BesideRuns, SettledFollows};
ghost use Rattle.settled_runs.specs.Quiet.{SettledIsQuiet, SettledIsPatched, SettledGoesOn};
ghost use Rattle.settled_runs.specs.Patched.{SettledIsFollowed, SettledIsFollowedWith};
ghost use Rattle.settled_runs.specs.Started.{SettledIsStarted};
ghost use Rattle.settled_runs.specs.Loaded.{LoadersKeepVectors, SettledIsLoaded};

/// The stub tells the program its own table, and goes to its entry.
pub fn stub_tells()
    ensures { StubTells }
{}

/// Where a kernel starts a settled file, it comes to the state in which a kernel starts the original at the base.
pub fn settled_starts()
    ensures { SettledStarts }
{}

/// Whatever run the original makes at the base, the settled file makes it too, beside the front that the original hasn't.
pub fn settled_follows()
    ensures beside { BesideRuns }
    ensures follows { SettledFollows }
{}

/// Where a run of the original at the base is quiet, the settled file's run is quiet too, with the stub's steps. So a patched file of
/// the settled file follows it.
pub fn settled_is_quiet()
    ensures quiet { SettledIsQuiet }
    ensures patched { SettledIsPatched }
    ensures delivered { SettledGoesOn }
{}

/// What `patch` writes of a settled file follows the original at its base.
pub fn settled_is_followed()
    ensures plain { SettledIsFollowed }
    ensures delivered { SettledIsFollowedWith }
{}

/// From where a kernel starts it, a rewriting of a settled file follows the original at its base.
pub fn settled_is_started()
    ensures { SettledIsStarted }
{}

/// What is written of a settled file in the loader form follows the original at its base, behind the steps of both stubs.
pub fn settled_is_loaded()
    ensures vectors { LoadersKeepVectors }
    ensures loaded { SettledIsLoaded }
{}
