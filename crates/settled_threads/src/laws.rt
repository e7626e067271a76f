//! What a settled file's guest of several threads does.
ghost use Rattle.settled_threads.specs.Beside.{StepsComeBack, RunsComeBack};
ghost use Rattle.settled_threads.specs.FileRuns.{SettledGuests, SettledThreadsFollow};
ghost use Rattle.settled_threads.specs.Loaded.{SettledThreadsLoad};

/// A thread's step beside memory that it leaves alone is one without it, and so is each run of a guest.
pub fn runs_come_back()
    ensures step { StepsComeBack }
    ensures run { RunsComeBack }
{}

/// A run of a settled file's guest that begins with the stub's steps and then leaves the front alone is one of the original's at the base, behind them.
pub fn settled_guests()
    ensures { SettledGuests }
{}

/// From where a kernel starts it, a settled file that was patched for threads follows the original at its base.
pub fn settled_threads_follow()
    ensures { SettledThreadsFollow }
{}

/// What is written of it in the loader form does so behind the steps of both stubs.
pub fn settled_threads_load()
    ensures { SettledThreadsLoad }
{}
