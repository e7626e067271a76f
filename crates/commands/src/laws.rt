//! Laws of files that were planned and written, and of what commands answer one after the other.
ghost use Rattle.commands.specs.Planned.{FrameIsReversed, PlannedIsTold, PlannedIsReversed, PlannedLoaderIsReversed, JudgedIsReversed, JudgedThreadsAreReversed, JudgedThreadLoadersAreReversed};
ghost use Rattle.commands.specs.Reversal.{PatchIsReversed, LoadIsReversed, ThreadsAreReversed, LoadedThreadsAreReversed};

/// What is written for an original can be loaded, and a report that tells it undoes it, whatever follows the private
/// range. The report of what was planned for a file tells it; so what is written for the plan, as a patched file or in the
/// loader form, is undone by its report.
pub fn planned_is_reversed()
    ensures frame { FrameIsReversed }
    ensures told { PlannedIsTold }
    ensures patch { PlannedIsReversed }
    ensures load { PlannedLoaderIsReversed }
{}

/// What is written for each job that an input is judged to be is undone by its report.
pub fn judged_is_reversed()
    ensures { JudgedIsReversed }
{}

/// What is written for each job for threads that an input is judged to be is undone by its report, in either form.
pub fn judged_threads_are_reversed()
    ensures plain { JudgedThreadsAreReversed }
    ensures loader { JudgedThreadLoadersAreReversed }
{}

/// What a patch leaves under OUT and REPORT gives FILE back, where it is within the limit of a read.
pub fn patch_is_reversed()
    ensures { PatchIsReversed }
{}

/// What `load` leaves under OUT and REPORT gives FILE back, where it is within the limit of a read.
pub fn load_is_reversed()
    ensures { LoadIsReversed }
{}

/// What `threads` leaves under OUT and REPORT gives FILE back, where it is within the limit of a read.
pub fn threads_are_reversed()
    ensures plain { ThreadsAreReversed }
    ensures loader { LoadedThreadsAreReversed }
{}
