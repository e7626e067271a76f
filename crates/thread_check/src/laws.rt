//! What holds of files that are sound for threads.
ghost use Rattle.thread_check.specs.ThreadSoundness.{ThreadCaseIsFollowed};

/// Where no rule fails anywhere, the patched file starts where the original does, and runs with any
/// number of threads as the original does, and counts.
pub fn thread_case_is_followed()
    ensures { ThreadCaseIsFollowed }
{}
