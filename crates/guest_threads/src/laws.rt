//! What holds of the files that are written for guests of several threads.
ghost use Rattle.guest_threads.specs.FromTurns.{FoldedIsThreadSound, TurnsForThreads, MarksHaveRoom, TurnsAreThreaded, ThreadJobLoads, WrittenIsThreaded};
ghost use Rattle.rewrite_core.specs.Laws.{AreJudgedOnce};
ghost use Rattle.guest_threads.specs.ThreadRewriting.{Judges};
ghost use Rattle.guest_threads.specs.WorkedFile.{RowIsThreaded};
ghost use Rattle.guest_threads.specs.WorkedGuest.{IsThreadsReal};

/// The premises of the theorem on guest threads are met: by two threads that run a written file, of
/// which one stops after its LOCK INC.
#[tactic(auto, using(crate::proofs::WorkedGuest::threads_are_real))]
pub fn threads_are_real()
    ensures { IsThreadsReal }
{}

/// What the turns have done, loaded with the code of threads, is sound for threads.
#[tactic(auto, using(crate::proofs::ThreadSoundness::folded_is_thread_sound))]
pub fn folded_is_thread_sound()
    ensures { FoldedIsThreadSound }
{}

/// After the turns of all five schemes one jump or two lead to each trampoline, the numbers of events differ, and there is room
/// for what they write to.
pub fn turns_for_threads()
    ensures jumps { TurnsForThreads }
    ensures room { MarksHaveRoom }
{}

/// Once what the turns have done is loaded, the patched guest runs as the original does, and
/// counts, covers or keeps a ring.
pub fn turns_are_threaded()
    ensures { TurnsAreThreaded }
{}

/// The file that is written for the turns loads what they have done: with any number of threads it runs as the original does, and counts,
/// covers or keeps a ring.
pub fn written_is_threaded()
    ensures loads { ThreadJobLoads }
    ensures followed { WrittenIsThreaded }
{}

/// The input of the first worked row of `threads` is judged to be a job, and the file of that job
/// runs with threads as the original does.
#[tactic(auto, using(crate::proofs::WorkedFile::row_is_threaded))]
pub fn written_row()
    ensures { RowIsThreaded }
{}

/// An input of `rewrite_threads` has one job or one refusal at most.
#[tactic(auto, using(crate::proofs::ThreadVerdicts::judged_once))]
pub fn judged_once()
    ensures { AreJudgedOnce Judges }
{}
