//! What holds of guests whose threads begin on the way, and of runs with deliveries.
ghost use Rattle.thread_laws.specs.EachRunWith.{EachRunWithIsWatched};
ghost use Rattle.thread_laws.specs.ThreadsBegin.{ThreadsMayBegin};
ghost use Rattle.thread_laws.specs.Overtaken.{OvertakenThreadsGetOut};
ghost use Rattle.thread_laws.specs.GoingOn.{ProperRunsGoOn};
ghost use Rattle.thread_laws.specs.WorkedBirth.{IsBirthReal};
ghost use Rattle.thread_laws.specs.WorkedRuns.{ConditionIsReal, RingIsReal, VictimIsReal};

/// Each run of a guest with deliveries is one that is watched.
pub fn each_run_with()
    ensures { EachRunWithIsWatched }
{}

/// In each run that meets the premises, with deliveries and with threads that begin on the way, the patched guest runs as the original
/// does, and counts, covers or keeps a ring; and what clone makes of a thread can begin where the thread stands at a listed start after its
/// call, so where the call's SYSCALL isn't displaced.
pub fn threads_may_begin()
    ensures { ThreadsMayBegin }
{}

/// A thread that others overtook inside a trampoline gets out, too, also where threads begin on the way: scheduled alone from there, it is soon
/// where the original's step leads; and its steps meet the premises, where they leave the saved bytes of all other threads alone.
pub fn overtaken_get_out()
    ensures { OvertakenThreadsGetOut }
{}

/// A proper run that goes on by a proper one is proper, so that the laws on proper runs can be applied one after another.
pub fn runs_go_on()
    ensures { ProperRunsGoOn }
{}

/// The premises of the theorem are met with threads that begin: by a thread that makes a clone, and the thread that begins, which goes through the
/// trampoline of a site that covers.
pub fn birth_is_real()
    ensures { IsBirthReal }
{}

/// The premises of the theorem are met under a condition: by two threads, of which one meets it.
pub fn condition_is_real()
    ensures { ConditionIsReal }
{}

/// The premises are met with a ring: by two threads, of which one stops between its claim and its fill, and is overtaken.
pub fn ring_is_real()
    ensures { RingIsReal }
{}

/// The premises are met with a victim: by two threads, of which one stops in front of the displaced instruction.
pub fn victim_is_real()
    ensures { VictimIsReal }
{}
