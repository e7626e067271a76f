//! What holds of runs of several threads, and of single steps of theirs.
ghost use Rattle.thread_runs.specs.ThreadLists.{AreThreadLists, ThreadEventsRestore, MarksWhereMet, ThreadRingsRestore};
ghost use Rattle.thread_runs.specs.SiteEvents.{SiteEventsAreLists, SiteStepTold, SiteStepGoes, SiteComesIn, SiteGoesOn, SiteCanGoOn, SiteRestores, SiteMarks, SiteWrites};
ghost use Rattle.thread_runs.specs.Alone.{EventCountsAlone};
ghost use Rattle.thread_runs.specs.AloneWithRing.{EventKeepsAlone};
ghost use Rattle.thread_runs.specs.WorkedConditions.{ConditionsAreWorked};
ghost use Rattle.thread_runs.specs.WorkedRing.{RingIsWorked};
ghost use Rattle.event_steps.specs.ThreadSteps.{IsThreadStep};
ghost use Rattle.thread_runs.specs.Work.{IsEffectStep, IsTailStep};
ghost use Rattle.thread_runs.specs.Theorem.{ThreadsAreFollowed};
ghost use Rattle.thread_runs.specs.TheoremWithDeliveries.{ThreadsAreFollowedWith};
ghost use Rattle.thread_runs.specs.LockedSpelling.{LockedIsSpelled, LockIsUntested, XaddIsSpelled};
ghost use Rattle.thread_runs.specs.EachRun.{EachRunIsWatched};
ghost use Rattle.thread_runs.specs.Running.{RunsOneWay};
ghost use Rattle.thread_runs.specs.StepLaws.{WorkTouches, WorkLong, TailTouches, TailInside, WorkedCore, LeadsTold, NotLocked, StepLaws};

/// Events are lists of steps, with their code. Whatever other threads do in between, they restore registers and flags, mark where the condition
/// holds, and put the number into a slot that there is.
pub fn events_as_lists()
    ensures codes { AreThreadLists }
    ensures restore { ThreadEventsRestore }
    ensures mark { MarksWhereMet }
    ensures ring { ThreadRingsRestore }
{}

/// The event of a site, whatever its kind, is its list of steps. Where a thread stands in front of some of them, whatever its registers and memory
/// are, each step that it makes is that of the list, and there is this step where its operands are held.
pub fn site_steps()
    ensures lists { SiteEventsAreLists }
    ensures told { SiteStepTold }
    ensures goes { SiteStepGoes }
{}

/// While others step, a thread in the event of a site goes on by its steps, restores registers and flags, and has marked exactly where the condition
/// holds and the step that marks is behind it. In an event that marks, a step saves rax, in front of all others, or marks, once, or leaves memory.
pub fn threads_in_sites()
    ensures comes { SiteComesIn }
    ensures goes { SiteGoesOn }
    ensures can { SiteCanGoOn }
    ensures restore { SiteRestores }
    ensures mark { SiteMarks }
    ensures writes { SiteWrites }
{}

/// The event that counts under no condition, of a thread that runs alone, adds one to its counter, and leaves all else as it was.
pub fn event_counts_alone()
    ensures { EventCountsAlone }
{}

/// The event that keeps a ring, of a thread that runs alone, claims one slot and fills it, and leaves all else as it was.
pub fn event_keeps_alone()
    ensures { EventKeepsAlone }
{}

/// Events under a condition, worked out: their bytes, and where their jumps lead.
pub fn worked_conditions()
    ensures { ConditionsAreWorked }
{}

/// An event that keeps a ring, worked out: its bytes, and how a ring stands after claims and fills.
pub fn worked_ring()
    ensures { RingIsWorked }
{}

/// An instruction that is neither LOCK INC nor LOCK XADD is a thread's step as it is a single processor's.
pub fn thread_step()
    ensures { IsThreadStep }
{}

/// The first instruction of relocated code makes the original's step.
pub fn effect_steps()
    ensures { IsEffectStep }
{}

/// After the effect step the trampoline's steps lead on.
pub fn tail_steps()
    ensures { IsTailStep }
{}

/// What relocated code reads and writes, where it stands, and further small facts of single steps.
pub fn further_laws()
    ensures core { WorkedCore }
    ensures leads { LeadsTold }
    ensures not_locked { NotLocked }
    ensures touches { WorkTouches }
    ensures long { WorkLong }
    ensures tail_touches { TailTouches }
    ensures tail_inside { TailInside }
{}

/// All facts of single steps on which the theorem rests.
pub fn all_steps()
    ensures { StepLaws }
{}

/// Each run of a guest is one that is watched.
pub fn each_run()
    ensures { EachRunIsWatched }
{}

/// In each interleaved run that meets the premises the patched guest runs as the original does, counts or covers
/// the effect steps at which the condition of their site held, or keeps a ring of them.
pub fn threads_step()
    ensures { ThreadsAreFollowed }
{}

/// The same holds where something is delivered to threads that stand outside: the original's run
/// takes each delivery at the same moment.
pub fn threads_step_with_deliveries()
    ensures { ThreadsAreFollowedWith }
{}

/// LOCK INC and LOCK XADD, the instructions that interleaved runs don't ask the world about, are recognized by their
/// bytes: F0 48 FF 04 25 or F0 0F C1 04 25, and four more. For LOCK INC F0 itself makes no difference.
pub fn locked_spelling()
    ensures spelled { LockedIsSpelled }
    ensures exchanging { XaddIsSpelled }
    ensures untested { LockIsUntested }
{}

/// A schedule is run in one way: to its end, or to an entry that names no thread or one without a
/// step.
pub fn one_run()
    ensures { RunsOneWay }
{}
