//! What holds of events and of the code of trampolines.
ghost use Rattle.trampoline.specs.Events.{HasEventLength, HasEventCode, IsRoomForEach, HasFewPages, ZerosAreData, MarksKeepData, MarksKeepLength};
ghost use Rattle.trampoline.specs.EventLists.{AreLists};
ghost use Rattle.trampoline.specs.Recording.{ListedEventsAreRecorded};
ghost use Rattle.trampoline.specs.Running.{DataIsHeld, EventsAreRecorded, BeginsWithNoJump, TrampolinesWork};
ghost use Rattle.trampoline.specs.Worked.{AreRecords, AreCodes, AreMet};

/// The code of an event has as many bytes as is told: some, and at most 80.
pub fn event_lengths()
    ensures told { HasEventLength }
    ensures some { HasEventCode }
{}

/// A private range for so many sites has room for the event of each, and at most the pages that the most sites take.
pub fn room_for_each()
    ensures each { IsRoomForEach }
    ensures few { HasFewPages }
{}

/// Zeros are data, and an event keeps data data and as long as it was, where the data part has room for it.
pub fn events_keep_data()
    ensures zeros { ZerosAreData }
    ensures data { MarksKeepData }
    ensures length { MarksKeepLength }
{}

/// The data part of a private range always holds some bytes.
pub fn data_is_held()
    ensures { DataIsHeld }
{}

/// The event of each action is a list of steps, whose code is the event's.
pub fn events_are_lists()
    ensures { AreLists }
{}

/// Where the code of a list of steps stands that gives registers and flags back, but for what may change, and marks the data part, it is recorded.
pub fn listed_events()
    ensures { ListedEventsAreRecorded }
{}

/// The code of an event records it, whatever follows: the state then looks as before, and the data part has the mark.
pub fn events_are_recorded()
    ensures { EventsAreRecorded }
{}

/// The code of an event begins with no direct jump.
pub fn events_begin_with_no_jump()
    ensures { BeginsWithNoJump }
{}

/// What events leave of zeros, of a carry and of the greatest number; what a ring holds, and where a condition is met and isn't.
pub fn records()
    ensures { AreRecords }
{}

/// A jump to itself, an operand relative to the next instruction and SYSCALL have the trampolines that they have by hand; so has a MOV
/// with a ring's event and with one under a condition.
pub fn codes()
    ensures { AreCodes }
{}

/// The law of trampolines: the event is recorded, whether or not the instruction then has a
/// step, and where it has one, the trampoline leads to what is seen after that step.
pub fn trampolines_work()
    ensures { TrampolinesWork }
{}

/// The premises of the law of trampolines can be met: they are by states with the trampoline of MOV eax, 60 that covers, that has a ring,
/// and that covers under a condition.
pub fn premises_met()
    ensures { AreMet }
{}
