//! What holds of events that are lists of steps.
ghost use Rattle.event_steps.specs.MadeSteps.{EventStepTold, EventStepGoes, EventStepLeads, CodeIsLong};
ghost use Rattle.event_steps.specs.DoneSteps.{StepsAreDone};
ghost use Rattle.event_steps.specs.WholeEvents.{EventsLeave};
ghost use Rattle.event_steps.specs.Interleaved.{ComesIn, GoesOn, CanGoOn, StaysIn};

/// Where the code of a list of steps stands, each step that is made is the one that stands there, and leads in front of the next one.
pub fn event_steps()
    ensures told { EventStepTold }
    ensures goes { EventStepGoes }
    ensures leads { EventStepLeads }
    ensures long { CodeIsLong }
{}

/// Where an event's data are held and apart, each step does what it says.
pub fn steps_are_done()
    ensures steps { StepsAreDone }
{}

/// Where an event's code stands and its data are held and apart, it runs and leaves what its list says.
pub fn events_leave()
    ensures { EventsLeave }
{}

/// Threads in events stand in front of steps of theirs, and go on by these, while others step.
pub fn threads_in_events()
    ensures comes { ComesIn }
    ensures goes { GoesOn }
    ensures can { CanGoOn }
    ensures stays { StaysIn }
{}
