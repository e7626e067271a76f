//! What holds of events that use a killed place.
ghost use Rattle.bare_events.specs.BareLists.{BareBytes};
ghost use Rattle.bare_events.specs.BareRunning.{KilledCodeWorks, BareTrampolinesWork, CountsAreBare, RegisterCountsAreBare, WhensAreBare};

/// The relocated code of an instruction that kills a place works from each state that looks the same but for the place.
pub fn killed_code_works()
    ensures { KilledCodeWorks }
{}

/// A trampoline with an event that uses a place alone, in front of an instruction that kills it, does what one that saves does.
pub fn bare_trampolines_work()
    ensures { BareTrampolinesWork }
{}

/// INC alone is such an event of five flags, INC with the flags kept in a register one of that register, and comparisons and what marks one of six flags.
pub fn bare_lists()
    ensures counts { CountsAreBare }
    ensures registers { RegisterCountsAreBare }
    ensures whens { WhensAreBare }
{}

/// Their bytes.
pub fn bare_bytes()
    ensures { BareBytes }
{}
