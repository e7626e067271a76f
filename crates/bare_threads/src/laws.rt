//! What holds of a thread's steps by instructions that kill a place.
ghost use Rattle.bare_threads.specs.KilledThreads.{IsKilledThread, IsKilledEffectStep, IsBareCountStep, BareCountGoes, BareCountBytes};

/// What an instruction kills for a single processor it kills for a thread.
pub fn killed_thread()
    ensures { IsKilledThread }
{}

/// The relocated code of an instruction that kills a place makes the original's step from states that are alike but for the place.
pub fn killed_effect_step()
    ensures { IsKilledEffectStep }
{}

/// The event that counts by LOCK INC alone is one step, which changes of registers and flags five flags at most.
pub fn bare_count_steps()
    ensures step { IsBareCountStep }
    ensures goes { BareCountGoes }
    ensures bytes { BareCountBytes }
{}
