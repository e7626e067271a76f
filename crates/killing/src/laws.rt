//! Laws of killed places.
ghost use Rattle.killing.specs.Laws.{IsKilled, AgreesBack, IsSameEffect, IsKilledAnywhere, IsSameAct, IsKilledCopy, IsKilledAlike, ChoosesPlaces, KillsOneRegister, NeverFaults};
ghost use Rattle.killing.specs.Worked.{IsUnlisted, AreTold};
ghost use Rattle.killing.specs.Listed.{AreListed};

/// The table is sound: what it lists is killed.
pub fn killed()
    ensures sound { IsKilled }
    ensures back { AgreesBack }
    ensures anywhere { IsKilledAnywhere }
{}

/// An operation that kills a place does the same with the place cleared.
pub fn same_effect()
    ensures { IsSameEffect }
{}

/// From states that are equal but for a killed place an instruction leads to one state.
pub fn same_act()
    ensures { IsSameAct }
{}

/// From a state that looks the same but for a killed place the same instruction elsewhere does the same.
pub fn killed_copy()
    ensures { IsKilledCopy }
{}

/// So it does over memories that are alike but for stale bytes.
pub fn killed_alike()
    ensures { IsKilledAlike }
{}

/// What the table leaves out: these instructions don't kill these places, and no sound table lists them.
pub fn left_out()
    ensures unlisted { IsUnlisted }
    ensures told { AreTold }
{}

/// Six flags are chosen before five, these before a register that a function may change, and an instruction has one such register at most.
pub fn chosen()
    ensures places { ChoosesPlaces }
    ensures one { KillsOneRegister }
{}

/// An instruction without an operand in memory lacks no byte: no handler sees what an event in front of it left.
pub fn never_faults()
    ensures { NeverFaults }
{}

/// What spelled instructions kill, as it is by hand.
pub fn worked()
    ensures { AreListed }
{}
