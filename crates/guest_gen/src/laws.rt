//! What the definitions promise of guests.
ghost use Rattle.guest_gen.specs.Laws.{GuestsAreAccepted, GuestsAreCoded, GuestsAreListed, WorldIsOne};
ghost use Rattle.guest_gen.specs.Worked.{IsWorked};

/// A guest computed by the definitions.
pub fn worked()
    ensures { IsWorked }
{}

/// The file of each guest is accepted as an original.
pub fn guests_are_accepted()
    ensures { GuestsAreAccepted }
{}

/// The starts and sites of each guest ascend, and its sites, at most 250, are starts.
pub fn guests_are_listed()
    ensures { GuestsAreListed }
{}

/// At each start of a guest its instruction stands in the file, and can be executed.
pub fn guests_are_coded()
    ensures { GuestsAreCoded }
{}

/// The world of a guest is told by the run that it answers.
pub fn world_is_one()
    ensures { WorldIsOne }
{}
