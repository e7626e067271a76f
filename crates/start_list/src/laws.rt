//! Where the jumps of plans lead, and plans that are worked out by hand.
ghost use Rattle.start_list.specs.PlanRows.{AreWorkedPlans};
ghost use Rattle.start_list.specs.Forms.{DisplacedAreAsLong};
ghost use Rattle.start_list.specs.Led.{StandingJumpsLead, OneJumpLeads};

/// Plans of each scheme over short texts write, pun and need what is worked out by hand.
pub fn are_worked_plans()
    ensures { AreWorkedPlans }
{}

/// A jump after at most three pads that stands in memory is a jump to its target.
pub fn standing_jumps_lead()
    ensures { StandingJumpsLead }
{}

/// After the writes of an admissible plan of scheme B1, B2 or T1 the bytes at the site lead to the
/// site's trampoline.
pub fn one_jump_leads()
    ensures { OneJumpLeads }
{}

/// An instruction that may be displaced where threads share memory has as many bytes of code there
/// as where one thread runs.
pub fn displaced_are_as_long()
    ensures { DisplacedAreAsLong }
{}
