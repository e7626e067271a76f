//! What holds of every spelled jump.
ghost use Rattle.scheme_search.specs.Spelled.{SpelledJumpsLead};

/// What is spelled as a jump after at most ten pads is an instruction whose step leads to the
/// jump's target.
pub fn spelled_jumps_lead()
    ensures { SpelledJumpsLead }
{}
