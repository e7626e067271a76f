//! What holds of the code of events under a condition.
ghost use Rattle.cond_action.specs.Codes.{HasCodeLength};

/// The code of k comparisons has 53 bytes, and nine for each comparison.
pub fn code_lengths()
    ensures { HasCodeLength }
{}
