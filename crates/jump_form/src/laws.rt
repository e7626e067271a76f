//! What the definitions promise.
ghost use Rattle.jump_form.specs.Standing.{JumpsStand, OneSpelling};
ghost use Rattle.jump_form.specs.Windows.{AllowedJumps, AllowedTargets};

/// A spelled jump stands at its address exactly where its bytes stand.
pub fn jumps_stand()
    ensures { JumpsStand }
{}

/// One list of bytes spells a jump, given its address, its pads and its target.
pub fn one_spelling()
    ensures { OneSpelling }
{}

/// A target is allowed exactly where a jump to it is spelled that has the fixed bytes.
pub fn allowed_jumps()
    ensures { AllowedJumps }
{}

/// The targets that fixed low and high bytes allow are evenly spaced.
pub fn allowed_targets()
    ensures { AllowedTargets }
{}
