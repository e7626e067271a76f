//! What holds of actions.
ghost use Rattle.pun_base.specs.Actions.{HasFront};

/// The private range has 64 bytes in front of what events leave there.
pub fn private_bytes()
    ensures { HasFront }
{}
