//! What holds of sound images.
ghost use Rattle.sound_images.specs.Soundness.{SoundIsFollowed, PlainIsACase, SameDeliveries};
ghost use Rattle.sound_images.specs.Worked.{OneMovIsSound};
ghost use Rattle.sound_images.specs.WorkedDelivery.{HandlerIsQuiet};

/// Where no rule fails anywhere, the patched image follows the original: for entries of the original's image, and a report
/// that a text spells.
pub fn sound_is_followed()
    ensures { SoundIsFollowed }
{}

/// The headline for runs without deliveries is the case in which nothing is delivered.
pub fn plain_is_a_case()
    ensures { PlainIsACase }
{}

/// A run that follows another has the same deliveries, in the same order.
pub fn same_deliveries()
    ensures { SameDeliveries }
{}

/// The premises of soundness can be met: by an image with one displaced MOV, from which a quiet run
/// has steps.
pub fn one_mov_is_sound()
    ensures { OneMovIsSound }
{}

/// The premises of the headline can be met with deliveries: a handler is entered at the site,
/// returns, and is entered a second time.
pub fn handler_is_quiet()
    ensures { HandlerIsQuiet }
{}
