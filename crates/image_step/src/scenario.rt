//! Scripts with deliveries.
ghost use Rattle.std.specs.Prelude.{◌≡◌, true};
ghost use Rattle.image_step.specs.Scheduled.{rise};

use crate::delivery::Due;
use cpu_state::script::Script;

/// A script, and the deliveries that come upon its run, whose numbers don't fall.
#[derive(Debug, Drop)]
pub struct Scenario {
    pub dues: Vec<Due>,
    pub script: Script,
    pub ghost rising: { rise 0 dues.items ≡ true },
}
