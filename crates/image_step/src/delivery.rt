//! When deliveries are due, and how a run with them ends.
use cpu_step::stop::Stop;
use image_runs::delivery::Delivery;

/// A delivery, and how many steps are made before it.
#[derive(Debug, Drop)]
pub struct Due {
    pub step: u64,
    pub delivery: Delivery,
}

/// A delivery doesn't fit at this address: the thread doesn't stand at a listed start there, or the delivery doesn't lead to
/// one, or a byte that it writes isn't held with W or is of a listed instruction.
#[derive(Clone, Copy, Debug, PartialEq, Eq)]
pub struct Unfit {
    pub addr: u64,
}

/// Why a run in which deliveries are due goes no further.
#[derive(Debug, PartialEq, Eq, Drop)]
pub enum Halted {
    /// No step is made.
    NoStep(Stop),
    /// The delivery that is due doesn't fit.
    NoFit(Unfit),
}

/// How such a run ended: the number of its steps and of its deliveries, and why there is no further one, where that is so.
#[derive(Debug, PartialEq, Eq, Drop)]
pub struct DueEnd {
    pub steps: u64,
    pub made: usize,
    pub halted: Option<Halted>,
}
