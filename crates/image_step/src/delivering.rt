//! Deliveries to a file that runs.
ghost use Rattle.std.specs.Prelude.{◌≡◌, ◌+◌, ◌-◌, ◌^◌, ◌<◌, ◌≤◌, [], List, drop, take, true};
ghost use Rattle.cpu_state.specs.Processor.{IsProcessorCore};
ghost use Rattle.image_step.specs.declared.delivery.Due.{Due as DueState};
ghost use Rattle.image_step.specs.Scheduled.{Delivers, EndsBy, GoesOn, GoesUpTo, are_below, halted_by, rise};

use crate::delivery::{Due, DueEnd, Halted, Unfit};
use crate::fitting::unfit_at;
use crate::quieting::stand;
use crate::runner::Runner;
use cpu_state::state::Core;
use cpu_step::placing::place;
use cpu_step::stop::Stop;
use image_runs::delivery::Delivery;

/// Registers, flags and bases of a delivery.
fn core_of(delivery: &Delivery) -> Core
    ensures { result ≡ delivery.now.core }
{
    delivery.core
}

/// They are a processor's.
fn core_is_sized(delivery: &Delivery)
    ensures { IsProcessorCore delivery.now.core }
{
    core_of(delivery);
}

/// Whether the numbers of steps don't fall, and none is below `low`.
pub fn rise(low: u64, dues: &[Due]) -> bool
    ensures { result ≡ rise low dues.now }
{
    let mut least = low;
    for due in dues {
        if due.step < least {
            return false;
        }
        least = due.step;
    }
    true
}

/// Why a run goes no further, where no step leads on.
fn halted_by(stop: Option<Stop>) -> Option<Halted>
    ensures { result ≡ halted_by stop }
{
    match stop {
        None => None,
        Some(stop) => Some(Halted::NoStep(stop)),
    }
}

impl<'a> Runner<'a> {
    /// Makes a delivery, where it fits.
    pub fn deliver(&mut self, delivery: &Delivery) -> Result<(), Unfit>
        ensures starts { self.new.starts ≡ self.old.starts }
        ensures delivers { Delivers self.old self.new delivery.now result }
    {
        core_is_sized(delivery);
        if let Some(addr) = unfit_at(&self.starts, &self.state, delivery) {
            return Err(Unfit { addr });
        }
        let writes = delivery.writes.as_slice();
        place(&mut self.state, &delivery.core, delivery.rip, writes);
        let standing = stand(&self.starts, self.near, self.state.rip);
        self.known = standing.known;
        self.near = standing.next;
        Ok(())
    }

    /// Steps up to a delivery that is due, and the delivery.
    fn reach(&mut self, due: &Due) -> Result<(), Halted>
        requires room { self.old.steps ≤ due.now.step }
        requires few { due.now.step < 2 ^ 64 - 1 }
        ensures starts { self.new.starts ≡ self.old.starts }
        ensures grows { self.old.steps ≤ self.new.steps }
        ensures reaches { GoesUpTo self.old self.new due.now result }
    {
        let ahead = due.step - self.steps;
        if let Some(stop) = self.run(ahead).stop {
            return Err(Halted::NoStep(stop));
        }
        match self.deliver(&due.delivery) {
            Ok(()) => Ok(()),
            Err(unfit) => Err(Halted::NoFit(unfit)),
        }
    }

    /// Steps up to the last one, where no delivery is due before it. The run began behind `first` steps.
    fn finish(&mut self, first: u64, last: u64, made: usize) -> DueEnd
        requires begun { first ≤ self.old.steps }
        requires room { self.old.steps ≤ last }
        requires few { last < 2 ^ 64 - 1 }
        ensures starts { self.new.starts ≡ self.old.starts }
        ensures steps { self.new.steps ≡ first + result.steps }
        ensures most { self.new.steps ≤ last }
        ensures made { result.made ≡ made }
        ensures goes_on { GoesOn self.old self.new [] }
        ensures ends { (left : List DueState) → rise last left ≡ true
            → EndsBy result.halted self.new left result.steps (last - first) }
    {
        let ahead = last - self.steps;
        let end = self.run(ahead);
        DueEnd {
            steps: self.steps - first,
            made,
            halted: halted_by(end.stop),
        }
    }

    /// At most `n` further steps, and each delivery that is due before one of them: made when as many steps were made in all
    /// as its number says. The numbers don't fall, and none is below that of the steps so far.
    pub fn run_due(&mut self, dues: &[Due], n: u64) -> DueEnd
        requires few { self.old.steps + n < 2 ^ 64 - 1 }
        requires rising { rise self.old.steps dues.now ≡ true }
        ensures starts { self.new.starts ≡ self.old.starts }
        ensures steps { self.new.steps ≡ self.old.steps + result.steps }
        ensures most { result.steps ≤ n }
        ensures goes_on { GoesOn self.old self.new (take result.made dues.now) }
        ensures due { are_below (self.old.steps + n) (take result.made dues.now) ≡ true }
        ensures ends { EndsBy result.halted self.new (drop result.made dues.now) result.steps n }
    {
        let first = self.steps;
        let last = first + n;
        for (made, due) in dues.iter().enumerate() {
            if last <= due.step {
                return self.finish(first, last, made);
            }
            if let Err(halted) = self.reach(due) {
                return DueEnd {
                    steps: self.steps - first,
                    made,
                    halted: Some(halted),
                };
            }
        }
        self.finish(first, last, dues.len())
    }
}
