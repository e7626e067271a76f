//! Deliveries.
use cpu_state::state::Core;
use cpu_state::world::MemWrites;

/// What comes upon a thread between two instructions: registers, flags and bases, where it goes on, and writes, in order.
#[derive(Debug, Drop)]
pub struct Delivery {
    pub core: Core,
    pub rip: u64,
    pub writes: MemWrites,
}
