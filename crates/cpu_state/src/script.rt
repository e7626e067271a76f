//! The start of a program, and its world.
ghost use Rattle.std.specs.Prelude.{◌≡◌, true, [], replicate};
ghost use Rattle.cpu_state.specs.Script.{are_regions};

use crate::script_regions::Regions;
use crate::world::{Entries, World};
use std::alloc::Global;

/// Registers, flags word, segment bases and further memory at the start of a program, and its world.
#[derive(Debug, Drop)]
pub struct Script {
    /// In the order of `State::regs`.
    pub regs: [u64; 16],
    /// The flags word.
    pub flags: u64,
    pub fs: u64,
    pub gs: u64,
    pub regions: Regions,
    pub world: World,
    pub ghost bounded: { are_regions regions ≡ true },
    pub ghost unused: { world.place ≡ 0 },
}

impl Script {
    /// No region and no entry, the flags word 2, and all else 0.
    pub fn zero(alloc: Global) -> Script
        ensures regs { result.regs ≡ replicate 16 0 }
        ensures flags { result.flags ≡ 2 }
        ensures fs { result.fs ≡ 0 }
        ensures gs { result.gs ≡ 0 }
        ensures regions { result.regions ≡ [] }
        ensures world { result.world ≡ record { entries = []; place = 0 } }
    {
        Script {
            regs: [0; 16],
            flags: 2,
            fs: 0,
            gs: 0,
            regions: Regions::from_vec(Vec::new(alloc)),
            world: World {
                entries: Entries::from_vec(Vec::new(alloc)),
                place: 0,
            },
        }
    }
}
