//! Memory that a script gives to a program at its start.
ghost use Rattle.std.specs.Prelude.{◌≡◌};

use crate::page_list::PageList;
use std::marker::Model;

/// What stands in a region.
#[derive(Debug, Drop)]
pub enum RegionBody {
    /// So many zeros.
    Zeros(u64),
    /// These bytes.
    Bytes(PageList),
}

/// Memory from the address `lo` on.
#[derive(Debug, Drop)]
pub struct Region {
    pub lo: u64,
    /// As `p_flags` of ELF-64: 4 reads, 2 writes, 1 executes.
    pub perms: u8,
    pub body: RegionBody,
}

/// A list of regions.
#[derive(Debug, Drop)]
pub struct Regions {
    regions: Vec<Region>,
}

impl Model for Regions {
    ghost use Rattle.std.specs.Prelude.{List};
    ghost use Rattle.cpu_state.specs.declared.script_regions.Region.{Region};

    ghost Value = { List Region };

    ghost view = { λ r. r.regions.items };
}

impl Regions {
    /// The list of these regions.
    pub fn from_vec(regions: Vec<Region>) -> Self
        ensures { result ≡ regions.items }
    {
        Regions { regions }
    }

    /// The regions, in order.
    pub fn into_vec(self) -> Vec<Region>
        ensures { result.items ≡ self }
    {
        self.regions
    }

    /// The regions, in order.
    pub fn as_slice(&self) -> &[Region]
        ensures { result.now ≡ self.now }
    {
        &self.regions
    }
}
