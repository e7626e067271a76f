//! Memory: bytes with permissions at some of the 2 to the 64 addresses.
ghost use Rattle.std.specs.Prelude.{◌≡◌, ◌+◌, ◌^◌, ◌<◌, ◌≤◌, ◌++◌, [], IfSome, length, replicate};
ghost use Rattle.cpu_state.specs.Bytes.{lacking, put_list, code_at};
ghost use Rattle.cpu_state.specs.Regions.{cell_at, Ascending, extents};
ghost use Rattle.cpu_state.specs.Adding.{Added, MeetsHeld};
ghost use Rattle.cpu_state.specs.Numbers.{loaded, Stored};

use crate::regions::{
    MemoryRegion, count_begun, fetch_onto, find_all, first_lacking, first_met, number, number_of,
    place_near, put_bytes, put_slice,
};
use arrayvec::ArrayVec;
use pun_base::byte_list::ByteList;
use pun_base::limits::INSTRUCTION_MAX;
use std::alloc::Global;
use std::marker::Model;
use thiserror::Error;

/// Regions of bytes, disjoint and in ascending order.
#[derive(Debug, Drop)]
pub struct Memory {
    regions: Vec<MemoryRegion>,
}

impl Model for Memory {
    ghost use Rattle.std.specs.Prelude.{List};
    ghost use Rattle.cpu_state.specs.declared.regions.MemoryRegion.{MemoryRegion};
    ghost use Rattle.cpu_state.specs.Regions.{Ascending};

    ghost Value = { List MemoryRegion };

    ghost view = { λ m. m.regions.items };

    ghost invariant = { λ m. Ascending 0 m.regions.items };
}

/// The first address, in order, at which no byte is held with the permission that is needed.
#[derive(Clone, Copy, Debug, PartialEq, Eq)]
pub struct NoByte {
    pub addr: u64,
}

/// Why a region isn't added.
#[derive(Debug, PartialEq, Eq, Error, Drop)]
pub enum AddError {
    /// It has an address in common with a region that is there: the least address at which such a one begins.
    #[error("a region is there from {lo:#x} on")]
    Meets { lo: u64 },
    #[error("out of memory")]
    Memory,
}

/// Adds a region: the bytes, and so many zeros behind them.
fn add_region(
    regions: &mut Vec<MemoryRegion>,
    alloc: Global,
    lo: u64,
    perms: u8,
    bytes: &[u8],
    zeros: u64,
) -> Result<(), AddError>
    requires some { 0 < length bytes.now + zeros }
    requires fits { lo + (length bytes.now + zeros) ≤ 2 ^ 64 }
    requires ascending { Ascending 0 regions.old.items }
    ensures value { Added lo perms (bytes.now ++ replicate zeros 0) regions.old.items
        regions.new.items result }
    ensures held { MeetsHeld lo (lo + (length bytes.now + zeros))
        (cell_at regions.old.items) result }
    ensures ascending { Ascending 0 regions.new.items }
{
    if let Some(lo) = first_met(regions, lo, last_address(lo, bytes.len(), zeros)) {
        return Err(AddError::Meets { lo });
    }
    let Ok(region) = MemoryRegion::new(alloc, lo, perms, bytes, zeros) else {
        return Err(AddError::Memory);
    };
    let place = count_begun(regions, lo);
    match regions.insert(place, region) {
        Ok(()) => Ok(()),
        Err(_) => Err(AddError::Memory),
    }
}

/// The last of `len + zeros` addresses from `lo` on.
fn last_address(lo: u64, len: usize, zeros: u64) -> u64
    requires some { 0 < len + zeros }
    requires fits { lo + (len + zeros) ≤ 2 ^ 64 }
    ensures { result + 1 ≡ lo + (len + zeros) }
{
    if zeros > 0 {
        lo + len as u64 + (zeros - 1)
    } else {
        lo + (len as u64 - 1)
    }
}

impl Memory {
    /// No byte.
    pub fn empty(alloc: Global) -> Memory
        ensures { result ≡ [] }
    {
        Memory {
            regions: Vec::new(alloc),
        }
    }

    /// Adds a region from `lo` on: the bytes, and so many zeros behind them.
    pub fn add(
        &mut self,
        alloc: Global,
        lo: u64,
        perms: u8,
        bytes: &[u8],
        zeros: u64,
    ) -> Result<(), AddError>
        requires some { 0 < length bytes.now + zeros }
        requires fits { lo + (length bytes.now + zeros) ≤ 2 ^ 64 }
        ensures value { Added lo perms (bytes.now ++ replicate zeros 0) self.old self.new result }
        ensures held { MeetsHeld lo (lo + (length bytes.now + zeros)) (cell_at self.old) result }
    {
        add_region(&mut self.regions, alloc, lo, perms, bytes, zeros)
    }

    /// The first of `count` addresses from `addr` on at which no byte is held with a permission.
    pub fn lacking(&self, perm: u8, addr: u64, count: usize) -> Option<u64>
        ensures { result ≡ lacking perm (cell_at self.now) addr count }
    {
        first_lacking(&self.regions, perm, addr, count)
    }

    /// Changes the bytes from `addr` on, where they are held.
    pub fn write(&mut self, addr: u64, bytes: &[u8])
        ensures value { cell_at self.new ≡ put_list (cell_at self.old) addr bytes.now }
        ensures extents { extents self.new ≡ extents self.old }
    {
        put_slice(&mut self.regions, addr, bytes);
    }

    /// The number of the `size` bytes from `addr` on, which have to be held with R.
    pub fn load(&self, addr: u64, size: u8) -> Result<u64, NoByte>
        requires { size ≤ 8 }
        ensures { result ≡ loaded (cell_at self.now) addr size }
    {
        if let Some(bytes) = find_all(&self.regions, 4, addr, usize::from(size)) {
            return Ok(number_of(bytes));
        }
        match first_lacking(&self.regions, 4, addr, usize::from(size)) {
            Some(addr) => Err(NoByte { addr }),
            None => Ok(number(&self.regions, addr, size)),
        }
    }

    /// Changes the `size` bytes from `addr` on, which have to be held with W, to those of a number.
    pub fn store(&mut self, addr: u64, size: u8, value: u64) -> Result<(), NoByte>
        ensures value { Stored addr size value self.old self.new result }
        ensures extents { extents self.new ≡ extents self.old }
    {
        match first_lacking(&self.regions, 2, addr, usize::from(size)) {
            Some(addr) => Err(NoByte { addr }),
            None => {
                let near = place_near(&self.regions, addr);
                put_bytes(&mut self.regions, near, addr, size, value);
                Ok(())
            }
        }
    }

    /// The 15 executable bytes from `addr` on, where they lie, if one region has them all.
    pub fn whole_code(&self, addr: u64) -> Option<&[u8]>
        ensures { IfSome result (λ code. code.now ≡ code_at (cell_at self.now) addr 15) }
    {
        find_all(&self.regions, 1, addr, INSTRUCTION_MAX as usize)
    }

    /// The executable bytes from `addr` on, at most 15.
    pub fn fetch(&self, addr: u64) -> ByteList
        ensures { result ≡ code_at (cell_at self.now) addr 15 }
    {
        if let Some(code) = self.whole_code(addr) {
            return ByteList::from_slice(code);
        }
        let mut code = ArrayVec::new();
        fetch_onto(&self.regions, addr, INSTRUCTION_MAX, &mut code);
        ByteList::from_slice(code.as_slice())
    }
}
