//! The memory from which a file runs under a script.
ghost use Rattle.std.specs.Prelude.{◌≡◌, ◌+◌, ◌^◌, ◌<◌, ◌≤◌, ◌++◌, [], ◌∷◌, true, length, replicate, Some, None, OnOk, IfErr, IfOk};
ghost use Rattle.pun_base.specs.Memory.{joined};
ghost use Rattle.cpu_state.specs.Adding.{IsFree, laid};
ghost use Rattle.cpu_state.specs.Regions.{cell_at};
ghost use Rattle.cpu_state.specs.Script.{are_regions, body_size, is_bounded};
ghost use Rattle.elf_read.specs.Accepted.{IsPlaced};
ghost use Rattle.elf_read.specs.Image.{chunk_of, image, image_of};
ghost use Rattle.image_step.specs.Running.{Meets};
ghost use Rattle.image_runs.specs.Starting.{least_met_of, meets_image, meets_page, region_memory, regions_memory};

use crate::grammar::size_of;
use crate::runner_error::RunnerError;
use cpu_state::memory::{AddError, Memory};
use cpu_state::script_regions::{Region, RegionBody};
use elf_read::elf::Elf;
use elf_read::segment::Segment;
use pun_base::limits::PAGE_LEN;
use std::alloc::{AllocError, Global};

/// Adds bytes and zeros behind them, where nothing is. What is there stays.
fn add(
    alloc: Global,
    memory: &mut Memory,
    lo: u64,
    perms: u8,
    bytes: &[u8],
    zeros: u64,
) -> Result<(), AllocError>
    requires some { 0 < length bytes.now + zeros }
    requires fits { lo + (length bytes.now + zeros) ≤ 2 ^ 64 }
    requires free { IsFree (cell_at memory.old) lo (lo + (length bytes.now + zeros)) }
    ensures { OnOk result (cell_at memory.new
        ≡ joined (cell_at memory.old) (laid lo perms (bytes.now ++ replicate zeros 0))) }
{
    match memory.add(alloc, lo, perms, bytes, zeros) {
        Ok(()) => Ok(()),
        Err(AddError::Memory) => Err(AllocError),
        Err(AddError::Meets { .. }) => unreachable!(),
    }
}

/// Adds what an entry of the table loads.
fn add_segment(
    alloc: Global,
    memory: &mut Memory,
    file: &[u8],
    segment: &Segment,
) -> Result<(), AllocError>
    requires placed { IsPlaced 0x10000 (length file.now) segment.now }
    requires free { IsFree (cell_at memory.old) segment.now.vaddr
        (segment.now.vaddr + segment.now.memsz) }
    ensures { OnOk result (cell_at memory.new
        ≡ joined (cell_at memory.old) (image (chunk_of file.now segment.now ∷ []))) }
{
    let start = segment.offset as usize;
    let bytes = &file[start..start + segment.filesz as usize];
    let perms = (segment.flags % 8) as u8;
    add(
        alloc,
        memory,
        segment.vaddr,
        perms,
        bytes,
        segment.memsz - segment.filesz,
    )
}

/// The image of a file.
fn image_memory(alloc: Global, elf: &Elf) -> Result<Memory, AllocError>
    ensures { IfOk result (λ memory. cell_at memory ≡ image_of elf.now.bytes) }
{
    let mut memory = Memory::empty(alloc);
    for segment in elf.loads() {
        add_segment(alloc, &mut memory, elf.file(), segment)?;
    }
    Ok(memory)
}

/// Adds a region.
fn add_region(alloc: Global, memory: &mut Memory, region: &Region) -> Result<(), AllocError>
    requires bounded { is_bounded region.now.lo region.now.body ≡ true }
    requires free { IsFree (cell_at memory.old) region.now.lo
        (region.now.lo + body_size region.now.body) }
    ensures { OnOk result (cell_at memory.new
        ≡ joined (cell_at memory.old) (region_memory region.now)) }
{
    match &region.body {
        RegionBody::Zeros(count) => add(alloc, memory, region.lo, region.perms, &[], *count),
        RegionBody::Bytes(bytes) => {
            add(alloc, memory, region.lo, region.perms, bytes.as_slice(), 0)
        }
    }
}

/// The image of a file, and regions that meet no page of it.
fn start_memory(alloc: Global, elf: &Elf, regions: &[Region]) -> Result<Memory, AllocError>
    requires regions { are_regions regions.now ≡ true }
    requires apart { least_met_of elf.now.bytes regions.now ≡ None }
    ensures { IfOk result (λ memory. cell_at memory
        ≡ joined (image_of elf.now.bytes) (regions_memory regions.now)) }
{
    let mut memory = image_memory(alloc, elf)?;
    for region in regions {
        add_region(alloc, &mut memory, region)?;
    }
    Ok(memory)
}

/// Whether a region has an address in a page of a segment that isn't empty.
fn meets_page(region: &Region, segment: &Segment) -> bool
    ensures { result ≡ meets_page region.now segment.now }
{
    let lo = u128::from(region.lo);
    let hi = lo + size_of(&region.body);
    let page = PAGE_LEN as u128;
    let first = u128::from(segment.vaddr) / page * page;
    let end = u128::from(segment.vaddr) + u128::from(segment.memsz);
    let last = end.saturating_sub(1) / page;
    let behind = (last + 1) * page;
    first < hi && lo < behind
}

/// Whether a region has an address in a page of one of the segments.
fn meets_image(segments: &[Segment], region: &Region) -> bool
    ensures { result ≡ meets_image segments.now region.now }
{
    segments.iter().any(|segment| meets_page(region, segment))
}

/// The least beginning of the regions that have an address in a page of the file's image.
fn least_meeting(elf: &Elf, regions: &[Region]) -> Option<u64>
    requires { are_regions regions.now ≡ true }
    ensures { result ≡ least_met_of elf.now.bytes regions.now }
{
    for region in regions {
        if meets_image(elf.loads(), region) {
            return Some(region.lo);
        }
    }
    None
}

/// The memory from which a file runs with these regions: its image with the permissions of `p_flags` (ELF-64, "Program
/// Header"), and the regions.
pub fn memory_of(alloc: Global, elf: &Elf, regions: &[Region]) -> Result<Memory, RunnerError>
    requires { are_regions regions.now ≡ true }
    ensures refused { IfErr result (λ error. Meets elf.now.bytes regions.now (Some error)) }
    ensures accepted { IfOk result (λ memory. Meets elf.now.bytes regions.now None) }
    ensures memory { IfOk result (λ memory. cell_at memory
        ≡ joined (image_of elf.now.bytes) (regions_memory regions.now)) }
{
    if let Some(lo) = least_meeting(elf, regions) {
        return Err(RunnerError::RegionMeets { lo });
    }
    Ok(start_memory(alloc, elf, regions)?)
}
