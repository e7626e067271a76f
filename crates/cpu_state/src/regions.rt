//! Regions of memory in ascending order, and looking addresses up among them.
ghost use Rattle.std.specs.Prelude.{◌≡◌, ◌+◌, ◌*◌, ◌^◌, ◌<◌, ◌≤◌, ◌++◌, length, replicate, option_map, IfOk, IfSome};
ghost use Rattle.arrayvec.specs.ArrayVec.{array_vec_len};
ghost use Rattle.pun_base.specs.Field.{number_of};
ghost use Rattle.cpu_state.specs.Bytes.{allows, byte_of, lacking, number_at, put, put_list, put_number, code_at};
ghost use Rattle.cpu_state.specs.Held.{AreHeld};
ghost use Rattle.cpu_state.specs.Adding.{least_met};
ghost use Rattle.cpu_state.specs.Regions.{holds, cell_at, cell_of, Ascending, begun, extents, place_of};

use crate::padded_bytes::PaddedBytes;
use arrayvec::ArrayVec;
use std::alloc::{AllocError, Global};

/// Bytes from the address `lo` on, with one set of permissions: 4 reads, 2 writes, 1 executes.
#[derive(Debug, Drop)]
pub struct MemoryRegion {
    pub(crate) lo: u64,
    pub(crate) perms: u8,
    pub(crate) bytes: PaddedBytes,
}

/// A byte of a region and the region's permissions.
#[derive(Clone, Copy)]
pub(crate) struct HeldByte {
    pub(crate) byte: u8,
    pub(crate) perms: u8,
}

impl MemoryRegion {
    /// The bytes followed by zeros.
    pub(crate) fn new(
        alloc: Global,
        lo: u64,
        perms: u8,
        bytes: &[u8],
        zeros: u64,
    ) -> Result<MemoryRegion, AllocError>
        ensures lo { IfOk result (λ r. r.lo ≡ lo) }
        ensures perms { IfOk result (λ r. r.perms ≡ perms) }
        ensures bytes { IfOk result (λ r. r.bytes.items ≡ bytes.now ++ replicate zeros 0) }
    {
        let bytes = PaddedBytes::new(alloc, bytes, zeros)?;
        Ok(MemoryRegion { lo, perms, bytes })
    }

    fn holds(&self, addr: u64) -> bool
        ensures { result ≡ holds self.now addr }
    {
        self.lo <= addr && addr - self.lo < self.bytes.len() as u64
    }
}

/// How many regions begin at or below an address; these come first.
pub(crate) fn count_begun(regions: &[MemoryRegion], addr: u64) -> usize
    requires { Ascending 0 regions.now }
    ensures value { result ≡ begun regions.now addr }
    ensures bound { result ≤ length regions.now }
{
    regions.partition_point(|region| region.lo <= addr)
}

/// The place of the region that holds an address.
pub(crate) fn find_place(regions: &[MemoryRegion], addr: u64) -> Option<usize>
    requires { Ascending 0 regions.now }
    ensures value { result ≡ place_of regions.now addr }
    ensures bound { IfSome result (λ i. i < length regions.now) }
{
    let count = count_begun(regions, addr);
    if count > 0 && regions[count - 1].holds(addr) {
        Some(count - 1)
    } else {
        None
    }
}

/// The place where a region that holds an address would be.
pub(crate) fn place_near(regions: &[MemoryRegion], addr: u64) -> usize
    requires { Ascending 0 regions.now }
{
    count_begun(regions, addr).saturating_sub(1)
}

/// The place of the region that holds an address, looked for first at a place where it likely is.
fn find_place_near(regions: &[MemoryRegion], near: usize, addr: u64) -> Option<usize>
    requires { Ascending 0 regions.now }
    ensures value { result ≡ place_of regions.now addr }
    ensures bound { IfSome result (λ i. i < length regions.now) }
{
    if near < regions.len() && regions[near].holds(addr) {
        Some(near)
    } else {
        find_place(regions, addr)
    }
}

/// The `count` bytes from an address on, where one region holds them all with a permission.
pub(crate) fn find_all(regions: &[MemoryRegion], perm: u8, addr: u64, count: usize) -> Option<&[u8]>
    requires { Ascending 0 regions.now }
    ensures count { IfSome result (λ bytes. length bytes.now ≡ count) }
    ensures held { IfSome result (λ bytes. AreHeld perm (cell_at regions.now) addr bytes.now) }
{
    let place = find_place(regions, addr)?;
    let region = &regions[place];
    let at = (addr - region.lo) as usize;
    if region.perms & perm != 0 {
        region.bytes.slice(at, count)
    } else {
        None
    }
}

/// The least beginning of the regions that hold an address from `lo` to `last`.
pub(crate) fn first_met(regions: &[MemoryRegion], lo: u64, last: u64) -> Option<u64>
    requires ascending { Ascending 0 regions.now }
    requires some { lo ≤ last }
    ensures { result ≡ least_met lo (last + 1) regions.now }
{
    if let Some(place) = find_place(regions, lo) {
        return Some(regions[place].lo);
    }
    let next = count_begun(regions, lo);
    if next < regions.len() && regions[next].lo <= last {
        Some(regions[next].lo)
    } else {
        None
    }
}

/// The byte at an address.
fn find(regions: &[MemoryRegion], addr: u64) -> Option<HeldByte>
    requires { Ascending 0 regions.now }
    ensures { option_map cell_of result ≡ cell_at regions.now addr }
{
    let place = find_place(regions, addr)?;
    let region = &regions[place];
    Some(HeldByte {
        byte: region.bytes.byte((addr - region.lo) as usize),
        perms: region.perms,
    })
}

fn is_allowed(held: Option<HeldByte>, perm: u8) -> bool
    ensures { result ≡ allows perm (option_map cell_of held) }
{
    match held {
        Some(held) => held.perms & perm != 0,
        None => false,
    }
}

fn byte_or_zero(held: Option<HeldByte>) -> u8
    ensures { result ≡ byte_of (option_map cell_of held) }
{
    match held {
        Some(held) => held.byte,
        None => 0,
    }
}

/// The first of `count` addresses from `addr` on at which no byte is held with a permission.
pub(crate) fn first_lacking(
    regions: &[MemoryRegion],
    perm: u8,
    addr: u64,
    count: usize,
) -> Option<u64>
    requires { Ascending 0 regions.now }
    ensures { result ≡ lacking perm (cell_at regions.now) addr count }
{
    if let Some(_) = find_all(regions, perm, addr, count) {
        return None;
    }
    let mut at = addr;
    for _k in 0..count {
        if !is_allowed(find(regions, at), perm) {
            return Some(at);
        }
        at = at.wrapping_add(1);
    }
    None
}

/// The number of so many bytes, the lowest first.
pub(crate) fn number_of(bytes: &[u8]) -> u64
    requires small { length bytes.now ≤ 8 }
    ensures value { result ≡ number_of bytes.now }
    ensures bound { result < 2 ^ (8 * length bytes.now) }
{
    match bytes.split_first() {
        Some((low, rest)) => u64::from(*low) + 256 * number_of(rest),
        None => 0,
    }
}

/// The number of so many bytes from an address on.
pub(crate) fn number(regions: &[MemoryRegion], addr: u64, size: u8) -> u64
    requires ascending { Ascending 0 regions.now }
    requires small { size ≤ 8 }
    ensures value { result ≡ number_at (cell_at regions.now) addr size }
    ensures bound { result < 2 ^ (8 * size) }
{
    if size == 0 {
        return 0;
    }
    let high = number(regions, addr.wrapping_add(1), size - 1);
    let low = byte_or_zero(find(regions, addr));
    u64::from(low) + 256 * high
}

/// Changes the byte at an address, where one is held; it likely lies in the region at the place `near`.
fn put_byte(regions: &mut Vec<MemoryRegion>, near: usize, addr: u64, byte: u8)
    requires { Ascending 0 regions.old.items }
    ensures value { cell_at regions.new.items ≡ put (cell_at regions.old.items) addr byte }
    ensures ascending { Ascending 0 regions.new.items }
    ensures extents { extents regions.new.items ≡ extents regions.old.items }
{
    if let Some(place) = find_place_near(regions, near, addr) {
        let region = &mut regions[place];
        let at = (addr - region.lo) as usize;
        region.bytes.set(at, byte);
    }
}

/// Changes the bytes of a number, where they are held; they likely lie in the region at the place `near`.
pub(crate) fn put_bytes(
    regions: &mut Vec<MemoryRegion>,
    near: usize,
    addr: u64,
    size: u8,
    value: u64,
)
    requires { Ascending 0 regions.old.items }
    ensures value { cell_at regions.new.items
        ≡ put_number (cell_at regions.old.items) addr size value }
    ensures ascending { Ascending 0 regions.new.items }
    ensures extents { extents regions.new.items ≡ extents regions.old.items }
{
    if size > 0 {
        put_byte(regions, near, addr, (value % 256) as u8);
        put_bytes(regions, near, addr.wrapping_add(1), size - 1, value / 256);
    }
}

/// Changes the bytes from an address on, where they are held.
pub(crate) fn put_slice(regions: &mut Vec<MemoryRegion>, addr: u64, bytes: &[u8])
    requires { Ascending 0 regions.old.items }
    ensures value { cell_at regions.new.items
        ≡ put_list (cell_at regions.old.items) addr bytes.now }
    ensures ascending { Ascending 0 regions.new.items }
    ensures extents { extents regions.new.items ≡ extents regions.old.items }
{
    let near = place_near(regions, addr);
    let mut at = addr;
    for byte in bytes {
        put_byte(regions, near, at, *byte);
        at = at.wrapping_add(1);
    }
}

/// Appends the executable bytes from an address on, at most `count`.
pub(crate) fn fetch_onto(
    regions: &[MemoryRegion],
    addr: u64,
    count: u8,
    code: &mut ArrayVec<u8, 15>,
)
    requires ascending { Ascending 0 regions.now }
    requires room { array_vec_len code.old + count ≤ 15 }
    ensures { code.new.items ≡ code.old.items ++ code_at (cell_at regions.now) addr count }
{
    if count > 0 {
        let held = find(regions, addr);
        if is_allowed(held, 1) {
            code.push(byte_or_zero(held));
            fetch_onto(regions, addr.wrapping_add(1), count - 1, code);
        }
    }
}
