//! The bounds of lines and of regions.
ghost use Rattle.std.specs.Prelude.{◌≡◌, ◌<◌, ◌&&◌, nat_le};
ghost use Rattle.cpu_state.specs.Script.{are_regions, ascend, is_bounded, is_permission, body_size};
ghost use Rattle.image_step.specs.Grammar.{is_within, line_fits};

use crate::line::Line;
use crate::word_reading::NAMES;
use cpu_state::script_regions::{Region, RegionBody};
use pun_base::limits::{INSTRUCTION_MAX, PAGE_LEN};

/// The most bytes of zeros in a region.
const MOST_ZEROS: u64 = 16_777_216;

/// The most bytes that a line spells.
pub(crate) const MOST_BYTES: usize = PAGE_LEN as usize;

/// The most regions.
const MOST_REGIONS: usize = 16;

/// The end of the address space.
const TOP: u128 = 1 << 64;

/// Whether so many things are at least one and at most `most`.
fn is_within(most: usize, count: usize) -> bool
    ensures { result ≡ is_within most count }
{
    0 < count && count <= most
}

/// The number of bytes of a region.
pub(crate) fn size_of(body: &RegionBody) -> u128
    ensures value { result ≡ body_size body.now }
    ensures small { result < 18446744073709551616 }
{
    match body {
        RegionBody::Zeros(count) => u128::from(*count),
        RegionBody::Bytes(bytes) => bytes.as_slice().len() as u128,
    }
}

/// Whether a region is within its bounds.
fn is_bounded(lo: u64, body: &RegionBody) -> bool
    ensures { result ≡ is_bounded lo body.now }
{
    let end = u128::from(lo) + size_of(body);
    match body {
        RegionBody::Zeros(count) => 0 < *count && *count <= MOST_ZEROS && end < TOP,
        RegionBody::Bytes(bytes) => is_within(MOST_BYTES, bytes.as_slice().len()) && end <= TOP,
    }
}

/// Whether permissions read and don't say what no word names.
fn is_permission(perms: u8) -> bool
    ensures { result ≡ is_permission perms }
{
    perms == 4 || perms == 6 || perms == 5 || perms == 7
}

/// Whether a line is within its bounds.
pub(crate) fn is_fitting(line: &Line) -> bool
    ensures { result ≡ line_fits line.now }
{
    match line {
        Line::Version | Line::End => true,
        Line::Value { name, .. } | Line::Set { name, .. } => *name < NAMES,
        Line::Region(region) => is_permission(region.perms) && is_bounded(region.lo, &region.body),
        Line::Ask(question) => is_within(INSTRUCTION_MAX as usize, question.bytes.len()),
        Line::Mem(write) => {
            let len = write.bytes.as_slice().len();
            is_within(MOST_BYTES, len) && u128::from(write.addr) + len as u128 <= TOP
        }
    }
}

/// Whether a region is within its bounds, and not below an address.
fn is_next(low: u128, region: &Region) -> bool
    ensures { result ≡ (nat_le low region.now.lo
        && (is_permission region.now.perms && is_bounded region.now.lo region.now.body)) }
{
    low <= u128::from(region.lo)
        && is_permission(region.perms)
        && is_bounded(region.lo, &region.body)
}

/// Whether regions ascend, each within its bounds.
fn are_ascending(regions: &[Region]) -> bool
    ensures { result ≡ ascend 0 regions.now }
{
    let mut low: u128 = 0;
    for region in regions {
        if !is_next(low, region) {
            return false;
        }
        low = u128::from(region.lo) + size_of(&region.body);
    }
    true
}

/// Whether these are the regions of a script.
pub(crate) fn are_regions(regions: &[Region]) -> bool
    ensures { result ≡ are_regions regions.now }
{
    regions.len() <= MOST_REGIONS && are_ascending(regions)
}
