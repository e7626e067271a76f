//! Looking an address up among the segments that are loaded.
ghost use Rattle.std.specs.Prelude.{◌≡◌, ◌+◌, ◌-◌, ◌≤◌, true, length, slice_index, take, drop};
ghost use Rattle.elf_read.specs.Accepted.{Ascends};
ghost use Rattle.elf_read.specs.Code.{is_exec_in, code_from};
ghost use Rattle.elf_read.specs.Find.{Parted, segment_of};

use crate::segment::Segment;
use pun_base::limits::INSTRUCTION_MAX;
use std::cmp::min;

/// How many segments begin at or below an address; these come first.
pub(crate) fn count_below(loads: &[Segment], addr: u64) -> usize
    requires { Ascends 0 loads.now }
    ensures bound { result ≤ length loads.now }
    ensures parted { Parted loads.now addr result }
{
    loads.partition_point(|segment| segment.vaddr <= addr)
}

/// The segment that holds an address.
pub(crate) fn find_segment(loads: &[Segment], addr: u64) -> Option<Segment>
    requires { Ascends 0 loads.now }
    ensures { result ≡ segment_of loads.now addr }
{
    let below = count_below(loads, addr);
    if below == 0 {
        return None;
    }
    let segment = loads[below - 1];
    if addr - segment.vaddr < segment.memsz {
        Some(segment)
    } else {
        None
    }
}

/// A byte of a segment: the file's, and zero past these.
pub(crate) fn loaded_byte(file: &[u8], segment: &Segment, addr: u64) -> u8
    requires inside { segment.now.offset + segment.now.filesz ≤ length file.now }
    requires above { segment.now.vaddr ≤ addr }
    ensures { result ≡ slice_index (take segment.now.filesz (drop segment.now.offset file.now))
        (addr - segment.now.vaddr) }
{
    let at = addr - segment.vaddr;
    if at < segment.filesz {
        file[(segment.offset + at) as usize]
    } else {
        0
    }
}

/// The bytes of an instruction's window from an address on.
pub(crate) fn code_at<'a>(file: &'a [u8], segment: &Segment, addr: u64) -> &'a [u8]
    requires inside { segment.now.offset + segment.now.filesz ≤ length file.now }
    requires exec { is_exec_in addr segment.now ≡ true }
    ensures { result.now ≡ code_from file.now segment.now addr 15 }
{
    let at = addr - segment.vaddr;
    let start = segment.offset + at;
    let end = start + min(INSTRUCTION_MAX as u64, segment.filesz - at);
    &file[start as usize..end as usize]
}
