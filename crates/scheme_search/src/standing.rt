//! The bytes that stand in a site and after it.
ghost use Rattle.std.specs.Prelude.{◌≡◌, ℕ, ◌+◌, ◌<◌, ◌≤◌, ◌^◌, ◌↔◌, true, IsTrue, length};
ghost use Rattle.elf_read.specs.Code.{is_exec_in};
ghost use Rattle.start_list.specs.TurnViews.{memory_now};
ghost use Rattle.start_list.specs.Turning.{view_of};
ghost use Rattle.start_list.specs.Plans.{bytes_from};

use arrayvec::ArrayVec;
use elf_read::segment::Segment;
use pun_base::byte_list::ByteList;
use start_list::turn::{Turn, is_code_at};

/// Whether `count` bytes from an address on are a segment's bytes in the file, which can be executed and not written.
pub(crate) fn are_code(segment: &Segment, addr: u32, count: u8) -> bool
    requires { addr + count < 2 ^ 32 }
    ensures { IsTrue result ↔ ((k : ℕ) → k < count → is_exec_in (addr + k) segment.now ≡ true) }
{
    for k in 0..count {
        if !is_code_at(segment, addr + u32::from(k)) {
            return false;
        }
    }
    true
}

/// The `count` bytes that stand from an address on.
pub(crate) fn standing_bytes(turn: &Turn<'_>, addr: u32, count: u8) -> ByteList
    requires few { count ≤ 16 }
    requires place { addr + count < 2 ^ 32 }
    ensures value { result ≡ bytes_from (memory_now (view_of turn.now)) addr count }
    ensures length { length result ≡ count }
{
    let mut bytes: ArrayVec<u8, 16> = ArrayVec::new();
    for k in 0..count {
        bytes.push(turn.standing(addr + u32::from(k)));
    }
    ByteList::from_slice(bytes.as_slice())
}
