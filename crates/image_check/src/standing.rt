//! Bytes of a file's image that stand side by side in the file.
ghost use Rattle.std.specs.Prelude.{◌≡◌, ◌+◌, ◌-◌, ◌^◌, ◌≤◌, ◌<◌, ℕ, length, slice_index, take, drop, IfSome};
ghost use Rattle.pun_base.specs.Memory.{Bytes};
ghost use Rattle.elf_read.specs.Image.{image_of};
ghost use Rattle.image_check.specs.Stretches.{HasFrom};

use elf_read::elf::Elf;
use elf_read::segment::Segment;

/// What the file has of a segment, from an address on.
pub(crate) fn rest_of<'a>(file: &'a [u8], segment: &Segment, addr: u64) -> &'a [u8]
    requires inside { segment.now.offset + segment.now.filesz ≤ length file.now }
    requires above { segment.now.vaddr ≤ addr }
    ensures { result.now ≡ drop (addr - segment.now.vaddr) (take segment.now.filesz
        (drop segment.now.offset file.now)) }
{
    let at = addr - segment.vaddr;
    if at >= segment.filesz {
        return &[];
    }
    &file[(segment.offset + at) as usize..(segment.offset + segment.filesz) as usize]
}

/// How many bytes are the same at the fronts of two slices.
pub(crate) fn common_len(one: &[u8], other: &[u8]) -> usize
    ensures one { result ≤ length one.now }
    ensures other { result ≤ length other.now }
    ensures same { (i : ℕ) → i < result → slice_index one.now i ≡ slice_index other.now i }
{
    let most = one.len().min(other.len());
    for place in 0..most {
        if one[place] != other[place] {
            return place;
        }
    }
    most
}

/// What a file has of the segment that holds an address, from that on, and with which permissions it is loaded.
pub(crate) fn rest_at<'a>(elf: &'a Elf<'_>, addr: u64) -> Option<(&'a [u8], u32)>
    ensures low { IfSome result (λ r. addr + length r.0.now < 2 ^ 64) }
    ensures stands { IfSome result (λ r. HasFrom (image_of elf.now.bytes) addr r.1 r.0.now) }
{
    match elf.segment_at(addr) {
        None => None,
        Some(segment) => Some((rest_of(elf.file(), &segment, addr), segment.perms())),
    }
}

/// These permissions, if `bytes` is the front of `rest`.
fn perms_of_front(rest: &[u8], bytes: &[u8], perms: u32) -> Option<u32>
    ensures { (m : Bytes) (a : ℕ) → HasFrom m a perms rest.now
        → IfSome result (λ p. HasFrom m a p bytes.now) }
{
    if common_len(rest, bytes) == bytes.len() {
        return Some(perms);
    }
    None
}

/// The permissions with which a file loads bytes from an address on, all of them bytes of the file in one segment.
pub(crate) fn stands(elf: &Elf<'_>, addr: u64, bytes: &[u8]) -> Option<u32>
    ensures { IfSome result (λ perms. HasFrom (image_of elf.now.bytes) addr perms bytes.now) }
{
    match rest_at(elf, addr) {
        None => None,
        Some((rest, perms)) => perms_of_front(rest, bytes, perms),
    }
}
