//! Entries of the program header table (ELF-64, "Program Header").
ghost use Rattle.std.specs.Prelude.{◌≡◌, ◌+◌, ◌*◌, ◌%◌, ◌≤◌, length, IfOk};
ghost use Rattle.elf_read.specs.Entries.{segment_at, segments_from, is_load};
ghost use Rattle.elf_read.specs.Code.{is_code, is_exec_in};

use pun_base::field::{get_u32, get_u64};
use std::alloc::{AllocError, Global};

/// `p_type` of an entry that is loaded (ELF-64, "Segment Types").
pub const PT_LOAD: u32 = 1;

/// `p_type` of the entries of dynamic linking.
pub(crate) const PT_DYNAMIC: u32 = 2;

pub(crate) const PT_INTERP: u32 = 3;

/// `p_type` of the entry that tells where the table stands.
pub const PT_PHDR: u32 = 6;

/// The bits of `p_flags` (ELF-64, "Segment Flag Bits"): it can be executed.
pub const PF_X: u32 = 1;

/// It can be written.
pub const PF_W: u32 = 2;

/// It can be read.
pub const PF_R: u32 = 4;

/// How many bytes an entry has: `e_phentsize`.
pub const ENTRY_LEN: usize = 56;

/// An entry of the table. Offsets and sizes count bytes, and are as the file has them: any numbers.
#[derive(Clone, Copy, Debug, PartialEq, Eq)]
pub struct Segment {
    /// `p_type`
    pub kind: u32,
    /// `p_flags`: 4 reads, 2 writes, 1 executes
    pub flags: u32,
    /// `p_offset`
    pub offset: u64,
    /// `p_vaddr`
    pub vaddr: u64,
    /// `p_paddr`
    pub paddr: u64,
    /// `p_filesz`
    pub filesz: u64,
    /// `p_memsz`
    pub memsz: u64,
    /// `p_align`
    pub align: u64,
}

impl Segment {
    /// Whether it is a nonempty PT_LOAD.
    pub fn is_load(&self) -> bool
        ensures { result ≡ is_load self.now }
    {
        self.kind == PT_LOAD && self.memsz > 0
    }

    /// Its permissions: PF_R, PF_W and PF_X.
    pub fn perms(&self) -> u32
        ensures { result ≡ self.now.flags % 8 }
    {
        self.flags & (PF_R | PF_W | PF_X)
    }

    /// Whether it can be executed and not written.
    fn is_code(&self) -> bool
        ensures { result ≡ is_code self.now }
    {
        self.flags & (PF_X | PF_W) == PF_X
    }

    /// Whether the byte at an address is one of the file's, and can be executed and not written.
    pub(crate) fn is_exec_at(&self, addr: u64) -> bool
        ensures { result ≡ is_exec_in addr self.now }
    {
        self.is_load() && self.is_code() && self.vaddr <= addr && addr - self.vaddr < self.filesz
    }
}

/// The entry that begins at `at`.
#[tactic(auto, unfolding(crate::specs::Entries::segment_at))]
fn read_segment(bytes: &[u8], at: usize) -> Segment
    requires { at + 56 ≤ length bytes.now }
    ensures { result ≡ segment_at bytes.now at }
{
    Segment {
        kind: get_u32(bytes, at),
        flags: get_u32(bytes, at + 4),
        offset: get_u64(bytes, at + 8),
        vaddr: get_u64(bytes, at + 16),
        paddr: get_u64(bytes, at + 24),
        filesz: get_u64(bytes, at + 32),
        memsz: get_u64(bytes, at + 40),
        align: get_u64(bytes, at + 48),
    }
}

/// The `count` entries from `place` on.
pub(crate) fn read_segments(
    alloc: Global,
    bytes: &[u8],
    place: usize,
    count: u16,
) -> Result<Vec<Segment>, AllocError>
    requires { place + 56 * count ≤ length bytes.now }
    ensures value { IfOk result (λ v. v.items ≡ segments_from bytes.now place count) }
    ensures len { IfOk result (λ v. length v.items ≡ count) }
{
    let mut segments = Vec::new(alloc);
    let mut at = place;
    for _index in 0..count {
        segments.push(read_segment(bytes, at))?;
        at += ENTRY_LEN;
    }
    Ok(segments)
}
