//! Whole files: read and judged, and what they load.
ghost use Rattle.std.specs.Prelude.{◌≡◌, ◌≤◌, IfErr, IfOk, length, option_map};
ghost use Rattle.elf_read.specs.Accepted.{Ascends};
ghost use Rattle.elf_read.specs.Code.{is_exec, window};
ghost use Rattle.elf_read.specs.Entries.{segments, loads, entry_of, table_count, table_place};
ghost use Rattle.elf_read.specs.Find.{segment_holding};
ghost use Rattle.elf_read.specs.Image.{image_of};
ghost use Rattle.elf_read.specs.Refusals.{refusal, Refused};

use crate::find::{code_at, count_below, find_segment, loaded_byte};
use crate::header::{E_ENTRY, E_PHNUM, E_PHOFF, header_refusal};
use crate::refusal::ElfError;
use crate::rules::entry_refusal;
use crate::segment::{Segment, read_segments};
use pun_base::field::{get_u16, get_u64};
use pun_base::limits::{ORIGINAL_LOW, TABLE_LOW};
use std::alloc::{AllocError, Global};
use std::marker::Model;

/// A file that was accepted. It borrows the file's bytes. Clauses see these bytes and the table's entries; what
/// the rules leave of them is told by the law `accepted`.
#[derive(Drop)]
pub struct Elf<'a> {
    file: &'a [u8],
    segments: Vec<Segment>,
    loads: Vec<Segment>,
}

impl<'a> Model for Elf<'a> {
    ghost use Rattle.elf_read.specs.Accepted.{File, IsFile};

    ghost Value = { File };

    ghost view = { λ e. record { bytes = e.file.now; entries = e.segments.items } };

    ghost invariant = { λ e. IsFile e.file.now e.segments.items e.loads.items };
}

/// Reads an original file, whose addresses begin at 0x20000. The error is the first rule that it breaks, or
/// `Memory`.
pub fn read_elf(alloc: Global, bytes: &[u8]) -> Result<Elf<'_>, ElfError>
    ensures refused { IfErr result (λ error. Refused 0x20000 bytes.now error) }
    ensures accepted { IfOk result (λ elf. refusal 0x20000 bytes.now ≡ None) }
    ensures file { IfOk result (λ elf. (elf.bytes ≡ bytes.now)
        × (elf.entries ≡ segments bytes.now)) }
{
    read_above(alloc, bytes, ORIGINAL_LOW as u64)
}

/// Reads a file that was written by a patch, whose addresses begin at 0x10000. The error is as that of `read_elf`.
pub fn read_written(alloc: Global, bytes: &[u8]) -> Result<Elf<'_>, ElfError>
    ensures refused { IfErr result (λ error. Refused 0x10000 bytes.now error) }
    ensures accepted { IfOk result (λ elf. refusal 0x10000 bytes.now ≡ None) }
    ensures file { IfOk result (λ elf. (elf.bytes ≡ bytes.now)
        × (elf.entries ≡ segments bytes.now)) }
{
    read_above(alloc, bytes, TABLE_LOW as u64)
}

/// Reads a file whose addresses begin at `low`.
#[tactic(auto, unfolding(crate::specs::Entries::table_place, crate::specs::Entries::table_count))]
fn read_above(alloc: Global, bytes: &[u8], low: u64) -> Result<Elf<'_>, ElfError>
    requires { 0x10000 ≤ low }
    ensures refused { IfErr result (λ error. Refused low bytes.now error) }
    ensures accepted { IfOk result (λ elf. refusal low bytes.now ≡ None) }
    ensures file { IfOk result (λ elf. (elf.bytes ≡ bytes.now)
        × (elf.entries ≡ segments bytes.now)) }
{
    if let Some(error) = header_refusal(bytes) {
        return Err(error);
    }
    let place = get_u64(bytes, E_PHOFF) as usize;
    let count = get_u16(bytes, E_PHNUM);
    let Ok(segments) = read_segments(alloc, bytes, place, count) else {
        return Err(ElfError::Memory);
    };
    if let Some(error) = entry_refusal(&segments, bytes.len(), low) {
        return Err(error);
    }
    let Ok(loads) = loads_of(alloc, &segments) else {
        return Err(ElfError::Memory);
    };
    Ok(Elf {
        file: bytes,
        segments,
        loads,
    })
}

/// The entries that are loaded.
fn loads_of(alloc: Global, segments: &[Segment]) -> Result<Vec<Segment>, AllocError>
    ensures { IfOk result (λ v. v.items ≡ loads segments.now) }
{
    segments
        .iter()
        .filter(|segment| segment.is_load())
        .copied()
        .collect(alloc)
}

impl<'a> Elf<'a> {
    /// The file's bytes.
    pub fn file(&self) -> &[u8]
        ensures value { result.now ≡ self.now.bytes }
        ensures accepted { refusal 0x10000 self.now.bytes ≡ None }
    {
        self.file
    }

    /// The file's bytes, of which the header is the first 64.
    fn header(&self) -> &[u8]
        ensures value { result.now ≡ self.now.bytes }
        ensures whole { 64 ≤ length result.now }
    {
        self.file
    }

    /// Where the program starts: `e_entry`, any number.
    #[tactic(auto, unfolding(crate::specs::Entries::entry_of))]
    pub fn entry(&self) -> u64
        ensures { result ≡ entry_of self.now.bytes }
    {
        get_u64(self.header(), E_ENTRY)
    }

    /// Where the table stands: `e_phoff`.
    #[tactic(auto, unfolding(crate::specs::Entries::table_place))]
    pub fn table_place(&self) -> u64
        ensures { result ≡ table_place self.now.bytes }
    {
        get_u64(self.header(), E_PHOFF)
    }

    /// How many entries the table has: `e_phnum`.
    #[tactic(auto, unfolding(crate::specs::Entries::table_count))]
    pub fn table_count(&self) -> u16
        ensures { result ≡ table_count self.now.bytes }
    {
        get_u16(self.header(), E_PHNUM)
    }

    /// All entries, in the table's order.
    pub fn segments(&self) -> &[Segment]
        ensures value { result.now ≡ self.now.entries }
        ensures read { self.now.entries ≡ segments self.now.bytes }
    {
        &self.segments
    }

    /// The entries that are loaded, nonempty PT_LOADs, in the table's order, which is that of their addresses.
    pub fn loads(&self) -> &[Segment]
        ensures value { result.now ≡ loads (segments self.now.bytes) }
        ensures ascends { Ascends 0 result.now }
        ensures accepted { refusal 0x10000 self.now.bytes ≡ None }
    {
        &self.loads
    }

    /// The nonempty PT_LOAD that holds an address, also past its `p_filesz`.
    pub fn segment_at(&self, addr: u64) -> Option<Segment>
        ensures value { result ≡ segment_holding self.now.bytes addr }
        ensures accepted { refusal 0x10000 self.now.bytes ≡ None }
    {
        let loads = self.loads();
        find_segment(loads, addr)
    }

    /// The loaded byte at an address: zero past `p_filesz`, and none where nothing is loaded.
    pub fn byte(&self, addr: u64) -> Option<u8>
        ensures { result ≡ option_map (λ c. c.byte) (image_of self.now.bytes addr) }
    {
        match self.segment_at(addr) {
            Some(segment) => Some(loaded_byte(self.file(), &segment, addr)),
            None => None,
        }
    }

    /// The permissions at an address, bits as in `p_flags`: 4 reads, 2 writes, 1 executes.
    pub fn perms(&self, addr: u64) -> Option<u32>
        ensures { result ≡ option_map (λ c. c.perms) (image_of self.now.bytes addr) }
    {
        match self.segment_at(addr) {
            Some(segment) => Some(segment.perms()),
            None => None,
        }
    }

    /// Whether the byte at an address is one of the file's, in a PT_LOAD with PF_X and without PF_W.
    pub fn is_exec(&self, addr: u32) -> bool
        ensures { result ≡ is_exec self.now.bytes addr }
    {
        let addr = u64::from(addr);
        match self.segment_at(addr) {
            Some(segment) => segment.is_exec_at(addr),
            None => false,
        }
    }

    /// The at most 15 bytes from an address on for which `is_exec` holds and which lie in one segment.
    pub fn window(&self, addr: u32) -> &[u8]
        ensures { result.now ≡ window self.now.bytes addr }
    {
        let addr = u64::from(addr);
        let Some(segment) = self.segment_at(addr) else {
            return &[];
        };
        if segment.is_exec_at(addr) {
            code_at(self.file(), &segment, addr)
        } else {
            &[]
        }
    }

    /// The window at an address, as `window` tells it. The entry at `place` among those that are loaded is tried first, and
    /// `place` becomes that of the entry that was found: which one it is changes nothing of the answer.
    #[inline(always)]
    pub fn window_near(&self, place: &mut usize, addr: u32) -> &[u8]
        ensures { result.now ≡ window self.now.bytes addr }
    {
        let wide = u64::from(addr);
        let loads = self.loads();
        let at = *place;
        if at < loads.len() && loads[at].is_exec_at(wide) {
            return code_at(self.file(), &loads[at], wide);
        }
        *place = count_below(loads, wide).saturating_sub(1);
        self.window(addr)
    }
}
