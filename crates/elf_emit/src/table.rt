//! The new program header table (ELF-64, "Program Header").
ghost use Rattle.std.specs.Prelude.{◌≡◌, ◌+◌, ◌++◌, ◌∷◌, length, map, filter, IfOk, OnOk};
ghost use Rattle.std.specs.List.{AllByRecursion};
ghost use Rattle.elf_read.specs.Entries.{table};
ghost use Rattle.elf_read.specs.Writing.{load_entry};
ghost use Rattle.elf_emit.specs.Layout.{is_other, part_load, with_table, in_order};
ghost use Rattle.elf_emit.specs.Job.{Frame};
ghost use Rattle.elf_emit.specs.Views.{HasSources, PartFits};

use crate::runs::Part;
use elf_read::elf::Elf;
use elf_read::segment::{PF_R, PF_W, PT_LOAD, PT_PHDR, Segment};
use elf_read::writing::{load_entry, push_entry, push_table};
use pun_base::limits::{PAGE_LEN, TABLE_LOW};
use std::alloc::{AllocError, Global};

/// What the new table's entries are made of: the original's entries that aren't PT_LOAD, its nonempty PT_LOADs, and
/// what is loaded of the pages behind the private range.
#[derive(Drop)]
pub(crate) struct Sources<'a> {
    pub(crate) others: Vec<Segment>,
    pub(crate) loads: &'a [Segment],
    pub(crate) parts: &'a [Part],
}

/// The sources of a new table of a file, which loads these parts of the pages behind the private range.
pub(crate) fn sources_of<'a>(
    alloc: Global,
    elf: &'a Elf<'_>,
    parts: &'a [Part],
) -> Result<Sources<'a>, AllocError>
    ensures { IfOk result (λ s. (f : Frame) → f.orig ≡ elf.now.bytes → f.parts ≡ parts.now
        → HasSources s f) }
{
    let others = others_of(alloc, elf.segments())?;
    Ok(Sources {
        others,
        loads: elf.loads(),
        parts,
    })
}

impl Sources<'_> {
    /// How many entries the new table has: these, its own and the private range's.
    pub(crate) fn count(&self) -> u128
        ensures { result ≡ length self.now.others.items +
            (2 + (length self.now.parts.now + length self.now.loads.now)) }
    {
        self.others.len() as u128 + (2 + (self.parts.len() as u128 + self.loads.len() as u128))
    }
}

fn others_of(alloc: Global, segments: &[Segment]) -> Result<Vec<Segment>, AllocError>
    ensures { IfOk result (λ v. v.items ≡ filter is_other segments.now) }
{
    segments
        .iter()
        .filter(|segment| segment.kind != PT_LOAD)
        .copied()
        .collect(alloc)
}

/// The table's own entry, which can be read.
pub(crate) fn table_load(at: u64, size: u64) -> Segment
    ensures { result ≡ load_entry 4 at 0x10000 size }
{
    load_entry(PF_R, at, TABLE_LOW as u64, size)
}

/// The private range's entry, which can be read and written.
pub(crate) fn private_load(at: u64, lo: u32, len: u32) -> Segment
    ensures { result ≡ load_entry 6 at lo len }
{
    load_entry(PF_R | PF_W, at, u64::from(lo), u64::from(len))
}

/// An entry that isn't PT_LOAD: PT_PHDR tells where the table stands, and each other one is as it was.
fn with_table(segment: Segment, at: u64, size: u64) -> Segment
    ensures { result ≡ with_table at size segment }
{
    if segment.kind != PT_PHDR {
        return segment;
    }
    Segment {
        offset: at,
        vaddr: TABLE_LOW as u64,
        paddr: TABLE_LOW as u64,
        filesz: size,
        memsz: size,
        ..segment
    }
}

/// The new PT_LOADs, not yet in order: the table, the private range, the parts of the pages that begin at `at` in the file, and the
/// original's.
pub(crate) fn new_loads(
    alloc: Global,
    table: Segment,
    private: Segment,
    parts: &[Part],
    at: u64,
    olds: &[Segment],
) -> Result<Vec<Segment>, AllocError>
    requires fits { AllByRecursion (PartFits at) parts.now }
    ensures { IfOk result (λ v. v.items ≡ table ∷ private
        ∷ (map (part_load at) parts.now ++ olds.now)) }
{
    let mut new = Vec::new(alloc);
    new.push(table)?;
    new.push(private)?;
    push_parts(&mut new, parts, at)?;
    new.extend_from_slice(olds)?;
    Ok(new)
}

/// Appends the entries of parts of the pages that begin at `at` in the file.
fn push_parts(new: &mut Vec<Segment>, parts: &[Part], at: u64) -> Result<(), AllocError>
    requires fits { AllByRecursion (PartFits at) parts.now }
    ensures { OnOk result (new.new.items ≡ new.old.items ++ map (part_load at) parts.now) }
{
    for part in parts {
        new.push(load_entry(
            part.perms,
            at + PAGE_LEN as u64 * u64::from(part.first),
            u64::from(part.addr),
            PAGE_LEN as u64 * part.count,
        ))?;
    }
    Ok(())
}

/// PT_LOADs by ascending `p_vaddr`.
pub(crate) fn in_order(alloc: Global, loads: &[Segment]) -> Result<Vec<Segment>, AllocError>
    ensures { IfOk result (λ v. v.items ≡ in_order loads.now) }
{
    let mut ordered = loads.to_vec(alloc)?;
    ordered.sort_by_key(|segment| segment.vaddr)?;
    Ok(ordered)
}

/// Appends the entries that aren't PT_LOAD, of which PT_PHDR tells the table's place and size.
fn push_others(out: &mut Vec<u8>, others: &[Segment], at: u64, size: u64) -> Result<(), AllocError>
    ensures { OnOk result (out.new.items ≡ out.old.items
        ++ table (map (with_table at size) others.now)) }
{
    for entry in others {
        push_entry(out, &with_table(*entry, at, size))?;
    }
    Ok(())
}

/// The bytes of the table: the entries that aren't PT_LOAD in their order, then the PT_LOADs by their addresses.
pub(crate) fn table_bytes(
    alloc: Global,
    others: &[Segment],
    loads: &[Segment],
    at: u64,
    size: u64,
) -> Result<Vec<u8>, AllocError>
    ensures { IfOk result (λ v. v.items ≡ table
        (map (with_table at size) others.now ++ in_order loads.now)) }
{
    let ordered = in_order(alloc, loads)?;
    let mut bytes = Vec::new(alloc);
    push_others(&mut bytes, others, at, size)?;
    push_table(&mut bytes, &ordered)?;
    Ok(bytes)
}
