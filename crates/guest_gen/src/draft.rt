//! The text of a guest, as it grows.
ghost use Rattle.std.specs.Prelude.{◌≡◌, ◌+◌, ◌*◌, ◌≤◌, ◌++◌, [], ◌∷◌, length, IfOk, OnOk};
ghost use Rattle.guest_gen.specs.Blocks.{block};
ghost use Rattle.guest_gen.specs.Growing.{Grown, behind};
ghost use Rattle.guest_gen.specs.Texts.{all_of, guest_blocks, guest_sites, guest_starts, guest_text, site_at, sites_from, spacing};

use crate::drawing::draw_block;
use crate::instruction::{GuestInsn, TEXT_START};
use std::alloc::{AllocError, Global};

/// At most so many sites, and at least so many blocks from one site to the next.
const MOST_SITES: u32 = 250;

const LEAST_SPACING: u32 = 8;

/// Instructions from the text's beginning on: their bytes, and where each begins.
#[derive(Drop)]
pub(crate) struct Text {
    pub(crate) bytes: Vec<u8>,
    pub(crate) starts: Vec<u32>,
}

impl Text {
    /// The address behind the text.
    fn behind(&self) -> u32
        requires { length self.now.bytes.items ≤ 16777216 }
        ensures value { result ≡ behind self.now }
        ensures small { result ≤ 20975616 }
    {
        TEXT_START + self.bytes.len() as u32
    }

    /// Appends an instruction.
    fn push(&mut self, insn: GuestInsn) -> Result<(), AllocError>
        requires { length self.old.bytes.items ≤ 16777216 }
        ensures grown { OnOk result (Grown (insn ∷ []) self.old self.new) }
        ensures few { OnOk result (length self.new.bytes.items
            ≤ length self.old.bytes.items + 8) }
    {
        let at = self.behind();
        self.starts.push(at)?;
        insn.put(&mut self.bytes, at)
    }

    /// Appends instructions.
    fn push_all(&mut self, insns: &[GuestInsn]) -> Result<(), AllocError>
        requires { length self.old.bytes.items + 8 * length insns.now ≤ 16777216 }
        ensures grown { OnOk result (Grown insns.now self.old self.new) }
        ensures few { OnOk result (length self.new.bytes.items
            ≤ length self.old.bytes.items + 8 * length insns.now) }
    {
        for insn in insns {
            self.push(*insn)?;
        }
        Ok(())
    }

    /// Appends a block, by its kind and the number that it holds.
    #[tactic(auto, unfolding(crate::specs::Blocks::block))]
    fn push_block(&mut self, kind: u32, number: u32) -> Result<(), AllocError>
        requires { length self.old.bytes.items + 24 ≤ 16777216 }
        ensures grown { OnOk result (Grown (block kind number) self.old self.new) }
        ensures few { OnOk result (length self.new.bytes.items
            ≤ length self.old.bytes.items + 24) }
    {
        match kind {
            0 => self.push_all(&[GuestInsn::MovRaxRbx]),
            1 => self.push_all(&[GuestInsn::AddRbxRax]),
            2 => self.push_all(&[GuestInsn::MovEax(number)]),
            3 => self.push_all(&[GuestInsn::AddRbx(number)]),
            4 => self.push_all(&[GuestInsn::AddRcxOne]),
            5 => self.push_all(&[GuestInsn::PushRax, GuestInsn::PopRax]),
            6 => self.push_all(&[
                GuestInsn::CmpRaxRbx,
                GuestInsn::JeOverInc,
                GuestInsn::IncRdx,
            ]),
            7 => self.push_all(&[GuestInsn::LoadRax]),
            8 => self.push_all(&[GuestInsn::StoreRax]),
            9 => self.push_all(&[GuestInsn::CallRet]),
            10 => self.push_all(&[GuestInsn::LeaData]),
            11 => self.push_all(&[GuestInsn::XorRaxRcx]),
            12 => self.push_all(&[GuestInsn::Nop]),
            13 => self.push_all(&[GuestInsn::Cpuid]),
            14 => self.push_all(&[GuestInsn::LeaRcx]),
            _ => self.push_all(&[GuestInsn::CallRsi]),
        }
    }

    /// Appends the blocks that are drawn from a number. The sites are the first instructions of some of them.
    fn push_blocks(&mut self, alloc: Global, seed: u64, blocks: u32) -> Result<Vec<u32>, AllocError>
        requires first { length self.old.bytes.items ≤ 8 }
        requires some { 1 ≤ blocks }
        requires most { blocks ≤ 20000 }
        ensures grown { OnOk result (Grown (all_of (guest_blocks seed blocks)) self.old self.new) }
        ensures few { OnOk result (length self.new.bytes.items ≤ 480008) }
        ensures sites { IfOk result (λ sites. sites.items
            ≡ sites_from (spacing blocks) 0 (behind self.old) (guest_blocks seed blocks)) }
    {
        let every = spacing(blocks);
        let mut sites = Vec::new(alloc);
        let mut x = seed;
        for index in 0..blocks {
            push_site(&mut sites, every, index, self.behind())?;
            let drawn = draw_block(&mut x);
            self.push_block(drawn.kind, drawn.number)?;
        }
        Ok(sites)
    }
}

/// How many blocks there are from one site to the next.
fn spacing(blocks: u32) -> u32
    requires { blocks ≤ 20000 }
    ensures value { result ≡ spacing blocks }
    ensures some { 8 ≤ result }
{
    let every = (blocks + (MOST_SITES - 1)) / MOST_SITES;
    if every <= LEAST_SPACING {
        LEAST_SPACING
    } else {
        every
    }
}

/// Appends the address of the block with an index, if it is a site.
fn push_site(sites: &mut Vec<u32>, every: u32, index: u32, at: u32) -> Result<(), AllocError>
    requires { 8 ≤ every }
    ensures { OnOk result (sites.new.items ≡ sites.old.items ++ site_at every index at) }
{
    if index % every == 0 {
        sites.push(at)?;
    }
    Ok(())
}

/// The text that is made from a number, and its sites.
pub(crate) fn draft(alloc: Global, seed: u64, blocks: u32) -> Result<(Text, Vec<u32>), AllocError>
    requires some { 1 ≤ blocks }
    requires most { blocks ≤ 20000 }
    ensures text { IfOk result (λ r. r.0.bytes.items ≡ guest_text seed blocks) }
    ensures starts { IfOk result (λ r. r.0.starts.items ≡ guest_starts seed blocks) }
    ensures few { IfOk result (λ r. length r.0.bytes.items ≤ 480016) }
    ensures sites { IfOk result (λ r. r.1.items ≡ guest_sites seed blocks) }
{
    let mut text = Text {
        bytes: Vec::new(alloc),
        starts: Vec::new(alloc),
    };
    text.push(GuestInsn::Ret)?;
    let sites = text.push_blocks(alloc, seed, blocks)?;
    text.push(GuestInsn::JmpBack)?;
    Ok((text, sites))
}
