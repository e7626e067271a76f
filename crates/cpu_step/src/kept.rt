//! Instructions that were read, kept by their addresses: where the same bytes stand there again, none is read anew.
ghost use Rattle.std.specs.Prelude.{◌≡◌, IfSome, IsTrue, length};
ghost use Rattle.length_decode.specs.declared.instruction_parts.Shape.TheVariants.{Known};
ghost use Rattle.length_decode.specs.Parse.{shape_of};
ghost use Rattle.insn_form.specs.Instruction.{Classifies};
ghost use Rattle.cpu_step.specs.Kept.{IsFront, asked_of};

use crate::question::question;
use cpu_state::world::Question;
use insn_form::Insn;
use length_decode::Parts;
use pun_base::byte_list::ByteList;
use std::alloc::Global;

/// An instruction that was read: its bytes, their parts, and what it is.
#[derive(Drop)]
pub(crate) struct KeptInsn {
    pub(crate) bytes: ByteList,
    pub(crate) parts: Parts,
    pub(crate) form: Insn,
    pub(crate) ghost read: { shape_of bytes ≡ Known parts },
    pub(crate) ghost whole: { parts.len ≡ length bytes },
    pub(crate) ghost classified: { Classifies bytes form },
}

impl KeptInsn {
    /// What it asks of the world in front of the instruction at `next`.
    pub(crate) fn asked(&self, next: u64) -> Question
        ensures { result ≡ asked_of self.now.bytes next }
    {
        question(&self.parts, self.bytes.as_slice(), next)
    }
}

/// How many instructions are kept at most: one for each remainder of an address.
const SLOTS: usize = 1024;

/// No instruction is kept there.
const NONE: u16 = u16::MAX;

/// Instructions that were read, by their addresses. An instruction that is found is one that the bytes begin with, whatever was kept.
#[derive(Drop)]
pub struct KeptInsns {
    /// By the remainder of its address, the place of an instruction.
    places: Vec<u16>,
    insns: Vec<KeptInsn>,
}

/// Whether these bytes come first.
fn is_front(front: &[u8], code: &[u8]) -> bool
    ensures { IsTrue result → IsFront front.now code.now }
{
    front.len() <= code.len() && &code[..front.len()] == front
}

/// The place of an address among the places.
fn slot_of(addr: u64) -> usize {
    (addr % SLOTS as u64) as usize
}

impl KeptInsns {
    /// No instruction.
    pub fn new(alloc: Global) -> KeptInsns {
        KeptInsns {
            places: Vec::new(alloc),
            insns: Vec::new(alloc),
        }
    }

    /// The instruction that was kept for an address, where these bytes begin with it.
    pub(crate) fn find(&self, addr: u64, code: &[u8]) -> Option<&KeptInsn>
        ensures { IfSome result (λ insn. IsFront insn.now.bytes code.now) }
    {
        let place = self.places.get(slot_of(addr))?;
        let insn = self.insns.get(usize::from(*place))?;
        if is_front(insn.bytes.as_slice(), code) {
            Some(insn)
        } else {
            None
        }
    }

    /// Keeps an instruction for an address, in place of another one. Where memory is wanting, none is kept.
    pub(crate) fn keep(&mut self, addr: u64, insn: KeptInsn) {
        if self.places.is_empty() && self.places.resize(SLOTS, NONE).is_err() {
            return;
        }
        let slot = slot_of(addr);
        if slot >= self.places.len() {
            return;
        }
        let place = usize::from(self.places[slot]);
        if place < self.insns.len() {
            self.insns[place] = insn;
        } else if let Ok(place) = u16::try_from(self.insns.len())
            && self.insns.push(insn).is_ok()
        {
            self.places[slot] = place;
        }
    }
}
