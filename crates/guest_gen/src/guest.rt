//! Guests, and how one is made from a number.
ghost use Rattle.std.specs.Prelude.{◌≡◌, ◌≤◌, IfOk};
ghost use Rattle.guest_gen.specs.Files.{guest_file};
ghost use Rattle.guest_gen.specs.Texts.{guest_sites, guest_starts};
ghost use Rattle.guest_gen.specs.Worlds.{AnswersRun, IsGuestScript};

use crate::answering::answer_run;
use crate::draft::draft;
use crate::file::file_of;
use crate::start::{script_with, start_state};
use cpu_state::script::Script;
use std::alloc::{AllocError, Global};
use std::marker::Model;

/// So many steps of a guest are answered by its world.
pub const STEPS: u32 = 100_000;

/// A program that runs as long as one likes.
#[derive(Debug, Drop)]
pub struct Guest {
    elf: Vec<u8>,
    starts: Vec<u32>,
    sites: Vec<u32>,
    script: Script,
}

impl Model for Guest {
    ghost use Rattle.guest_gen.specs.Views.{GuestParts};

    ghost Value = { GuestParts };

    ghost view = { λ g. record {
      file = g.elf.items;
      starts = g.starts.items;
      sites = g.sites.items;
      script = g.script;
    } };
}

impl Guest {
    /// The program's file.
    pub fn elf(&self) -> &[u8]
        ensures { result.now ≡ self.now.file }
    {
        &self.elf
    }

    /// The addresses of all its instructions, ascending.
    pub fn starts(&self) -> &[u32]
        ensures { result.now ≡ self.now.starts }
    {
        &self.starts
    }

    /// Those of them that are to be patched, ascending: at most 250.
    pub fn sites(&self) -> &[u32]
        ensures { result.now ≡ self.now.sites }
    {
        &self.sites
    }

    /// Its start, and a world that answers its first 100,000 steps by setting nothing.
    pub fn script(&self) -> &Script
        ensures { result.now ≡ self.now.script }
    {
        &self.script
    }
}

/// The guest of a number, with so many blocks of code.
pub fn generate(alloc: Global, seed: u64, blocks: u32) -> Result<Guest, AllocError>
    requires some { 1 ≤ blocks }
    requires most { blocks ≤ 20000 }
    ensures file { IfOk result (λ g. g.file ≡ guest_file seed blocks) }
    ensures starts { IfOk result (λ g. g.starts ≡ guest_starts seed blocks) }
    ensures sites { IfOk result (λ g. g.sites ≡ guest_sites seed blocks) }
    ensures script { IfOk result (λ g. IsGuestScript g.script) }
    ensures world { IfOk result (λ g. AnswersRun 100000 g.file g.script) }
{
    let (text, sites) = draft(alloc, seed, blocks)?;
    let elf = file_of(alloc, &text.bytes)?;
    let state = start_state(alloc, &text.bytes)?;
    let entries = answer_run(alloc, state, STEPS)?;
    Ok(Guest {
        elf,
        starts: text.starts,
        sites,
        script: script_with(alloc, entries),
    })
}
