//! The command `gen`.
ghost use Rattle.std.specs.Prelude.{◌≤◌, IfOk};
ghost use Rattle.command_io.specs.Failing.{seen_as, told_of};
ghost use Rattle.inspect_commands.specs.GenAnswers.{TellsFindings, GenFinds};
ghost use Rattle.command_words.specs.Words.{most_blocks};

use crate::gen_text::gen_text;
use command_io::ends::{Failure, Told};
use command_io::summary::done_status;
use guest_findings::guest_findings::findings;
use guest_gen::guest::generate;
use std::alloc::{AllocError, Global};

/// Makes the guest of a seed, patches it at its sites, judges the patched file, and runs both.
pub fn find(alloc: Global, seed: u64, blocks: u32) -> Result<Told, Failure<'static>>
    requires some { 1 ≤ blocks }
    requires most { blocks ≤ most_blocks }
    ensures { GenFinds seed blocks (seen_as told_of result) }
{
    match tell_guest(alloc, seed, blocks) {
        Ok(told) => Ok(told),
        Err(AllocError) => Err(Failure::Memory),
    }
}

/// The ten lines of what is found of a guest, and the status.
fn tell_guest(alloc: Global, seed: u64, blocks: u32) -> Result<Told, AllocError>
    requires some { 1 ≤ blocks }
    requires most { blocks ≤ most_blocks }
    ensures { IfOk result (λ told. TellsFindings seed blocks told.text.items told.status) }
{
    let guest = generate(alloc, seed, blocks)?;
    let found = findings(alloc, &guest)?;
    Ok(Told {
        text: gen_text(alloc, seed, blocks, &found)?,
        status: done_status(found.report.rows()),
    })
}
