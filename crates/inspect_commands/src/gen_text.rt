//! What `gen` prints.
ghost use Rattle.std.specs.Prelude.{◌≡◌, ◌++◌, length, IfOk, OnOk, string_bytes};
ghost use Rattle.guest_gen.specs.Texts.{guest_starts};
ghost use Rattle.inspect_commands.specs.GenText.{guest_line, runs_line, views_line, gen_text};
ghost use Rattle.guest_findings.specs.Generating.{findings_of};

use crate::check_text::verdict_text;
use crate::step_text::{push_count, push_quiet};
use command_io::summary::summary;
use guest_findings::guest_findings::Found;
use std::alloc::{AllocError, Global};

/// Which guest it is.
#[tactic(auto, unfolding(crate::specs::GenText::guest_line))]
fn guest_line(alloc: Global, seed: u64, blocks: u32) -> Result<String, AllocError>
    ensures { IfOk result (λ line. string_bytes line ≡ guest_line seed blocks) }
{
    format!(in alloc; "gen {seed} {blocks}\n")
}

/// The steps of both runs, and the sum of the counters.
#[tactic(auto, unfolding(crate::specs::GenText::runs_line))]
fn runs_line(alloc: Global, found: &Found) -> Result<String, AllocError>
    ensures { IfOk result (λ line. string_bytes line ≡ runs_line (findings_of found.now)) }
{
    let steps = found.runs.steps;
    let patched = found.runs.patched_steps;
    let events = found.runs.events;
    format!(in alloc; "steps {steps} {patched} events {events}\n")
}

/// Appends whether the last states look alike.
fn push_views(out: &mut Vec<u8>, agree: bool) -> Result<(), AllocError>
    ensures { OnOk result (out.new.items ≡ out.old.items ++ views_line agree) }
{
    out.extend_from_slice(if agree {
        b"views agree\n"
    } else {
        b"views differ\n"
    })
}

/// The ten lines.
pub fn gen_text(alloc: Global, seed: u64, blocks: u32, found: &Found) -> Result<Vec<u8>, AllocError>
    requires { found.now.starts ≡ length (guest_starts seed blocks) }
    ensures { IfOk result (λ text. text.items ≡ gen_text seed blocks (findings_of found.now)) }
{
    let mut out = Vec::new(alloc);
    out.extend_from_slice(guest_line(alloc, seed, blocks)?.as_bytes())?;
    push_count(alloc, &mut out, "starts", found.starts as u64)?;
    out.extend_from_slice(summary(alloc, found.report.rows())?.as_bytes())?;
    push_count(alloc, &mut out, "entries", found.entries as u64)?;
    out.extend_from_slice(verdict_text(alloc, found.verdict)?.as_slice())?;
    out.extend_from_slice(runs_line(alloc, found)?.as_bytes())?;
    push_quiet(&mut out, found.runs.quiet)?;
    push_views(&mut out, found.runs.agree)?;
    Ok(out)
}
