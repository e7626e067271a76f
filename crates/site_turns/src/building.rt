//! The code of trampolines, and that with the events of an action.
ghost use Rattle.std.specs.Prelude.{◌≡◌, ℕ, false, List, map, IfOk, OnOk};
ghost use Rattle.std.specs.List.{AllByRecursion};
ghost use Rattle.sound_images.specs.Reports.{Line, event_of};
ghost use Rattle.sound_images.specs.Rules.{HasCode};
ghost use Rattle.site_turns.specs.Planning.{lines_of, AreCodesBy};
ghost use Rattle.site_turns.specs.Turned.{events_case, line_at, CanBuild, AddsCodes};

use crate::start_insn::insn_at;
use code_bytes::code::Code;
use elf_emit::built::Built;
use elf_read::elf::Elf;
use patch_report::row::ReportRow;
use pun_base::action::Action;
use pun_base::range::Range;
use pun_base::tramp::Tramp;
use start_entries::starts::Starts;
use std::alloc::{AllocError, Global};
use trampoline::{Event, build};

/// What makes the code of trampolines.
pub trait Coding {
    /// The trampolines whose code can be made.
    ghost can: { Self → Line → Type 0 };

    /// What the code of a trampoline is.
    ghost is_code: { Self → Line → List ℕ → Type 0 };

    /// The code of a trampoline of the site with a number.
    fn code_of(&self, number: u32, tramp: &Tramp) -> Code
        requires { can self.now (line_at number tramp.now) }
        ensures code { is_code self.now (line_at number tramp.now) result.bytes }
        ensures falls { result.falls ≡ false };
}

/// What the code of events is made of: the original, its starts, the action, and the private range.
#[derive(Clone, Copy)]
pub(crate) struct EventSetting<'a> {
    pub(crate) elf: &'a Elf<'a>,
    pub(crate) starts: &'a Starts,
    pub(crate) action: Action,
    pub(crate) private: Range,
}

/// What a trampoline of the site with a number records.
fn event_of(action: Action, number: u32, tramp: &Tramp) -> Option<Event>
    ensures { result ≡ event_of action (line_at number tramp.now) }
{
    if tramp.event {
        Some(Event { action, number })
    } else {
        None
    }
}

impl Coding for EventSetting<'_> {
    ghost can = { CanBuild };

    ghost is_code = { λ s. HasCode (events_case s) };

    fn code_of(&self, number: u32, tramp: &Tramp) -> Code {
        let Some(at) = insn_at(self.elf, self.starts, tramp.start) else {
            unreachable!();
        };
        let event = event_of(self.action, number, tramp);
        build(
            at.insn,
            at.bytes,
            at.entry.addr,
            tramp.place,
            event,
            self.private.lo,
        )
        .unwrap()
    }
}

/// Appends the code of trampolines of the site with a number.
fn push_codes<C: Coding>(
    coding: &C,
    number: u32,
    tramps: &[Tramp],
    built: &mut Vec<Built>,
) -> Result<(), AllocError>
    requires { AllByRecursion (C.can coding.now) (map (line_at number) tramps.now) }
    ensures { OnOk result (AddsCodes (C.is_code coding.now) (map (line_at number) tramps.now)
        built.old.items built.new.items) }
{
    for tramp in tramps {
        let code = coding.code_of(number, tramp);
        built.push(Built {
            place: tramp.place,
            code,
        })?;
    }
    Ok(())
}

/// The code of each trampoline, in the order of the rows.
pub fn build_all<C: Coding>(
    alloc: Global,
    coding: &C,
    rows: &[ReportRow],
) -> Result<Vec<Built>, AllocError>
    requires { AllByRecursion (C.can coding.now) (lines_of rows.now) }
    ensures { IfOk result (λ built. AreCodesBy (C.is_code coding.now) (lines_of rows.now) built.items) }
{
    let mut built = Vec::with_capacity(alloc, rows.len())?;
    for row in rows {
        push_codes(coding, row.number, row.outcome.tramps(), &mut built)?;
    }
    Ok(built)
}
