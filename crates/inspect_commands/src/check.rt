//! The command `check`.
ghost use Rattle.std.specs.Prelude.{◌≡◌, IfOk};
ghost use Rattle.start_entries.specs.Laws.{IsBuilt};
ghost use Rattle.sound_images.specs.Cases.{case_of};
ghost use Rattle.image_check.specs.declared.verdict.Verdict.TheVariants.{Yes};
ghost use Rattle.command_words.specs.Named.{check_names_of};
ghost use Rattle.command_io.specs.Failing.{Gathers, Answers, Judges, seen_as, told_of};
ghost use Rattle.inspect_commands.specs.CheckAnswers.{check_inputs, IsCheckStatus, IsVerdictIn, IsFollowedIn, CheckRefuses, CheckTells};
ghost use Rattle.inspect_commands.specs.Checking.{check_texts};

use crate::check_text::{verdict_status, verdict_text};
use command_io::ends::{Failure, Input, Told};
use command_io::failures::{file_failure, list_failure, report_failure, start_failure};
use command_io::inputs::read_input;
use command_io::report_mode::{Mode, read_report};
use command_words::words::CheckNames;
use elf_read::elf::{Elf, read_elf, read_written};
use image_check::verdict;
use image_check::verdict::Verdict;
use list_text::lists::read_starts;
use patch_report::report::Report;
use pun_base::desk::Desk;
use start_entries::starts::Starts;
use std::alloc::{AllocError, Global};
use thread_check::verdict::check_threads;

/// The bytes of the inputs.
#[derive(Drop)]
struct CheckInputs {
    file: Vec<u8>,
    out: Vec<u8>,
    starts: Vec<u8>,
    report: Vec<u8>,
}

/// Judges whether OUT is a sound patch of FILE, as REPORT tells it.
pub fn check<'a, D: Desk>(
    alloc: Global,
    names: &CheckNames<'a>,
    desk: &mut D,
) -> Result<Told, Failure<'a>>
    ensures { Answers (check_inputs (check_names_of names.now)) CheckRefuses CheckTells
        IsCheckStatus (D.seen desk.old) (D.seen desk.new) (seen_as told_of result) }
{
    match read_inputs(alloc, names, desk) {
        Ok(inputs) => judge_inputs(alloc, &inputs),
        Err(failure) => Err(failure),
    }
}

/// Reads FILE, OUT, STARTS and REPORT in this order, until one can't be read.
fn read_inputs<'a, D: Desk>(
    alloc: Global,
    names: &CheckNames<'a>,
    desk: &mut D,
) -> Result<CheckInputs, Failure<'a>>
    ensures { Gathers (check_inputs (check_names_of names.now)) (D.seen desk.old)
        (D.seen desk.new) (seen_as check_texts result) }
{
    let file = read_input(alloc, Input::File, names.file, desk)?;
    let out = read_input(alloc, Input::Out, names.out, desk)?;
    let starts = read_input(alloc, Input::Starts, names.starts, desk)?;
    let report = read_input(alloc, Input::Report, names.report, desk)?;
    Ok(CheckInputs {
        file,
        out,
        starts,
        report,
    })
}

/// Judges the patch by the rules of the report's mode.
fn judge_patch(
    alloc: Global,
    original: &Elf<'_>,
    patched: &Elf<'_>,
    listed: &Starts,
    mode: Mode,
    report: &Report,
) -> Result<Verdict, AllocError>
    requires built { IsBuilt original.now.bytes listed.now }
    ensures verdict { IfOk result (λ verdict. IsVerdictIn mode
        (case_of original.now.bytes patched.now.bytes listed.now report.now.body) verdict) }
    ensures followed { IfOk result (λ verdict. verdict ≡ Yes → IsFollowedIn mode
        (case_of original.now.bytes patched.now.bytes listed.now report.now.body)) }
{
    match mode {
        Mode::Plain => verdict::check(alloc, original, patched, listed, report),
        Mode::Threaded => check_threads(alloc, original, patched, listed, report),
    }
}

/// Judges STARTS, REPORT, FILE, OUT and the starts in this order, and then the patch.
#[tactic(auto, using(command_io::proofs::ModedReadings::moded_read, crate::proofs::CheckVerdicts::report_refused, crate::proofs::CheckVerdicts::listing_refused))]
fn judge_inputs<'a>(alloc: Global, inputs: &CheckInputs) -> Result<Told, Failure<'a>>
    ensures { Judges CheckRefuses CheckTells (check_texts inputs.now) (seen_as told_of result) }
{
    let starts = match read_starts(alloc, &inputs.starts) {
        Ok(starts) => starts,
        Err(error) => return Err(list_failure(Input::Starts, error)),
    };
    let (mode, report) = match read_report(alloc, &inputs.report) {
        Ok(moded) => moded,
        Err(error) => return Err(report_failure(error)),
    };
    let original = match read_elf(alloc, &inputs.file) {
        Ok(elf) => elf,
        Err(error) => return Err(file_failure(Input::File, error)),
    };
    let patched = match read_written(alloc, &inputs.out) {
        Ok(elf) => elf,
        Err(error) => return Err(file_failure(Input::Out, error)),
    };
    let listed = match Starts::build(alloc, &original, &starts) {
        Ok(listed) => listed,
        Err(error) => return Err(start_failure(error)),
    };
    let Ok(verdict) = judge_patch(alloc, &original, &patched, &listed, mode, &report) else {
        return Err(Failure::Memory);
    };
    match verdict_text(alloc, verdict) {
        Ok(text) => Ok(Told {
            text,
            status: verdict_status(verdict),
        }),
        Err(AllocError) => Err(Failure::Memory),
    }
}
