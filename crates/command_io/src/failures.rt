//! How what a lower call refuses ends a command.
ghost use Rattle.std.specs.Prelude.{◌≡◌};
ghost use Rattle.command_io.specs.Failing.{failed_of, list_failed, script_failed, report_failed, file_failed, start_failed, runner_failed, rewrite_failed, undo_failed, load_failed, loader_failed, settle_failed, unsettle_failed};

use crate::ends::{Failure, Input};
use crate::refusal::Refusal;
use elf_emit::emit::EmitError;
use elf_read::refusal::ElfError;
use image_step::error::ScriptError;
use image_step::runner_error::RunnerError;
use list_text::refusal::ListError;
use loader_form::error::LoadError;
use patch_report::error::ReportError;
use rewrite_core::rewrite::RewriteError;
use rewrite_loader::error::LoaderError;
use settle::error::{SettleError, UnsettleError};
use start_entries::refusal::StartError;
use unpatch::error::UnpatchError;

/// A list that is refused.
pub fn list_failure<'a>(which: Input, error: ListError) -> Failure<'a>
    ensures { failed_of result ≡ list_failed which error }
{
    match error {
        ListError::Memory => Failure::Memory,
        error => Failure::Refused(Refusal::BadList(which, error)),
    }
}

/// A script that is refused.
pub fn script_failure<'a>(error: ScriptError) -> Failure<'a>
    ensures { failed_of result ≡ script_failed error }
{
    match error {
        ScriptError::Memory => Failure::Memory,
        error => Failure::Refused(Refusal::BadScript(error)),
    }
}

/// A report that is refused.
pub fn report_failure<'a>(error: ReportError) -> Failure<'a>
    ensures { failed_of result ≡ report_failed error }
{
    match error {
        ReportError::Memory => Failure::Memory,
        error => Failure::Refused(Refusal::BadReport(error)),
    }
}

/// A file that is refused.
pub fn file_failure<'a>(which: Input, error: ElfError) -> Failure<'a>
    ensures { failed_of result ≡ file_failed which error }
{
    match error {
        ElfError::Memory => Failure::Memory,
        error => Failure::Refused(Refusal::BadFile(which, error)),
    }
}

/// Starts that are refused.
pub fn start_failure<'a>(error: StartError) -> Failure<'a>
    ensures { failed_of result ≡ start_failed error }
{
    match error {
        StartError::Memory => Failure::Memory,
        error => Failure::Refused(Refusal::BadStart(error)),
    }
}

/// A file that can't be run.
pub fn runner_failure<'a>(error: RunnerError) -> Failure<'a>
    ensures { failed_of result ≡ runner_failed error }
{
    match error {
        RunnerError::Memory => Failure::Memory,
        error => Failure::Refused(Refusal::Meets(error)),
    }
}

/// A rewriting into the output of this name that is refused, or cut short.
pub fn rewrite_failure<'a>(error: RewriteError, out: &'a str) -> Failure<'a>
    ensures { failed_of result ≡ rewrite_failed out.entry.now error }
{
    match error {
        RewriteError::Emit(EmitError::WriteFault) => Failure::WriteFault(out),
        RewriteError::Emit(EmitError::Memory) | RewriteError::Memory => Failure::Memory,
        error => Failure::Refused(Refusal::Rewrite(error)),
    }
}

/// A patch that can't be undone.
pub fn undo_failure<'a>(error: UnpatchError) -> Failure<'a>
    ensures { failed_of result ≡ undo_failed error }
{
    match error {
        UnpatchError::Memory => Failure::Memory,
        error => Failure::Refused(Refusal::Undo(error)),
    }
}

/// A stub that can't be laid.
fn load_failure<'a>(error: LoadError) -> Failure<'a>
    ensures { failed_of result ≡ load_failed error }
{
    match error {
        LoadError::Memory => Failure::Memory,
        error => Failure::Refused(Refusal::Load(error)),
    }
}

/// A rewriting into the loader form, into the output of this name, that is refused, or cut short.
pub fn loader_failure<'a>(error: LoaderError, out: &'a str) -> Failure<'a>
    ensures { failed_of result ≡ loader_failed out.entry.now error }
{
    match error {
        LoaderError::Rewrite(error) => rewrite_failure(error, out),
        LoaderError::Load(error) => load_failure(error),
    }
}

/// A program that can't be settled.
pub fn settle_failure<'a>(error: SettleError) -> Failure<'a>
    ensures { failed_of result ≡ settle_failed error }
{
    match error {
        SettleError::Memory => Failure::Memory,
        error => Failure::Refused(Refusal::Settle(error)),
    }
}

/// A file that isn't a settled one.
pub fn unsettle_failure<'a>(error: UnsettleError) -> Failure<'a>
    ensures { failed_of result ≡ unsettle_failed error }
{
    match error {
        UnsettleError::Memory => Failure::Memory,
        error => Failure::Refused(Refusal::Unsettle(error)),
    }
}
