//! The command `unpatch`.
ghost use Rattle.std.specs.Prelude.{◌≡◌, [], ◌∷◌, None, IfOk, string_bytes};
ghost use Rattle.command_words.specs.Named.{unpatch_names_of};
ghost use Rattle.patch_commands.specs.UnpatchAnswers.{unpatch_inputs, unpatch_writing, restored_text};
ghost use Rattle.command_io.specs.Failing.{Gathers, seen_as, told_of};
ghost use Rattle.command_io.specs.Works.{Works, Carries};
ghost use Rattle.patch_commands.specs.Unpatching.{unpatch_texts, Restores, TellsLength, WritesNew};

use command_io::ends::{Failure, Input, Told};
use command_io::failures::{file_failure, report_failure, undo_failure};
use command_io::inputs::read_input;
use command_io::outputs::write_output;
use command_io::report_mode::read_report;
use command_io::status;
use command_words::words::UnpatchNames;
use elf_read::elf::read_written;
use pun_base::desk::Desk;
use std::alloc::{AllocError, Global};
use unpatch::restore::restore;

/// The bytes of the inputs.
#[derive(Drop)]
struct UnpatchInputs {
    patched: Vec<u8>,
    report: Vec<u8>,
}

/// Reads the inputs, and writes what was before the patch.
pub fn undo<'a, D: Desk>(
    alloc: Global,
    names: &UnpatchNames<'a>,
    desk: &mut D,
) -> Result<Told, Failure<'a>>
    requires { (D.seen desk.old).writing ≡ None }
    ensures { Carries (unpatch_writing (unpatch_names_of names.now)) (D.seen desk.old)
        (D.seen desk.new) (seen_as told_of result) }
{
    match read_inputs(alloc, names, desk) {
        Ok(inputs) => undo_inputs(alloc, inputs, names, desk),
        Err(failure) => Err(failure),
    }
}

/// Reads PATCHED and REPORT in this order, until one can't be read.
fn read_inputs<'a, D: Desk>(
    alloc: Global,
    names: &UnpatchNames<'a>,
    desk: &mut D,
) -> Result<UnpatchInputs, Failure<'a>>
    ensures { Gathers (unpatch_inputs (unpatch_names_of names.now)) (D.seen desk.old)
        (D.seen desk.new) (seen_as unpatch_texts result) }
{
    let patched = read_input(alloc, Input::Out, names.patched, desk)?;
    let report = read_input(alloc, Input::Report, names.report, desk)?;
    Ok(UnpatchInputs { patched, report })
}

/// Undoes the texts, lets go of them, and writes what is given back.
fn undo_inputs<'a, D: Desk>(
    alloc: Global,
    inputs: UnpatchInputs,
    names: &UnpatchNames<'a>,
    desk: &mut D,
) -> Result<Told, Failure<'a>>
    requires { (D.seen desk.old).writing ≡ None }
    ensures { Works (unpatch_writing (unpatch_names_of names.now)) (unpatch_texts inputs)
        (D.seen desk.old) (D.seen desk.new) (seen_as told_of result) }
{
    let bytes = match undo_texts(alloc, &inputs.patched, &inputs.report) {
        Ok(bytes) => bytes,
        Err(failure) => return Err(failure),
    };
    drop(inputs);
    write_new(alloc, bytes, names.new, desk)
}

/// Judges REPORT and then PATCHED, and gives back what was before the patch.
fn undo_texts<'a>(alloc: Global, patched: &[u8], report: &[u8]) -> Result<Vec<u8>, Failure<'a>>
    ensures { Restores (patched.now ∷ report.now ∷ []) (seen_as (λ v. v.items) result) }
{
    let (_, report) = match read_report(alloc, report) {
        Ok(moded) => moded,
        Err(error) => return Err(report_failure(error)),
    };
    let patched = match read_written(alloc, patched) {
        Ok(elf) => elf,
        Err(error) => return Err(file_failure(Input::Out, error)),
    };
    match restore(alloc, &patched, &report) {
        Ok(bytes) => Ok(bytes),
        Err(error) => Err(undo_failure(error)),
    }
}

/// Writes NEW, and answers its length.
fn write_new<'a, D: Desk>(
    alloc: Global,
    bytes: Vec<u8>,
    name: &'a str,
    desk: &mut D,
) -> Result<Told, Failure<'a>>
    requires { (D.seen desk.old).writing ≡ None }
    ensures { WritesNew name.entry.now bytes.items (D.seen desk.old) (D.seen desk.new)
        (seen_as told_of result) }
{
    let len = bytes.len();
    match write_output(alloc, bytes, name, desk) {
        Ok(()) => told_length(alloc, len),
        Err(failure) => Err(failure),
    }
}

/// The line with a length.
fn told_length<'a>(alloc: Global, len: usize) -> Result<Told, Failure<'a>>
    ensures { TellsLength len (seen_as told_of result) }
{
    match restored_line(alloc, len) {
        Ok(text) => Ok(Told {
            text: text.into_bytes(),
            status: status::DONE,
        }),
        Err(AllocError) => Err(Failure::Memory),
    }
}

#[tactic(auto, unfolding(crate::specs::UnpatchAnswers::restored_text))]
fn restored_line(alloc: Global, len: usize) -> Result<String, AllocError>
    ensures { IfOk result (λ line. string_bytes line ≡ restored_text len) }
{
    format!(in alloc; "restored {len}\n")
}
