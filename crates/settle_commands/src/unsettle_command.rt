//! The command `unsettle`.
ghost use Rattle.std.specs.Prelude.{◌≡◌, None, IfOk, string_bytes};
ghost use Rattle.command_words.specs.Named.{unsettle_names_of};
ghost use Rattle.command_io.specs.Failing.{Gathers, seen_as, told_of};
ghost use Rattle.command_io.specs.Works.{Works, Carries};
ghost use Rattle.settle_commands.specs.UnsettleAnswers.{unsettle_inputs as inputs_of, unsettle_writing, unsettled_text};
ghost use Rattle.settle_commands.specs.Settling.{unsettle_texts, UnsettlesText, TellsCount, WritesNew};

use command_io::ends::{Failure, Input, Told};
use command_io::failures::unsettle_failure;
use command_io::inputs::read_input;
use command_io::outputs::write_output;
use command_io::status;
use command_words::words::UnsettleNames;
use pun_base::desk::Desk;
use settle::unsettling::unsettle;
use std::alloc::{AllocError, Global};

/// The bytes of the input.
#[derive(Drop)]
struct UnsettleInputs {
    file: Vec<u8>,
}

/// Reads FILE, and writes what was settled.
pub fn unsettle_file<'a, D: Desk>(
    alloc: Global,
    names: &UnsettleNames<'a>,
    desk: &mut D,
) -> Result<Told, Failure<'a>>
    requires { (D.seen desk.old).writing ≡ None }
    ensures { Carries (unsettle_writing (unsettle_names_of names.now)) (D.seen desk.old)
        (D.seen desk.new) (seen_as told_of result) }
{
    match read_inputs(alloc, names, desk) {
        Ok(inputs) => unsettle_inputs(alloc, inputs, names, desk),
        Err(failure) => Err(failure),
    }
}

/// Reads FILE.
fn read_inputs<'a, D: Desk>(
    alloc: Global,
    names: &UnsettleNames<'a>,
    desk: &mut D,
) -> Result<UnsettleInputs, Failure<'a>>
    ensures { Gathers (inputs_of (unsettle_names_of names.now)) (D.seen desk.old)
        (D.seen desk.new) (seen_as unsettle_texts result) }
{
    let file = read_input(alloc, Input::File, names.file, desk)?;
    Ok(UnsettleInputs { file })
}

/// Unsettles the text, lets go of it, and writes what is given back.
fn unsettle_inputs<'a, D: Desk>(
    alloc: Global,
    inputs: UnsettleInputs,
    names: &UnsettleNames<'a>,
    desk: &mut D,
) -> Result<Told, Failure<'a>>
    requires { (D.seen desk.old).writing ≡ None }
    ensures { Works (unsettle_writing (unsettle_names_of names.now)) (unsettle_texts inputs)
        (D.seen desk.old) (D.seen desk.new) (seen_as told_of result) }
{
    let bytes = match unsettle_text(alloc, &inputs.file) {
        Ok(bytes) => bytes,
        Err(failure) => return Err(failure),
    };
    drop(inputs);
    write_new(alloc, bytes, names.new, desk)
}

/// Gives back what was settled.
fn unsettle_text<'a>(alloc: Global, out: &[u8]) -> Result<Vec<u8>, Failure<'a>>
    ensures { UnsettlesText out.now (seen_as (λ v. v.items) result) }
{
    match unsettle(alloc, out) {
        Ok(bytes) => Ok(bytes),
        Err(error) => Err(unsettle_failure(error)),
    }
}

/// Writes NEW, and answers its length.
fn write_new<'a, D: Desk>(
    alloc: Global,
    bytes: Vec<u8>,
    name: &'a str,
    desk: &mut D,
) -> Result<Told, Failure<'a>>
    requires { (D.seen desk.old).writing ≡ None }
    ensures { WritesNew name.entry.now bytes.items (D.seen desk.old) (D.seen desk.new)
        (seen_as told_of result) }
{
    let len = bytes.len();
    match write_output(alloc, bytes, name, desk) {
        Ok(()) => told_length(alloc, len),
        Err(failure) => Err(failure),
    }
}

/// The line with a length.
fn told_length<'a>(alloc: Global, len: usize) -> Result<Told, Failure<'a>>
    ensures { TellsCount len (seen_as told_of result) }
{
    match unsettled_line(alloc, len) {
        Ok(text) => Ok(Told {
            text: text.into_bytes(),
            status: status::DONE,
        }),
        Err(AllocError) => Err(Failure::Memory),
    }
}

#[tactic(auto, unfolding(crate::specs::UnsettleAnswers::unsettled_text))]
fn unsettled_line(alloc: Global, len: usize) -> Result<String, AllocError>
    ensures { IfOk result (λ line. string_bytes line ≡ unsettled_text len) }
{
    format!(in alloc; "unsettled {len}\n")
}
