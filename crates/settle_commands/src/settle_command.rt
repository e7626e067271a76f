//! The command `settle`.
ghost use Rattle.std.specs.Prelude.{◌≡◌, List, ℕ, None, IfOk, string_bytes};
ghost use Rattle.command_words.specs.Named.{settle_names_of};
ghost use Rattle.command_io.specs.Failing.{Gathers, seen_as, told_of};
ghost use Rattle.command_io.specs.Works.{Works, Carries};
ghost use Rattle.settle.specs.Settled.{settled};
ghost use Rattle.settle_commands.specs.SettleAnswers.{settle_inputs as inputs_of, settle_writing, settled_text};
ghost use Rattle.settle_commands.specs.Settling.{seen_file, settle_texts, SettlesText, TellsBase, WritesOut};

use command_io::ends::{Failure, Input, Told};
use command_io::failures::settle_failure;
use command_io::inputs::read_input;
use command_io::outputs::write_output;
use command_io::status;
use command_words::words::SettleNames;
use pun_base::desk::Desk;
use settle::settling::{SettledFile, settle};
use std::alloc::{AllocError, Global};

/// The bytes of the input.
#[derive(Drop)]
struct SettleInputs {
    file: Vec<u8>,
}

/// Reads FILE, and writes it settled.
pub fn settle_file<'a, D: Desk>(
    alloc: Global,
    names: &SettleNames<'a>,
    base: Option<u32>,
    desk: &mut D,
) -> Result<Told, Failure<'a>>
    requires { (D.seen desk.old).writing ≡ None }
    ensures { Carries (settle_writing (settle_names_of names.now) base) (D.seen desk.old)
        (D.seen desk.new) (seen_as told_of result) }
{
    match read_inputs(alloc, names, desk) {
        Ok(inputs) => settle_inputs(alloc, inputs, names, base, desk),
        Err(failure) => Err(failure),
    }
}

/// Reads FILE.
fn read_inputs<'a, D: Desk>(
    alloc: Global,
    names: &SettleNames<'a>,
    desk: &mut D,
) -> Result<SettleInputs, Failure<'a>>
    ensures { Gathers (inputs_of (settle_names_of names.now)) (D.seen desk.old)
        (D.seen desk.new) (seen_as settle_texts result) }
{
    let file = read_input(alloc, Input::File, names.file, desk)?;
    Ok(SettleInputs { file })
}

/// Settles the text, lets go of it, and writes what was settled.
fn settle_inputs<'a, D: Desk>(
    alloc: Global,
    inputs: SettleInputs,
    names: &SettleNames<'a>,
    base: Option<u32>,
    desk: &mut D,
) -> Result<Told, Failure<'a>>
    requires { (D.seen desk.old).writing ≡ None }
    ensures { Works (settle_writing (settle_names_of names.now) base) (settle_texts inputs)
        (D.seen desk.old) (D.seen desk.new) (seen_as told_of result) }
{
    let made = match settle_text(alloc, &inputs.file, base) {
        Ok(made) => made,
        Err(failure) => return Err(failure),
    };
    drop(inputs);
    write_out(alloc, made, names.out, desk)
}

/// Settles FILE.
fn settle_text<'a>(
    alloc: Global,
    file: &[u8],
    base: Option<u32>,
) -> Result<SettledFile, Failure<'a>>
    ensures { SettlesText base file.now (seen_as seen_file result) }
{
    match settle(alloc, file, base) {
        Ok(made) => Ok(made),
        Err(error) => Err(settle_failure(error)),
    }
}

/// Writes OUT, and answers the base.
fn write_out<'a, D: Desk>(
    alloc: Global,
    made: SettledFile,
    name: &'a str,
    desk: &mut D,
) -> Result<Told, Failure<'a>>
    requires { (D.seen desk.old).writing ≡ None }
    ensures { (file : List ℕ) → made.bytes.items ≡ settled made.base file
        → WritesOut name.entry.now (record { base = made.base; file = file }) (D.seen desk.old)
        (D.seen desk.new) (seen_as told_of result) }
{
    let SettledFile { base, bytes } = made;
    match write_output(alloc, bytes, name, desk) {
        Ok(()) => told_base(alloc, base),
        Err(failure) => Err(failure),
    }
}

/// The line with a base.
fn told_base<'a>(alloc: Global, base: u32) -> Result<Told, Failure<'a>>
    ensures { TellsBase base (seen_as told_of result) }
{
    match settled_line(alloc, base) {
        Ok(text) => Ok(Told {
            text: text.into_bytes(),
            status: status::DONE,
        }),
        Err(AllocError) => Err(Failure::Memory),
    }
}

#[tactic(auto, unfolding(crate::specs::SettleAnswers::settled_text, patch_report::specs::Spelling::hex8))]
fn settled_line(alloc: Global, base: u32) -> Result<String, AllocError>
    ensures { IfOk result (λ line. string_bytes line ≡ settled_text base) }
{
    let base = hex::encode(alloc, base.to_be_bytes())?;
    format!(in alloc; "settled {base}\n")
}
