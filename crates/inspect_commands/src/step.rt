//! The command `step`.
ghost use Rattle.std.specs.Prelude.{◌≡◌, ◌≤◌, length, IfOk};
ghost use Rattle.command_words.specs.Named.{step_names_of};
ghost use Rattle.command_io.specs.Failing.{Gathers, Answers, Judges, seen_as, told_of};
ghost use Rattle.inspect_commands.specs.StepText.{step_status};
ghost use Rattle.inspect_commands.specs.StepAnswers.{step_inputs, IsStepStatus, StepRefuses, StepTells};
ghost use Rattle.inspect_commands.specs.Stepping.{step_texts};
ghost use Rattle.command_words.specs.Words.{most_steps};

use crate::step_text::run_text;
use command_io::ends::{Failure, Input, Told};
use command_io::failures::{file_failure, list_failure, runner_failure, script_failure};
use command_io::inputs::read_input;
use command_io::status;
use command_words::words::StepNames;
use elf_read::elf::{Elf, read_written};
use image_step::delivery::Halted;
use image_step::runner::Runner;
use image_step::scenario_reading::read_scenario;
use list_text::lists::read_starts;
use pun_base::desk::Desk;
use std::alloc::Global;

/// The bytes of the inputs.
#[derive(Drop)]
struct StepInputs {
    file: Vec<u8>,
    starts: Vec<u8>,
    world: Vec<u8>,
}

/// Makes at most `count` steps of FILE under the script of WORLD, and each of its deliveries that is due before one of them.
pub fn step<'a, D: Desk>(
    alloc: Global,
    names: &StepNames<'a>,
    count: u64,
    desk: &mut D,
) -> Result<Told, Failure<'a>>
    requires { count ≤ most_steps }
    ensures { Answers (step_inputs (step_names_of names.now)) StepRefuses (StepTells count)
        IsStepStatus (D.seen desk.old) (D.seen desk.new) (seen_as told_of result) }
{
    match read_inputs(alloc, names, desk) {
        Ok(inputs) => run_inputs(alloc, &inputs, count),
        Err(failure) => Err(failure),
    }
}

/// Reads FILE, STARTS and WORLD in this order, until one can't be read.
fn read_inputs<'a, D: Desk>(
    alloc: Global,
    names: &StepNames<'a>,
    desk: &mut D,
) -> Result<StepInputs, Failure<'a>>
    ensures gathers { Gathers (step_inputs (step_names_of names.now)) (D.seen desk.old)
        (D.seen desk.new) (seen_as step_texts result) }
    ensures few { IfOk result (λ x. length x.world.items ≤ 268435456) }
{
    let file = read_input(alloc, Input::File, names.file, desk)?;
    let starts = read_input(alloc, Input::Starts, names.starts, desk)?;
    let world = read_input(alloc, Input::World, names.world, desk)?;
    Ok(StepInputs {
        file,
        starts,
        world,
    })
}

/// Judges STARTS, WORLD and FILE in this order, and makes the steps and deliveries.
#[tactic(auto, using(crate::proofs::StepVerdicts::file_refused, crate::proofs::StepVerdicts::region_refused))]
fn run_inputs<'a>(alloc: Global, inputs: &StepInputs, count: u64) -> Result<Told, Failure<'a>>
    requires few_bytes { length inputs.now.world.items ≤ 268435456 }
    requires few_steps { count ≤ most_steps }
    ensures { Judges StepRefuses (StepTells count) (step_texts inputs.now)
        (seen_as told_of result) }
{
    let starts = match read_starts(alloc, &inputs.starts) {
        Ok(starts) => starts,
        Err(error) => return Err(list_failure(Input::Starts, error)),
    };
    let scenario = match read_scenario(alloc, &inputs.world) {
        Ok(scenario) => scenario,
        Err(error) => return Err(script_failure(error)),
    };
    let elf = match read_written(alloc, &inputs.file) {
        Ok(elf) => elf,
        Err(error) => return Err(file_failure(Input::File, error)),
    };
    let mut runner = match Runner::new(alloc, &elf, &scenario.script, &starts) {
        Ok(runner) => runner,
        Err(error) => return Err(runner_failure(error)),
    };
    let end = runner.run_due(&scenario.dues, count);
    match run_text(alloc, &runner, &scenario.dues, &end) {
        Ok(text) => Ok(Told {
            text,
            status: step_status(&end.halted),
        }),
        Err(_) => Err(Failure::Memory),
    }
}

/// Whether all steps were made, as a status.
fn step_status(halted: &Option<Halted>) -> u8
    ensures { result ≡ step_status halted.now }
{
    match halted {
        None => status::DONE,
        Some(_) => status::FEWER,
    }
}
