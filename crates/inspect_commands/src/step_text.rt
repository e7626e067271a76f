//! What `step` prints of a run.
ghost use Rattle.std.specs.Prelude.{◌≡◌, ◌<◌, ◌++◌, OnOk, IfOk};
ghost use Rattle.cpu_state.specs.Parts.{core_of};
ghost use Rattle.inspect_commands.specs.StepText.{count_line, value_line, register_lines, register_name, core_lines, deliveries_line, halted_address, halted_line, halted_name, stop_name, stop_address, quiet_line, step_text};
ghost use Rattle.inspect_commands.specs.StepTallies.{step_tally_of};

use cpu_alu::pack;
use cpu_state::state::State;
use cpu_step::stop::Stop;
use image_step::delivery::{Due, DueEnd, Halted};
use image_step::runner::Runner;
use std::alloc::{AllocError, Global};

/// Appends a line of a name and a decimal number.
pub fn push_count(
    alloc: Global,
    out: &mut Vec<u8>,
    word: &str,
    count: u64,
) -> Result<(), AllocError>
    ensures { OnOk result (out.new.items ≡ out.old.items ++ count_line word.now count) }
{
    let digits = format!(in alloc; "{count}")?;
    out.extend_from_slice(word.as_bytes())?;
    out.extend_from_slice(b" ")?;
    out.extend_from_slice(digits.as_bytes())?;
    out.extend_from_slice(b"\n")
}

/// Appends a line of a name and a number of sixteen hexadecimal digits.
#[tactic(auto, unfolding(image_step::specs::Spelling::hex16))]
fn push_value(alloc: Global, out: &mut Vec<u8>, word: &str, value: u64) -> Result<(), AllocError>
    ensures { OnOk result (out.new.items ≡ out.old.items ++ value_line word.now value) }
{
    let digits = hex::encode(alloc, value.to_be_bytes())?;
    out.extend_from_slice(word.as_bytes())?;
    out.extend_from_slice(b" ")?;
    out.extend_from_slice(digits.as_bytes())?;
    out.extend_from_slice(b"\n")
}

/// The name of a stop.
fn stop_name(stop: &Stop) -> &'static str
    ensures { result.now ≡ stop_name stop.now }
{
    match stop {
        Stop::NoByte { .. } => "NoByte",
        Stop::UnknownInsn { .. } => "UnknownInsn",
        Stop::Ending { .. } => "Ending",
        Stop::WorldEmpty { .. } => "WorldEmpty",
        Stop::WorldDiffers { .. } => "WorldDiffers",
    }
}

/// The address of a stop.
fn stop_address(stop: &Stop) -> u64
    ensures { result ≡ stop_address stop.now }
{
    match stop {
        Stop::NoByte { addr }
        | Stop::UnknownInsn { addr }
        | Stop::Ending { addr }
        | Stop::WorldEmpty { addr }
        | Stop::WorldDiffers { addr, .. } => *addr,
    }
}

/// The name of what a run goes no further for.
fn halted_name(halted: &Halted) -> &'static str
    ensures { result.now ≡ halted_name halted.now }
{
    match halted {
        Halted::NoStep(stop) => stop_name(stop),
        Halted::NoFit(_) => "NoFit",
    }
}

/// The address that it tells.
fn halted_address(halted: &Halted) -> u64
    ensures { result ≡ halted_address halted.now }
{
    match halted {
        Halted::NoStep(stop) => stop_address(stop),
        Halted::NoFit(unfit) => unfit.addr,
    }
}

/// Appends the line of what a run goes no further for.
fn push_halted(alloc: Global, out: &mut Vec<u8>, halted: &Option<Halted>) -> Result<(), AllocError>
    ensures { OnOk result (out.new.items ≡ out.old.items ++ halted_line halted.now) }
{
    match halted {
        None => out.extend_from_slice(b"stop none\n"),
        Some(halted) => {
            out.extend_from_slice(b"stop ")?;
            push_value(alloc, out, halted_name(halted), halted_address(halted))
        }
    }
}

/// Appends how many deliveries were made, of a script that has some.
fn push_deliveries(
    alloc: Global,
    out: &mut Vec<u8>,
    dues: &[Due],
    made: usize,
) -> Result<(), AllocError>
    ensures { OnOk result (out.new.items ≡ out.old.items ++ deliveries_line dues.now made) }
{
    if dues.is_empty() {
        Ok(())
    } else {
        push_count(alloc, out, "deliveries", made as u64)
    }
}

/// Appends whether the run is quiet.
pub fn push_quiet(out: &mut Vec<u8>, quiet: bool) -> Result<(), AllocError>
    ensures { OnOk result (out.new.items ≡ out.old.items ++ quiet_line quiet) }
{
    out.extend_from_slice(if quiet { b"quiet yes\n" } else { b"quiet no\n" })
}

/// The name of a register.
#[tactic(auto, unfolding(crate::specs::StepText::register_name))]
fn register_name(place: usize) -> &'static str
    requires { place < 16 }
    ensures { result.now ≡ register_name place }
{
    match place {
        0 => "rax",
        1 => "rcx",
        2 => "rdx",
        3 => "rbx",
        4 => "rsp",
        5 => "rbp",
        6 => "rsi",
        7 => "rdi",
        8 => "r8",
        9 => "r9",
        10 => "r10",
        11 => "r11",
        12 => "r12",
        13 => "r13",
        14 => "r14",
        _ => "r15",
    }
}

/// Appends a line a register.
fn push_registers(alloc: Global, out: &mut Vec<u8>, regs: &[u64; 16]) -> Result<(), AllocError>
    ensures { OnOk result (out.new.items ≡ out.old.items ++ register_lines 0 regs.now) }
{
    for (place, value) in regs.iter().enumerate() {
        push_value(alloc, out, register_name(place), *value)?;
    }
    Ok(())
}

/// Appends the registers, the flags word, and the bases of fs and gs.
fn push_core(alloc: Global, out: &mut Vec<u8>, state: &State) -> Result<(), AllocError>
    ensures { OnOk result (out.new.items ≡ out.old.items ++ core_lines (core_of state.now)) }
{
    push_registers(alloc, out, &state.regs)?;
    push_value(alloc, out, "flags", pack(state.flags))?;
    push_value(alloc, out, "fs", state.fs)?;
    push_value(alloc, out, "gs", state.gs)
}

/// What is printed of a runner's run with these deliveries, which ended so.
pub fn run_text(
    alloc: Global,
    runner: &Runner<'_>,
    dues: &[Due],
    end: &DueEnd,
) -> Result<Vec<u8>, AllocError>
    ensures { IfOk result (λ text. text.items
        ≡ step_text dues.now (step_tally_of runner.now end.now)) }
{
    let mut out = Vec::new(alloc);
    push_count(alloc, &mut out, "steps", end.steps)?;
    push_deliveries(alloc, &mut out, dues, end.made)?;
    push_halted(alloc, &mut out, &end.halted)?;
    push_quiet(&mut out, runner.quiet())?;
    push_count(alloc, &mut out, "outside", runner.outside())?;
    push_value(alloc, &mut out, "rip", runner.state().rip)?;
    push_core(alloc, &mut out, runner.state())?;
    push_count(alloc, &mut out, "world", runner.left())?;
    Ok(out)
}
