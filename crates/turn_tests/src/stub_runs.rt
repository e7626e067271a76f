//! Runs of the stub by lists of answers, in the file of one displaced instruction, and in files of many runs of pages.
ghost use Rattle.std.specs.Prelude.{◌≡◌, ◌<◌, [], IfOk, IsTrue};
ghost use Rattle.cpu_state.specs.Parts.{core_of};
ghost use Rattle.cpu_state.specs.Processor.{IsProcessorCore};
ghost use Rattle.cpu_state.specs.Regions.{cell_at};
ghost use Rattle.elf_read.specs.Entries.{entry_of};
ghost use Rattle.elf_read.specs.Image.{image_of};
ghost use Rattle.pun_base.specs.Memory.{joined};
ghost use Rattle.image_runs.specs.Starting.{regions_memory};
ghost use Rattle.loader_form.specs.Kernel.{IsAnswer};
ghost use Rattle.loader_form.specs.Answers.{AreAnswers};

use crate::loader_files::loaded;
use cpu_alu::unpack;
use cpu_state::processor::processor_core;
use cpu_state::state::State;
use elf_read::elf::{Elf, read_elf, read_written};
use elf_read::segment::{PF_R, PF_X};
use elf_read::writing::{file_with, load_entry, plain_file};
use image_step::runner_error::RunnerError;
use image_step::start_memory::memory_of;
use loader_form::kernel::{MapAnswer, StubEnd};
use loader_form::stub_run::stub_run;
use pun_base::memory_desk::MemDesk;
use std::alloc::{AllocError, Global};

/// A number of its own in each register.
const REGS: [u64; 16] = [
    0x101, 0x102, 0x103, 0x104, 0x105, 0x106, 0x107, 0x108, 0x109, 0x10A, 0x10B, 0x10C, 0x10D,
    0x10E, 0x10F, 0x110,
];

/// CF, ZF, IF and OF.
const FLAGS: u64 = 0xA43;

/// A state in which a file starts.
fn start_state(alloc: Global, file: &Elf<'_>) -> Result<State, RunnerError>
    ensures core { IfOk result (λ s. IsProcessorCore (core_of s)) }
    ensures rip { IfOk result (λ s. s.rip ≡ entry_of file.now.bytes) }
    ensures memory { IfOk result (λ s. cell_at s.mem
        ≡ joined (image_of file.now.bytes) (regions_memory [])) }
{
    let mem = memory_of(alloc, file, &[])?;
    let state = State {
        regs: REGS,
        rip: file.entry(),
        flags: unpack(FLAGS),
        fs: 0x201,
        gs: 0x202,
        mem,
    };
    processor_core(&state);
    Ok(state)
}

/// Whether a kernel gives such an answer.
fn is_answer(answer: MapAnswer) -> bool
    ensures { IsTrue result → IsAnswer answer }
{
    match answer {
        MapAnswer::Ok(_) => true,
        MapAnswer::Failed(error) => 1 <= error && error <= 4095,
    }
}

/// Whether a kernel gives such answers.
fn are_answers(answers: &[MapAnswer]) -> bool
    ensures { IsTrue result → AreAnswers answers.now }
{
    match answers.split_first() {
        Some((first, rest)) => is_answer(*first) && are_answers(rest),
        None => true,
    }
}

/// A program: its file, its instructions, and those that are displaced.
#[derive(Drop)]
struct Program {
    file: Vec<u8>,
    starts: Vec<u32>,
    sites: Vec<u32>,
    /// The pages for their code.
    pages: Vec<u32>,
}

/// How a run ended, and what is so there.
#[derive(Drop)]
struct Seen {
    end: StubEnd,
    state: State,
    /// Where the stub begins.
    stub: u32,
    /// How many of the pages for code can be executed.
    mapped: usize,
    /// How many from the first one on can.
    front: usize,
}

/// Whether all of a page can be executed.
fn is_mapped(state: &State, page: u32) -> bool {
    state.mem.lacking(1, u64::from(page), 4096).is_none()
}

/// How many of these pages can be executed.
fn count_mapped(state: &State, pages: &[u32]) -> usize {
    pages.iter().filter(|page| is_mapped(state, **page)).count()
}

/// How many of them, from the first on.
fn count_front(state: &State, pages: &[u32]) -> usize {
    match pages.iter().position(|page| !is_mapped(state, *page)) {
        Some(at) => at,
        None => pages.len(),
    }
}

/// The run by these answers, from the start of a program's file.
fn run_by(alloc: Global, program: &Program, answers: &[MapAnswer]) -> Option<Seen> {
    let file = program.file.as_slice();
    let mut desk = MemDesk::new(alloc, &[]).ok()?;
    let loading = loaded(alloc, file, &program.starts, &program.sites, &[], &mut desk);
    let Some(found) = loading else {
        return None;
    };
    let Ok(places) = found else {
        return None;
    };
    let Ok(original) = read_elf(alloc, file) else {
        return None;
    };
    let entry = original.entry();
    let Some(written) = desk.get("O") else {
        return None;
    };
    let Ok(elf) = read_written(alloc, written) else {
        return None;
    };
    let Ok(mut state) = start_state(alloc, &elf) else {
        return None;
    };
    if !are_answers(answers) {
        return None;
    }
    let end = stub_run(alloc, &elf, entry, &mut state, answers).ok()?;
    let mapped = count_mapped(&state, &program.pages);
    let front = count_front(&state, &program.pages);
    Some(Seen {
        end,
        state,
        stub: places.0.lo,
        mapped,
        front,
    })
}

/// The program of one displaced instruction, `mov eax, 60`, whose file names this entry.
fn one_mov_from(alloc: Global, entry: u64) -> Result<Program, AllocError> {
    let segment = load_entry(PF_R | PF_X, 0x1000, 0x40_1000, 7);
    Ok(Program {
        file: file_with(
            alloc,
            entry,
            &[segment],
            0x1000,
            &[0xB8, 0x3C, 0, 0, 0, 0x90, 0x90],
        )?,
        starts: vec![in alloc; 0x40_1000, 0x40_1005, 0x40_1006]?,
        sites: vec![in alloc; 0x40_1000]?,
        pages: vec![in alloc; 0x2_1000]?,
    })
}

/// The opcodes of add, push and mov with an operand of four bytes.
const OPCODES: [u8; 3] = [0x05, 0x68, 0xB8];

/// mov eax, ecx, which is displaced; one of these opcodes with its operand, in which the jump's last three bytes stand; and a NOP of
/// nine bytes.
fn push_unit(text: &mut Vec<u8>, number: u32) -> Result<(), AllocError>
    requires { number < 65536 }
{
    let opcode = OPCODES[number as usize % 3];
    let [low, _, _, _] = (number / 3).to_le_bytes();
    let high = 1 + (number / 768) as u8;
    text.extend_from_slice(&[0x89, 0xC8, opcode, low, high, 0, 0])?;
    text.extend_from_slice(&[0x66, 0x0F, 0x1F, 0x84, 0, 0, 0, 0, 0])?;
    Ok(())
}

/// The page to which the jump leads: 256 addresses have the jump's last three bytes.
fn page_of(number: u32) -> u32
    requires { number < 65536 }
{
    let opcode = OPCODES[number as usize % 3];
    let high = 1 + number / 768;
    let distance = high * 0x100_0000 + number / 3 % 256 * 0x1_0000 + u32::from(opcode) * 0x100;
    let place = 0x40_1010 + 16 * number + distance;
    place / 0x1000 * 0x1000
}

/// A program of so many displaced instructions, each of which has its code on a page of its own, far from the others.
fn far_program(alloc: Global, runs: u32) -> Result<Program, AllocError>
    requires { runs < 65536 }
{
    let mut text = vec![in alloc; 0x90; 11]?;
    let mut starts = Vec::new(alloc);
    let mut sites = Vec::new(alloc);
    let mut pages = Vec::new(alloc);
    for number in 0..runs {
        push_unit(&mut text, number)?;
        let site = 0x40_100B + 16 * number;
        starts.push(site)?;
        starts.push(site + 2)?;
        sites.push(site)?;
        pages.push(page_of(number))?;
    }
    Ok(Program {
        file: plain_file(alloc, &text)?,
        starts,
        sites,
        pages,
    })
}

/// The answers of a kernel as words: numbers, and errors with a minus sign, with commas between them; `-` where there is none.
fn answers_of(alloc: Global, words: &str) -> Option<Vec<MapAnswer>> {
    let mut answers = Vec::new(alloc);
    for word in words.split(',').filter(|word| *word != "-") {
        answers
            .push(match word.strip_prefix('-') {
                Some(error) => MapAnswer::Failed(u16::from_str_radix(error, 10).ok()?),
                None => MapAnswer::Ok(u32::from_str_radix(word, 10).ok()?),
            })
            .ok()?;
    }
    Some(answers)
}

/// How the run ended, and after how many steps.
fn push_end(text: &mut String, end: &StubEnd) -> Option<()> {
    match end {
        StubEnd::Entry { steps } => write!(text, "entry {steps}").ok(),
        StubEnd::Exit { steps } => write!(text, "exit {steps}").ok(),
        StubEnd::Short { steps } => write!(text, "short {steps}").ok(),
    }
}

/// The end, where the run stands, whether the state is that of the start, where the stub begins, how many pages for code can be executed, and
/// how many from the first one on; where the stub ends the program, rax and rdi.
fn seen_text(alloc: Global, seen: &Seen) -> Option<String> {
    let mut text = String::new(alloc);
    push_end(&mut text, &seen.end)?;
    let state = &seen.state;
    let is_same = state.regs == REGS
        && state.flags == unpack(FLAGS)
        && state.fs == 0x201
        && state.gs == 0x202;
    write!(text, " {:x} {is_same}", state.rip).ok()?;
    write!(text, " {:x} {} {}", seen.stub, seen.mapped, seen.front).ok()?;
    if let StubEnd::Exit { .. } = seen.end {
        write!(text, " {} {}", state.regs[0], state.regs[7]).ok()?;
    }
    Some(text)
}

/// What is told of a stub: of the program of one displaced instruction with this entry, or of one with so many runs.
pub fn told(alloc: Global, words: &[&str]) -> Option<String> {
    let [entry, runs, answers] = words else {
        return None;
    };
    let runs = u32::from_str_radix(runs, 10).ok()?;
    let program = if runs == 0 {
        one_mov_from(alloc, u64::from_str_radix(entry, 16).ok()?).ok()?
    } else if runs < 65_536 {
        far_program(alloc, runs).ok()?
    } else {
        return None;
    };
    let answers = answers_of(alloc, answers)?;
    seen_text(alloc, &run_by(alloc, &program, &answers)?)
}
