//! Runs of trampolines beside runs of their instructions, each of a whole file.
//!
//! A file has an instruction at 0x401000, with HLT all around it, and its trampoline at 0x21000. It is run from the one and from the other
//! under one script, until an instruction ends the run or no code stands.
use crate::files::{Load, file_of, lines_of, put, put_number};
use cpu_state::script::Script;
use cpu_state::state::State;
use elf_read::elf::read_elf;
use elf_read::header::E_ENTRY;
use image_step::runner::Runner;
use list_text::action_reading::read_action_word;
use parts_of_tests::scripts::script_with;
use parts_of_tests::trampolines::trampoline_of;
use std::alloc::{AllocError, Global};

/// The private range, the trampoline's page and the text.
const LOADS: [Load; 3] = [
    (6, 0x1000, 0x2_0000, 0x1000),
    (5, 0x2000, 0x2_1000, 0x1000),
    (5, 0x3000, 0x40_1000, 0x1000),
];

/// The general registers at the start, of which rbx names 8 bytes below rsp.
const REGS: [u64; 16] = [
    0x0123_4567_89ab_cdef,
    2,
    3,
    0x60_0ef8,
    0x60_0f00,
    6,
    7,
    8,
    9,
    10,
    11,
    12,
    13,
    14,
    15,
    u64::MAX,
];

/// The file with an instruction and its trampoline, which begins at one of them.
fn image(alloc: Global, entry: u64, insn: &[u8], code: &[u8]) -> Result<Vec<u8>, AllocError> {
    let mut file = file_of(alloc, 0x4000, 64, &LOADS)?;
    put_number(&mut file, E_ENTRY, entry);
    put(&mut file, 0x2000, code);
    put(&mut file, 0x3000, &[0xF4; 32]);
    put(&mut file, 0x3000, insn);
    Ok(file)
}

/// The start, with these lines behind the registers: the stack and the world's answers.
fn script_of(alloc: Global, world: &str) -> Option<Script> {
    let mut script = script_with(alloc, 0, lines_of(alloc, world)?.as_str()).ok()?;
    script.regs = REGS;
    script.flags = 0x247;
    script.fs = 0x1000;
    script.gs = 0x2000;
    Some(script)
}

/// Whether both stacks hold the same from 0x600E00 on.
fn have_one_stack(a: &State, b: &State) -> bool {
    for index in 0..64_u64 {
        let addr = 0x60_0E00 + 8 * index;
        match (a.load(addr, 8), b.load(addr, 8)) {
            (Ok(x), Ok(y)) if x == y => {}
            _ => return false,
        }
    }
    true
}

/// Whether both states look alike, apart from the private range.
fn look_alike(a: &State, b: &State) -> bool {
    a.core() == b.core() && a.rip == b.rip && have_one_stack(a, b)
}

/// The first two numbers of the record.
fn record(state: &State) -> Option<(u64, u64)> {
    Some((state.load(0x2_0040, 8).ok()?, state.load(0x2_0048, 8).ok()?))
}

/// What both runs lead to: the instruction's in one step, the trampoline's in 22 at most.
fn seen(alloc: Global, insn: &[u8], code: &[u8], script: &Script) -> Option<String> {
    let original = image(alloc, 0x40_1000, insn, code).ok()?;
    let moved = image(alloc, 0x2_1000, insn, code).ok()?;
    let original = read_elf(alloc, &original).ok()?;
    let moved = read_elf(alloc, &moved).ok()?;
    let mut original = Runner::new(alloc, &original, script, &[]).ok()?;
    let mut moved = Runner::new(alloc, &moved, script, &[]).ok()?;
    let one = original.run(2);
    let some = moved.run(23);
    let alike = some.steps <= 22 && look_alike(original.state(), moved.state());
    let mut text = format!(in alloc; "{} {:x} {alike}", one.steps, original.state().rip).ok()?;
    write!(text, " {} {}", original.left(), moved.left()).ok()?;
    let (first, second) = record(original.state())?;
    write!(text, " {first:x} {second:x}").ok()?;
    let (first, second) = record(moved.state())?;
    write!(text, " {first:x} {second:x}").ok()?;
    Some(text)
}

/// What is told of a line; nothing where it isn't as it has to be, or the instruction has no trampoline.
pub fn told(alloc: Global, line: &str) -> Option<String> {
    let (digits, rest) = line.split_once('|')?;
    let (event, world) = rest.split_once('|')?;
    let insn = hex::decode(alloc, digits).ok()?;
    let action = read_action_word(event.as_bytes());
    let Some(Ok(code)) = trampoline_of(&insn, 0x40_1000, 0x2_1000, 1, action) else {
        return None;
    };
    seen(
        alloc,
        &insn,
        code.bytes.as_slice(),
        &script_of(alloc, world)?,
    )
}
