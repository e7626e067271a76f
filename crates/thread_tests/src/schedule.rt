//! Runs by schedules, and what they leave.
use crate::guest::{file_of, scripts_of, starts_of};
use cpu_alu::pack;
use cpu_state::memory::NoByte;
use cpu_state::script::Script;
use elf_read::elf::{Elf, read_elf};
use start_entries::starts::ascend;
use std::alloc::Global;
use thread_runs::runner::ThreadRunner;
use thread_runs::starting::only_first_has_regions;

/// The most steps of a schedule.
const MOST: usize = 1000;

/// The numbers of a schedule.
fn numbers(alloc: Global, digits: &str) -> Option<Vec<u32>> {
    let mut schedule = Vec::new(alloc);
    for digit in digits.bytes().filter(|digit| *digit != b'-') {
        schedule.push(u32::from(digit.wrapping_sub(b'0'))).ok()?;
    }
    Some(schedule)
}

/// The number of eight bytes at an address, or the address at which one is missing.
fn push_word(text: &mut String, runner: &ThreadRunner, addr: u64) -> Option<()> {
    match runner.load(addr, 8) {
        Ok(word) => write!(text, " {word:x}").ok(),
        Err(NoByte { addr }) => write!(text, " -{addr:x}").ok(),
    }
}

/// Of a thread the instruction pointer, rax, rbx, rsp, the flags word and what an event saves below the stack.
fn push_thread(text: &mut String, runner: &ThreadRunner, number: u32) -> Option<()> {
    let Some(state) = runner.thread(number) else {
        return text.push_str(" | none").ok();
    };
    write!(text, " | {:x} {:x}", state.rip, state.regs[0]).ok()?;
    write!(text, " {:x} {:x}", state.regs[3], state.regs[4]).ok()?;
    write!(text, " {:x}", pack(state.flags)).ok()?;
    push_word(text, runner, state.regs[4].wrapping_sub(136))
}

/// What a schedule ends with, and the runner behind it.
fn push_end(
    alloc: Global,
    text: &mut String,
    runner: &mut ThreadRunner,
    digits: &str,
) -> Option<()> {
    let schedule = numbers(alloc, digits)?;
    if schedule.len() > MOST {
        return None;
    }
    match runner.run(&schedule) {
        Ok(()) => text.push_str("run").ok(),
        Err(error) => write!(text, "{error}").ok(),
    }
}

/// What schedules leave of a guest: of each its end, the threads, and the numbers at 0x20040, 0x20080 and 0x401000.
fn left(
    alloc: Global,
    elf: &Elf,
    starts: &[u32],
    scripts: &[Script],
    schedules: &str,
) -> Option<String> {
    if !only_first_has_regions(scripts) || !ascend(starts) || scripts.len() > 4 {
        return None;
    }
    let mut runner = match ThreadRunner::new(alloc, elf, scripts, starts) {
        Ok(runner) => runner,
        Err(error) => return format!(in alloc; "{error}").ok(),
    };
    let mut text = String::new(alloc);
    for digits in schedules.split(' ') {
        if !text.is_empty() {
            text.push('\n').ok()?;
        }
        push_end(alloc, &mut text, &mut runner, digits)?;
        for number in 0..=scripts.len() {
            push_thread(&mut text, &runner, number as u32)?;
        }
        text.push_str(" |").ok()?;
        for addr in [0x2_0040, 0x2_0080, 0x40_1000] {
            push_word(&mut text, &runner, addr)?;
        }
    }
    Some(text)
}

/// What is told of a guest's schedules; nothing where a line isn't as it has to be.
pub fn told(alloc: Global, guest: &str, line: &str) -> Option<String> {
    let (text, rest) = guest.split_once('|')?;
    let (starts, world) = rest.split_once('|')?;
    let (threads, schedules) = line.split_once(' ')?;
    let file = file_of(alloc, text)?;
    let elf = read_elf(alloc, &file).ok()?;
    let starts = starts_of(alloc, starts)?;
    let scripts = scripts_of(alloc, usize::from_str_radix(threads, 10).ok()?, world)?;
    left(alloc, &elf, &starts, &scripts, schedules)
}
