//! Guests of several threads by schedules: reads guests and schedules, and prints what is left of each.
//!
//! A line with two bars, `TEXT|STARTS|WORLD`, is a guest: the bytes of its text at 0x401000, maybe a stroke and code further on; its starts
//! with commas between them; and the lines of the first thread's world behind its values, each with a semicolon for the line's end. Any other
//! line, `THREADS SCHEDULE..`, runs the last guest with so many threads by schedules, one after the other: a digit is the number of a thread,
//! and `-` is no step. A line `code BYTES` is an instruction at 0x401000: its trampoline at 0x21000 is printed, as one without an event.
//!
//! Stands on `thread_runs` and `parts_of_tests`; nothing stands on it. `bench/thread_schedules.py` makes `stdin` and `stdout`.
#![tactic(auto)]

mod guest;
mod plain_code;
mod schedule;

use std::alloc::Global;
use std::io;

/// What is told of an instruction, or of schedules of a guest.
fn told(alloc: Global, guest: &str, line: &str) -> Option<String> {
    match line.strip_prefix("code ") {
        Some(digits) => plain_code::told(alloc, digits),
        None => schedule::told(alloc, guest, line),
    }
}

fn main(rt: HostRuntime) -> io::Result<()> {
    let mut guest = String::new(rt.alloc());
    for line in rt.lines(rt.alloc()) {
        let line = line?;
        if line.as_str().contains('|') {
            guest = line;
            continue;
        }
        match told(rt.alloc(), guest.as_str(), line.as_str()) {
            Some(text) => println!(rt; "{text}")?,
            None => println!(rt; "no schedule: {line}")?,
        }
    }
    Ok(())
}
