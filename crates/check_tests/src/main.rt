//! The least address at which each rule of a sound image fails, and trampolines run beside their instructions: reads files and instructions,
//! and prints what is found.
//!
//! A line `least|CHANGES|REPORT` is a patched file with bytes laid over it, as `1005=91`, and its report, with a semicolon for each line's
//! end: of each rule the least address at which it fails is told, or `-`, and the verdict. A line `run|BYTES|EVENT|WORLD` is an instruction, the
//! event of its trampoline or `none`, and the world's answers: where the instruction leads in how many steps, whether the trampoline leads to the
//! same, how much of the world is left to each, and the first two numbers of the record.
//!
//! Stands on `image_check` and `parts_of_tests`; nothing stands on it.
#![tactic(auto)]

mod files;
mod judged;
mod runs;

use std::alloc::Global;
use std::io;

/// What is told of a line, if it is one of the two kinds.
fn told(alloc: Global, line: &str) -> Option<String> {
    match line.strip_prefix("least|") {
        Some(rest) => judged::told(alloc, rest),
        None => runs::told(alloc, line.strip_prefix("run|")?),
    }
}

fn main(rt: HostRuntime) -> io::Result<()> {
    for line in rt.lines(rt.alloc()) {
        let line = line?;
        match told(rt.alloc(), line.as_str()) {
            Some(text) => println!(rt; "{text}")?,
            None => println!(rt; "nothing is told: {line}")?,
        }
    }
    Ok(())
}
