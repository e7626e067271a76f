//! What each scheme answers at a turn, and how a stub's run ends: reads turns and stubs, and prints what is found.
//!
//! A line `turn WORDS` is a turn as `schemes/given.rt` has it, and `threads WORDS` one of a guest whose memory threads share: a digit is told for
//! each start, 1 where it shares bytes, and what B1, B2, T1, T2 and T3 answer, if the site shares none. A line `stub ENTRY RUNS ANSWERS` is a file
//! in the loader form and what the kernel answers to its calls: how the stub's run ends is told, and in which state.
//!
//! Stands on `site_turns`, `image_step` and `loader_form`; nothing stands on it.
#![tactic(auto)]

mod loader_files;
mod schemes;
mod stub_runs;

use std::alloc::Global;
use std::io;

/// What is told of a line, if it is a turn or a stub.
fn told(alloc: Global, line: &str) -> Option<String> {
    let words: Vec<&str> = line.split(' ').collect(alloc).ok()?;
    let (kind, words) = words.split_first()?;
    if *kind == "stub" {
        return stub_runs::told(alloc, words);
    }
    schemes::told(alloc, words, *kind == "threads")
}

fn main(rt: HostRuntime) -> io::Result<()> {
    for line in rt.lines(rt.alloc()) {
        let line = line?;
        match told(rt.alloc(), line.as_str()) {
            Some(text) => println!(rt; "{text}")?,
            None => println!(rt; "nothing is told: {line}")?,
        }
    }
    Ok(())
}
