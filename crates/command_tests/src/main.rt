//! Commands over desks and sinks in memory whose calls fail: reads commands with the call that fails, and prints what they leave.
//!
//! A line is a command, a bar, and the call that fails, as `read 1`, `begin 2`, `put 3`, `end 1` or `sink 1`, of a desk or of the standard
//! output, counted from 1. The desk holds F, S and T of the row `cover_of_one_mov`, and for `unpatch` the outputs O and R of its patch. What is
//! printed comes first, then the status, and of O, R and N how many bytes each holds, and whether it is no front of the whole: of the patch,
//! of its report, of F. A line without a command has no word at all, not even the program's name.
//!
//! Stands on `commands`; nothing stands on it.
#![tactic(auto)]

mod commands_run;

use commands_run::told;
use std::io;

fn main(rt: HostRuntime) -> io::Result<()> {
    for line in rt.lines(rt.alloc()) {
        let line = line?;
        match told(rt.alloc(), line.as_str()) {
            Some(text) => println!(rt; "{text}")?,
            None => println!(rt; "no command: {line}")?,
        }
    }
    Ok(())
}
