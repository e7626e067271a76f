//! Patches static x86-64 executables, checks what was patched, shows runs, and tries all this on guests of its own, from the
//! command line.
//!
//! Stands on `commands` and `real_files`; it is the program, with the words of the system, its files and its standard output.
#![tactic(auto)]

ghost use Rattle.std.specs.Prelude.{◌≡◌, None, IfOk, IfErr, OnErr, map, string_bytes};
ghost use Rattle.std.specs.IoError.{error_kind};
ghost use Rattle.command_words.specs.Words.{command_of};
ghost use Rattle.commands.specs.Commands.{HasCause, Does};

use command_io::status;
use commands::run::run;
use pun_base::desk::Desk;
use pun_base::sink::Sink;
use real_files::file_desk::FileDesk;
use real_files::standard_output::StdSink;
use real_files::streams::is_out_of_memory;
use std::alloc::Global;
use std::io::ErrorKind;
use std::process::ExitCode;
use std::rt::Env;
use std::{env, io};

/// The program's words, beginning with its name. It has no clause: the library's call for them tells nothing of what the system gave.
fn collect_words<R: Env + AllocGlobal>(rt: &R) -> io::Result<Vec<String>> {
    Ok(env::args(rt)?.collect(rt.alloc())?)
}

/// Does what the words say, and answers the status.
///
/// Where the words can't be had for want of memory, that is the answer (6). Otherwise a word isn't UTF-8,
/// which is usage (2). Nothing is read, written or printed in either case.
fn run_words<D: Desk, K: Sink>(
    alloc: Global,
    words: io::Result<Vec<String>>,
    desk: &mut D,
    out: &mut K,
) -> u8
    requires { (D.seen desk.old).writing ≡ None }
    ensures cause { IfOk words (λ ws. HasCause (command_of (map string_bytes ws.items))
        (D.seen desk.old) (D.seen desk.new) (K.seen out.old) (K.seen out.new) result) }
    ensures does { IfOk words (λ ws. Does (command_of (map string_bytes ws.items))
        (D.seen desk.old) (D.seen desk.new) (K.seen out.old) (K.seen out.new) result) }
    ensures memory { IfErr words (λ e. error_kind e ≡ ErrorKind.OutOfMemory → result ≡ 6) }
    ensures usage { IfErr words (λ e. (error_kind e ≡ ErrorKind.OutOfMemory → ⊥) → result ≡ 2) }
    ensures desk { OnErr words (D.seen desk.new ≡ D.seen desk.old) }
    ensures silent { OnErr words (K.seen out.new ≡ K.seen out.old) }
{
    match words {
        Ok(words) => run(alloc, &words, desk, out),
        Err(error) if is_out_of_memory(&error) => status::OUT_OF_MEMORY,
        Err(_) => status::USAGE,
    }
}

/// The program on real files and the real standard output. It has no clause: what `run_words` promises is said of the desk and the
/// sink, which are made here.
fn main(rt: HostRuntime) -> ExitCode {
    let words = collect_words(&rt);
    let mut desk = FileDesk::new(rt.alloc(), &rt);
    let mut out = StdSink::new(io::writer(&rt));
    ExitCode::from(run_words(rt.alloc(), words, &mut desk, &mut out))
}
