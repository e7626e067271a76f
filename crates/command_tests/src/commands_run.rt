//! A plain file in memory, and how a command ends over it.
ghost use Rattle.std.specs.Prelude.{◌≡◌, None, IfOk};

use commands::run::run;
use elf_read::writing::plain_file;
use pun_base::memory_desk::{DeskCall, MemDesk};
use pun_base::memory_sink::MemSink;
use std::alloc::{AllocError, Global};

/// A desk that holds the inputs of a patch of `mov eax, 60; nop; nop`, and whose listed calls fail.
fn desk_with(alloc: Global, fails: &[(DeskCall, u64)]) -> Result<MemDesk, AllocError>
    ensures { IfOk result (λ desk. desk.writing ≡ None) }
{
    let mut desk = MemDesk::new(alloc, fails)?;
    let file = plain_file(alloc, &[0xb8, 0x3c, 0, 0, 0, 0x90, 0x90])?;
    desk.add(alloc, "F", &file)?;
    desk.add(alloc, "S", b"401000\n401005\n401006\n")?;
    desk.add(alloc, "T", b"401000\n")?;
    Ok(desk)
}

/// The same with a patched file and its report.
fn desk_of_patch(
    alloc: Global,
    fails: &[(DeskCall, u64)],
    patched: &[u8],
    report: &[u8],
) -> Result<MemDesk, AllocError>
    ensures { IfOk result (λ desk. desk.writing ≡ None) }
{
    let mut desk = desk_with(alloc, fails)?;
    desk.add(alloc, "O", patched)?;
    desk.add(alloc, "R", report)?;
    Ok(desk)
}

/// The words of a command behind the program's name, or no words.
fn words_of(alloc: Global, command: &str) -> Result<Vec<String>, AllocError> {
    let mut words = Vec::new(alloc);
    if command.is_empty() {
        return Ok(words);
    }
    words.push(String::from_str(alloc, "e9tool")?)?;
    for word in command.split(' ') {
        words.push(String::from_str(alloc, word)?)?;
    }
    Ok(words)
}

/// How a command ended: its status, what it printed and what it left.
#[derive(Drop)]
struct Ending {
    status: u8,
    sink: MemSink,
    desk: MemDesk,
}

/// Runs a command. The `fail_at`-th write to standard output fails.
fn run_command(alloc: Global, words: &[String], desk: MemDesk, fail_at: Option<u64>) -> Ending
    requires { desk.writing ≡ None }
{
    let mut desk = desk;
    let mut sink = MemSink::new(alloc, fail_at);
    let status = run(alloc, words, &mut desk, &mut sink);
    Ending { status, sink, desk }
}

/// The kind of a desk's call.
fn call_of(word: &str) -> Option<DeskCall> {
    if word == "read" {
        Some(DeskCall::Read)
    } else if word == "begin" {
        Some(DeskCall::Begin)
    } else if word == "put" {
        Some(DeskCall::Put)
    } else if word == "end" {
        Some(DeskCall::End)
    } else {
        None
    }
}

/// The desk after a patch of which no call fails.
fn patched(alloc: Global) -> Option<MemDesk> {
    let words = words_of(alloc, "patch F S T cover O R").ok()?;
    let desk = desk_with(alloc, &[]).ok()?;
    Some(run_command(alloc, &words, desk, None).desk)
}

/// How a command ends where a call of the desk fails.
fn with_failing_call(
    alloc: Global,
    command: &str,
    call: DeskCall,
    n: u64,
    whole: &MemDesk,
) -> Option<Ending> {
    let words = words_of(alloc, command).ok()?;
    let desk = if command.starts_with("unpatch") {
        desk_of_patch(alloc, &[(call, n)], whole.get("O")?, whole.get("R")?).ok()?
    } else {
        desk_with(alloc, &[(call, n)]).ok()?
    };
    Some(run_command(alloc, &words, desk, None))
}

/// How it ends where a write to standard output fails.
fn with_failing_print(alloc: Global, command: &str, n: u64, whole: &MemDesk) -> Option<Ending> {
    let words = words_of(alloc, command).ok()?;
    let desk = if command.starts_with("unpatch") {
        desk_of_patch(alloc, &[], whole.get("O")?, whole.get("R")?).ok()?
    } else {
        desk_with(alloc, &[]).ok()?
    };
    Some(run_command(alloc, &words, desk, Some(n)))
}

/// What a file holds beside the whole.
fn push_held(
    text: &mut String,
    name: &str,
    held: Option<&[u8]>,
    whole: Option<&[u8]>,
) -> Option<()> {
    let Some(bytes) = held else {
        return write!(text, " {name} none").ok();
    };
    write!(text, " {name} {}", bytes.len()).ok()?;
    if !whole?.starts_with(bytes) {
        text.push_str(" otherwise").ok()?;
    }
    Some(())
}

/// What is told of a line; nothing where it isn't as it has to be.
pub fn told(alloc: Global, line: &str) -> Option<String> {
    let (command, failing) = line.split_once('|')?;
    let (kind, n) = failing.split_once(' ')?;
    let n = u64::from_str_radix(n, 10).ok()?;
    let whole = patched(alloc)?;
    let end = match call_of(kind) {
        Some(call) => with_failing_call(alloc, command, call, n, &whole)?,
        None => with_failing_print(alloc, command, n, &whole)?,
    };
    let mut text = String::from_utf8(end.sink.bytes().to_vec(alloc).ok()?).ok()?;
    write!(text, "{}", end.status).ok()?;
    push_held(&mut text, "O", end.desk.get("O"), whole.get("O"))?;
    push_held(&mut text, "R", end.desk.get("R"), whole.get("R"))?;
    push_held(&mut text, "N", end.desk.get("N"), whole.get("F"))?;
    Some(text)
}
