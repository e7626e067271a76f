//! The file of `mov eax, 60; nop; nop` at 0x401000, patched to mark the first as reached, and changes of it.
use crate::files::{Load, file_of, lines_of, put};
use elf_read::elf::{Elf, read_elf, read_written};
use image_check::checked::Checked;
use image_check::rule::Rule;
use image_check::verdict::{Verdict, check};
use patch_report::read;
use patch_report::report::Report;
use start_entries::starts::Starts;
use std::alloc::{AllocError, Global};

/// The text; of the patched file the table, the private range and the trampoline's page too.
const TEXT: Load = (5, 0x1000, 0x40_1000, 7);

const LOADS: [Load; 4] = [
    (4, 0x2000, 0x1_0000, 0xe0),
    (6, 0x3000, 0x2_0000, 0x1000),
    (5, 0x4000, 0x2_1000, 0x1000),
    TEXT,
];

/// `mov byte [0x20040], 1`, the `mov`, and the way back.
const CODE: [u8; 17] = [
    0xc6, 0x04, 0x25, 0x40, 0, 2, 0, 1, 0xb8, 0x3c, 0, 0, 0, 0xe9, 0xf3, 0xff, 0x3d,
];

fn original(alloc: Global) -> Result<Vec<u8>, AllocError> {
    let mut file = file_of(alloc, 0x1007, 64, &[TEXT])?;
    put(&mut file, 0x1000, &[0xb8, 0x3c, 0, 0, 0, 0x90, 0x90]);
    Ok(file)
}

fn patched(alloc: Global) -> Result<Vec<u8>, AllocError> {
    let mut file = file_of(alloc, 0x5000, 0x2000, &LOADS)?;
    put(
        &mut file,
        0x1000,
        &[0xe9, 0xfb, 0xff, 0xc1, 0xff, 0x90, 0x90],
    );
    put(&mut file, 0x4000, &CODE);
    Ok(file)
}

/// Lays bytes over a file, as a word like `1005=91` tells; an empty one changes nothing.
fn change(alloc: Global, file: &mut Vec<u8>, word: &str) -> Option<()> {
    if word.is_empty() {
        return Some(());
    }
    let (place, digits) = word.split_once('=')?;
    let bytes = hex::decode(alloc, digits).ok()?;
    put(file, usize::from_str_radix(place, 16).ok()?, &bytes);
    Some(())
}

const RULES: [Rule; 6] = [
    Rule::Byte,
    Rule::Write,
    Rule::Entry,
    Rule::Code,
    Rule::Range,
    Rule::Site,
];

/// Of each rule the least address at which it fails.
fn least(alloc: Global, checked: &Checked) -> Option<String> {
    let mut text = String::new(alloc);
    for rule in &RULES {
        match checked.least(alloc, *rule).ok()? {
            Some(addr) => write!(text, "{addr:x} ").ok()?,
            None => text.push_str("- ").ok()?,
        }
    }
    Some(text)
}

/// Of each rule the least address at which it fails, and the verdict.
fn found(alloc: Global, orig: &Elf, patched: &Elf, report: &Report) -> Option<String> {
    let starts = Starts::build(alloc, orig, &[0x40_1000, 0x40_1005, 0x40_1006]).ok()?;
    let checked = Checked::new(alloc, orig, patched, &starts, report).ok()?;
    let verdict = check(alloc, orig, patched, &starts, report).ok()?;
    let mut text = least(alloc, &checked)?;
    match verdict {
        Verdict::Yes => text.push_str("yes").ok()?,
        Verdict::No { addr, rule } => write!(text, "{addr:x} {rule}").ok()?,
    }
    Some(text)
}

/// What is told of a line's file and report; nothing where one of them is refused.
pub fn told(alloc: Global, line: &str) -> Option<String> {
    let (changes, report) = line.split_once('|')?;
    let original = original(alloc).ok()?;
    let mut file = patched(alloc).ok()?;
    for word in changes.split(' ') {
        change(alloc, &mut file, word)?;
    }
    let orig = read_elf(alloc, &original).ok()?;
    let elf = read_written(alloc, &file).ok()?;
    let report = read(alloc, lines_of(alloc, report)?.as_bytes()).ok()?;
    found(alloc, &orig, &elf, &report)
}
