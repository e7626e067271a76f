//! The words of the command line.
ghost use Rattle.std.specs.Prelude.{◌≡◌, true, IfOk, map, string_bytes};
ghost use Rattle.std.specs.List.{list_all};
ghost use Rattle.command_words.specs.Words.{is_plain, command_of, form_of};
ghost use Rattle.command_words.specs.Named.{command_view};

use crate::forms::{found_command, program};
use clap::error::ErrorKind;
use pun_base::action::Action;
use pun_base::range::Range;
use std::alloc::{AllocError, Global};

/// The names that `patch`, `load` and `threads` with a report are given.
#[derive(Clone, Copy)]
pub struct Names<'a> {
    pub file: &'a str,
    pub starts: &'a str,
    pub sites: &'a str,
    pub out: &'a str,
    pub report: &'a str,
}

/// The names that `check` is given.
#[derive(Clone, Copy)]
pub struct CheckNames<'a> {
    pub file: &'a str,
    pub out: &'a str,
    pub starts: &'a str,
    pub report: &'a str,
}

/// The names that `step` is given.
#[derive(Clone, Copy)]
pub struct StepNames<'a> {
    pub file: &'a str,
    pub starts: &'a str,
    pub world: &'a str,
}

/// The names that `threads` is given without a report.
#[derive(Clone, Copy)]
pub struct ThreadNames<'a> {
    pub file: &'a str,
    pub starts: &'a str,
    pub sites: &'a str,
    pub out: &'a str,
}

/// The names that `unpatch` is given.
#[derive(Clone, Copy)]
pub struct UnpatchNames<'a> {
    pub patched: &'a str,
    pub report: &'a str,
    pub new: &'a str,
}

/// The names that `settle` is given.
#[derive(Clone, Copy)]
pub struct SettleNames<'a> {
    pub file: &'a str,
    pub out: &'a str,
}

/// The names that `unsettle` is given.
#[derive(Clone, Copy)]
pub struct UnsettleNames<'a> {
    pub file: &'a str,
    pub new: &'a str,
}

/// What the words of the command line ask for.
#[derive(Drop)]
pub enum Command<'a> {
    /// How the commands are used: the words are of no command's form.
    Usage,
    /// Patch with an action, and keep ranges of addresses free.
    Patch {
        names: Names<'a>,
        action: Action,
        reserves: Vec<Range>,
    },
    Check(CheckNames<'a>),
    /// Make at most `count` steps.
    Step {
        names: StepNames<'a>,
        count: u64,
    },
    /// Patch the guest of a seed, with so many blocks, and run both files.
    Gen {
        seed: u64,
        blocks: u32,
    },
    /// As a patch, whose file maps its new code itself.
    Load {
        names: Names<'a>,
        action: Action,
        reserves: Vec<Range>,
    },
    /// Patch for a guest of several threads, with counters.
    Threads {
        names: ThreadNames<'a>,
        reserves: Vec<Range>,
    },
    /// As that, with an action and a report.
    ThreadsReported {
        names: Names<'a>,
        action: Action,
        reserves: Vec<Range>,
    },
    /// As that, with a file that maps its new code itself.
    ThreadsLoaded {
        names: Names<'a>,
        action: Action,
        reserves: Vec<Range>,
    },
    /// Give back the original of a patched file.
    Unpatch(UnpatchNames<'a>),
    /// Move a position independent program to a base, or to the highest.
    Settle {
        names: SettleNames<'a>,
        base: Option<u32>,
    },
    /// Give back the program that was moved.
    Unsettle(UnsettleNames<'a>),
}

/// The command that the words are of. They begin with the program's name.
///
/// An error is want of memory.
pub fn read_words<'a>(alloc: Global, words: &'a [String]) -> Result<Command<'a>, AllocError>
    ensures { IfOk result (λ c. command_view c ≡ command_of (map string_bytes words.entry.now)) }
{
    match words.split_first() {
        Some((_, rest)) if are_plain(rest) => parse(alloc, rest),
        _ => Ok(Command::Usage),
    }
}

/// Whether no word is empty or begins with `-`.
fn are_plain(words: &[String]) -> bool
    ensures { result ≡ list_all is_plain (map string_bytes words.now) }
{
    words.iter().all(|word| is_name(word.as_str()))
}

/// Whether a word isn't empty and doesn't begin with `-`.
pub(crate) fn is_name(word: &str) -> bool
    ensures { result ≡ is_plain word.now }
{
    match word.as_bytes() {
        [] => false,
        [first, ..] => *first != b'-',
    }
}

/// The command that plain words are of, without the program's name.
fn parse<'a>(alloc: Global, words: &'a [String]) -> Result<Command<'a>, AllocError>
    requires { list_all is_plain (map string_bytes words.now) ≡ true }
    ensures { IfOk result (λ c. command_view c ≡ form_of (map string_bytes words.entry.now)) }
{
    match program(alloc)?.try_get_matches_from(words) {
        Ok(matches) => found_command(alloc, &matches),
        Err(error) => match error.kind() {
            ErrorKind::OutOfMemory => Err(AllocError),
            _ => Ok(Command::Usage),
        },
    }
}
