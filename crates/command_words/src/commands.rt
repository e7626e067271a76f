//! The command that its name and the words behind it are of.
ghost use Rattle.std.specs.Prelude.{◌≡◌, ◌∷◌, IfOk, map, option_map};
ghost use Rattle.pun_base.specs.Ranges.{ends};
ghost use Rattle.command_words.specs.Words.{patch_of, patch_with, check_of, step_of, gen_of, gen_with, blocks_of, load_with, threads_of, threads_in_form, threads_by_action, threads_after, threads_with, reported_with, unpatch_of, unpatch_with, hex_word, settle_with, settle_at, settle_after, settle_of, unsettle_with, unsettle_of, form_of};
ghost use Rattle.command_words.specs.Words.{base_of as base_asked};
ghost use Rattle.command_words.specs.Words.{are_apart as apart, is_apart as stands_apart};
ghost use Rattle.command_words.specs.Words.{has_own_out as owns_out};
ghost use Rattle.command_words.specs.Words.{report_of as report_name};
ghost use Rattle.command_words.specs.Words.{is_loader_form as asks_for_loader, loaded_with as as_loaded};
ghost use Rattle.command_words.specs.Words.{is_asked as can_be_asked, action_asked as action_told, acting_with as as_acting};
ghost use Rattle.command_words.specs.Named.{names_of, thread_names_of, unpatch_names_of, settle_names_of, unsettle_names_of, command_view};

use crate::reserves::read_reserves;
use crate::words::{
    CheckNames, Command, Names, SettleNames, StepNames, ThreadNames, UnpatchNames, UnsettleNames,
    is_name,
};
use list_text::digits::read_number;
use list_text::words::{read_action, read_count};
use pun_base::action::Action;
use pun_base::range::Range;
use std::alloc::{AllocError, Global};

/// The most steps.
const MOST_STEPS: u64 = 10_000_000;

/// The highest base that a word tells.
const MOST_BASE: u64 = 0xFFFF_FFFF;

/// The most blocks of a guest.
const MOST_BLOCKS: u64 = 20_000;

/// The command of this name, with the words behind it.
pub fn read_command<'a>(
    alloc: Global,
    name: &str,
    words: &[&'a str],
) -> Result<Command<'a>, AllocError>
    ensures { IfOk result (λ c. command_view c
        ≡ form_of (name.now ∷ map (λ w. w.now) words.now)) }
{
    match name {
        "patch" => read_patch(alloc, words),
        "check" => Ok(read_check(words)),
        "step" => Ok(read_step(words)),
        "gen" => Ok(read_gen(words)),
        "load" => Ok(load_with(read_patch(alloc, words)?)),
        "threads" => read_threads(alloc, words),
        "unpatch" => Ok(read_unpatch(words)),
        "settle" => Ok(read_settle(words)),
        "unsettle" => Ok(read_unsettle(words)),
        _ => Ok(Command::Usage),
    }
}

/// The patch that is asked for: FILE STARTS SITES ACTION OUT REPORT, and then any RESERVE.
fn read_patch<'a>(alloc: Global, words: &[&'a str]) -> Result<Command<'a>, AllocError>
    ensures { IfOk result (λ c. command_view c ≡ patch_of (map (λ w. w.now) words.now)) }
{
    let [file, starts, sites, action, out, report, reserves @ ..] = words else {
        return Ok(Command::Usage);
    };
    let names = Names {
        file,
        starts,
        sites,
        out,
        report,
    };
    let reserves = read_reserves(alloc, reserves)?;
    Ok(patch_with(names, read_action(action), reserves))
}

/// A patch with the action, the names and the ranges, where they are of the form.
fn patch_with<'a>(
    names: Names<'a>,
    action: Option<Action>,
    reserves: Option<Vec<Range>>,
) -> Command<'a>
    ensures { command_view result
        ≡ patch_with (names_of names.entry) action (option_map (λ v. map ends v.items) reserves) }
{
    let Some(action) = action else {
        return Command::Usage;
    };
    let Some(reserves) = reserves else {
        return Command::Usage;
    };
    if are_apart(&names) {
        Command::Patch {
            names,
            action,
            reserves,
        }
    } else {
        Command::Usage
    }
}

/// Whether OUT and REPORT differ from each other and from the inputs.
fn are_apart(names: &Names<'_>) -> bool
    ensures { result ≡ apart (names_of names.now) }
{
    names.out != names.report
        && names.out != names.file
        && names.out != names.starts
        && names.out != names.sites
        && names.report != names.file
        && names.report != names.starts
        && names.report != names.sites
}

/// The check that is asked for: FILE OUT STARTS REPORT.
fn read_check<'a>(words: &[&'a str]) -> Command<'a>
    ensures { command_view result ≡ check_of (map (λ w. w.now) words.now) }
{
    let [file, out, starts, report] = words else {
        return Command::Usage;
    };
    Command::Check(CheckNames {
        file,
        out,
        starts,
        report,
    })
}

/// The steps that are asked for: FILE STARTS WORLD N, where N is at most 10,000,000.
fn read_step<'a>(words: &[&'a str]) -> Command<'a>
    ensures { command_view result ≡ step_of (map (λ w. w.now) words.now) }
{
    let [file, starts, world, count] = words else {
        return Command::Usage;
    };
    let names = StepNames {
        file,
        starts,
        world,
    };
    match read_count(count, MOST_STEPS) {
        Some(count) => Command::Step { names, count },
        None => Command::Usage,
    }
}

/// The guest that is asked for: SEED BLOCKS.
fn read_gen<'a>(words: &[&'a str]) -> Command<'a>
    ensures { command_view result ≡ gen_of (map (λ w. w.now) words.now) }
{
    let [seed, blocks] = words else {
        return Command::Usage;
    };
    gen_with(read_count(seed, u64::MAX), read_blocks(blocks))
}

/// A guest with the seed and the number of blocks, where they are of the form.
fn gen_with<'a>(seed: Option<u64>, blocks: Option<u32>) -> Command<'a>
    ensures { command_view result ≡ gen_with seed blocks }
{
    match (seed, blocks) {
        (Some(seed), Some(blocks)) => Command::Gen { seed, blocks },
        _ => Command::Usage,
    }
}

/// The number of blocks that a word tells: at least 1, and at most 20,000.
fn read_blocks(word: &str) -> Option<u32>
    ensures { result ≡ blocks_of word.now }
{
    match read_count(word, MOST_BLOCKS) {
        None | Some(0) => None,
        Some(blocks) => Some(blocks as u32),
    }
}

/// What a patch is told, as `load` does it.
fn load_with<'a>(patch: Command<'a>) -> Command<'a>
    ensures { command_view result ≡ load_with (command_view patch.entry) }
{
    match patch {
        Command::Patch {
            names,
            action,
            reserves,
        } => Command::Load {
            names,
            action,
            reserves,
        },
        _ => Command::Usage,
    }
}

/// The patch for threads that is asked for: FILE STARTS SITES OUT, then `form:loader` or nothing, then `action:ACTION` or nothing,
/// then `report:NAME` or nothing, and then any RESERVE. Without a report there is no loader form, and sites count.
fn read_threads<'a>(alloc: Global, words: &[&'a str]) -> Result<Command<'a>, AllocError>
    ensures { IfOk result (λ c. command_view c ≡ threads_of (map (λ w. w.now) words.now)) }
{
    let [file, starts, sites, out, words @ ..] = words else {
        return Ok(Command::Usage);
    };
    let names = ThreadNames {
        file,
        starts,
        sites,
        out,
    };
    read_in_form(alloc, names, words)
}

/// A patch for threads with these names, and the words after OUT: the first of them may ask for a form.
fn read_in_form<'a>(
    alloc: Global,
    names: ThreadNames<'a>,
    words: &[&'a str],
) -> Result<Command<'a>, AllocError>
    ensures { IfOk result (λ c. command_view c
        ≡ threads_in_form (thread_names_of names.entry) (map (λ w. w.now) words.now)) }
{
    let Some((first, later)) = words.split_first() else {
        return read_by_action(alloc, names, words);
    };
    if is_loader_form(first) {
        let reported = read_by_action(alloc, names, later)?;
        Ok(loaded_with(reported))
    } else {
        read_by_action(alloc, names, words)
    }
}

/// Whether a word asks for the loader form.
fn is_loader_form(word: &str) -> bool
    ensures { result ≡ asks_for_loader word.now }
{
    word == "form:loader"
}

/// A patch for threads with a report, as one in the loader form.
fn loaded_with<'a>(reported: Command<'a>) -> Command<'a>
    ensures { command_view result ≡ as_loaded (command_view reported.entry) }
{
    match reported {
        Command::ThreadsReported {
            names,
            action,
            reserves,
        } => Command::ThreadsLoaded {
            names,
            action,
            reserves,
        },
        _ => Command::Usage,
    }
}

/// A patch for threads with these names, and the words after OUT and the form: the first of them may ask for an action.
fn read_by_action<'a>(
    alloc: Global,
    names: ThreadNames<'a>,
    words: &[&'a str],
) -> Result<Command<'a>, AllocError>
    ensures { IfOk result (λ c. command_view c
        ≡ threads_by_action (thread_names_of names.entry) (map (λ w. w.now) words.now)) }
{
    let Some((first, later)) = words.split_first() else {
        return read_after_out(alloc, names, words);
    };
    match action_asked(first) {
        Some(action) => {
            let reported = read_after_out(alloc, names, later)?;
            Ok(acting_with(action, reported))
        }
        None => read_after_out(alloc, names, words),
    }
}

/// The action that a word asks for: the word is `action:` with the action after it, spelled as `patch` is told it.
fn action_asked(word: &str) -> Option<Action>
    ensures { result ≡ action_told word.now }
{
    match read_action(word.strip_prefix("action:")?) {
        Some(action) if is_asked(action) => Some(action),
        _ => None,
    }
}

/// Whether a word of `threads` asks for this action: it covers, has a condition, or keeps a ring of 256 or 65,536 slots.
fn is_asked(action: Action) -> bool
    ensures { result ≡ can_be_asked action }
{
    match action {
        Action::Cover | Action::When { .. } => true,
        Action::Count => false,
        Action::Ring { len } => len == 256 || len == 65_536,
    }
}

/// A patch for threads with a report, as one with this action.
fn acting_with<'a>(action: Action, reported: Command<'a>) -> Command<'a>
    ensures { command_view result ≡ as_acting action (command_view reported.entry) }
{
    match reported {
        Command::ThreadsReported {
            names,
            action: _,
            reserves,
        } => Command::ThreadsReported {
            names,
            action,
            reserves,
        },
        _ => Command::Usage,
    }
}

/// A patch for threads that counts, with these names, and the words after OUT, the form and the action.
fn read_after_out<'a>(
    alloc: Global,
    names: ThreadNames<'a>,
    words: &[&'a str],
) -> Result<Command<'a>, AllocError>
    ensures { IfOk result (λ c. command_view c
        ≡ threads_after (thread_names_of names.entry) (map (λ w. w.now) words.now)) }
{
    let Some((word, later)) = words.split_first() else {
        let reserves = read_reserves(alloc, words)?;
        return Ok(threads_with(names, reserves));
    };
    match report_of(word) {
        Some(report) => {
            let ThreadNames {
                file,
                starts,
                sites,
                out,
            } = names;
            let names = Names {
                file,
                starts,
                sites,
                out,
                report,
            };
            let reserves = read_reserves(alloc, later)?;
            Ok(reported_with(names, reserves))
        }
        None => {
            let reserves = read_reserves(alloc, words)?;
            Ok(threads_with(names, reserves))
        }
    }
}

/// The name of a report that a word asks for: the word is `report:` with a name after it.
fn report_of<'a>(word: &'a str) -> Option<&'a str>
    ensures { option_map (λ n. n.now) result ≡ report_name word.entry.now }
{
    match word.strip_prefix("report:") {
        Some(name) if is_name(name) => Some(name),
        _ => None,
    }
}

/// A patch for threads that counts, with a report, with these names and ranges, where they are of the form.
fn reported_with<'a>(names: Names<'a>, reserves: Option<Vec<Range>>) -> Command<'a>
    ensures { command_view result
        ≡ reported_with (names_of names.entry) (option_map (λ v. map ends v.items) reserves) }
{
    let Some(reserves) = reserves else {
        return Command::Usage;
    };
    if are_apart(&names) {
        Command::ThreadsReported {
            names,
            action: Action::Count,
            reserves,
        }
    } else {
        Command::Usage
    }
}

/// A patch for threads with these names and ranges, where they are of the form.
fn threads_with<'a>(names: ThreadNames<'a>, reserves: Option<Vec<Range>>) -> Command<'a>
    ensures { command_view result
        ≡ threads_with (thread_names_of names.entry) (option_map (λ v. map ends v.items) reserves) }
{
    let Some(reserves) = reserves else {
        return Command::Usage;
    };
    if has_own_out(&names) {
        Command::Threads { names, reserves }
    } else {
        Command::Usage
    }
}

/// Whether OUT differs from the inputs.
fn has_own_out(names: &ThreadNames<'_>) -> bool
    ensures { result ≡ owns_out (thread_names_of names.now) }
{
    names.out != names.file && names.out != names.starts && names.out != names.sites
}

/// The original that is asked for: PATCHED REPORT NEW.
fn read_unpatch<'a>(words: &[&'a str]) -> Command<'a>
    ensures { command_view result ≡ unpatch_of (map (λ w. w.now) words.now) }
{
    let [patched, report, new] = words else {
        return Command::Usage;
    };
    unpatch_with(UnpatchNames {
        patched,
        report,
        new,
    })
}

/// An undoing with these names, where they are of the form.
fn unpatch_with<'a>(names: UnpatchNames<'a>) -> Command<'a>
    ensures { command_view result ≡ unpatch_with (unpatch_names_of names.entry) }
{
    if is_apart(&names) {
        Command::Unpatch(names)
    } else {
        Command::Usage
    }
}

/// Whether NEW differs from the inputs.
fn is_apart(names: &UnpatchNames<'_>) -> bool
    ensures { result ≡ stands_apart (unpatch_names_of names.now) }
{
    names.new != names.patched && names.new != names.report
}

/// The settling that is asked for: FILE OUT, and then `base:HEX` or nothing.
fn read_settle<'a>(words: &[&'a str]) -> Command<'a>
    ensures { command_view result ≡ settle_of (map (λ w. w.now) words.now) }
{
    let [file, out, words @ ..] = words else {
        return Command::Usage;
    };
    settle_after(SettleNames { file, out }, words)
}

/// A settling with these names, and the words behind OUT.
fn settle_after<'a>(names: SettleNames<'a>, words: &[&'a str]) -> Command<'a>
    ensures { command_view result
        ≡ settle_after (settle_names_of names.entry) (map (λ w. w.now) words.now) }
{
    match words {
        [] => settle_with(names, None),
        [word] => settle_at(names, base_of(word)),
        _ => Command::Usage,
    }
}

/// The base that a word asks for: the word is `base:` with a number below 2^32 after it, in hexadecimal digits.
fn base_of(word: &str) -> Option<u32>
    ensures { result ≡ base_asked word.now }
{
    read_base(word.strip_prefix("base:")?.as_bytes())
}

/// The number that hexadecimal digits tell, of which there are some, where it is below 2^32.
fn read_base(digits: &[u8]) -> Option<u32>
    ensures { result ≡ hex_word digits.now }
{
    if digits.is_empty() {
        return None;
    }
    match read_number(digits, 16, MOST_BASE) {
        Some(base) => Some(base as u32),
        None => None,
    }
}

/// A settling at a base that is told, where there is one.
fn settle_at<'a>(names: SettleNames<'a>, base: Option<u32>) -> Command<'a>
    ensures { command_view result ≡ settle_at (settle_names_of names.entry) base }
{
    match base {
        Some(base) => settle_with(names, Some(base)),
        None => Command::Usage,
    }
}

/// A settling with these names, where OUT differs from FILE.
fn settle_with<'a>(names: SettleNames<'a>, base: Option<u32>) -> Command<'a>
    ensures { command_view result ≡ settle_with (settle_names_of names.entry) base }
{
    if names.out != names.file {
        Command::Settle { names, base }
    } else {
        Command::Usage
    }
}

/// The program that is asked for: FILE NEW.
fn read_unsettle<'a>(words: &[&'a str]) -> Command<'a>
    ensures { command_view result ≡ unsettle_of (map (λ w. w.now) words.now) }
{
    let [file, new] = words else {
        return Command::Usage;
    };
    unsettle_with(UnsettleNames { file, new })
}

/// The program again with these names, where NEW differs from FILE.
fn unsettle_with<'a>(names: UnsettleNames<'a>) -> Command<'a>
    ensures { command_view result ≡ unsettle_with (unsettle_names_of names.entry) }
{
    if names.new != names.file {
        Command::Unsettle(names)
    } else {
        Command::Usage
    }
}
