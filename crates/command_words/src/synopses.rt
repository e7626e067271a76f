//! The commands: how each is asked for, and the line that tells it.
ghost use Rattle.std.specs.Prelude.{◌≡◌, IfOk, map, string_bytes};
ghost use Rattle.command_words.specs.Named.{synopsis_of};
ghost use Rattle.command_words.specs.Words.{usage_text};
ghost use Rattle.command_words.specs.Synopses.{synopsis_text, reserves_text, usage_of};
ghost use Rattle.command_words.specs.Synopses.{base_text as base_line, words_under as names_under, spaced as words_spaced};

use std::alloc::{AllocError, Global};

/// How a command is asked for.
pub struct Synopsis {
    pub name: &'static str,
    /// The names of the words that have to be there behind its name.
    pub words: &'static [&'static str],
    /// Whether any RESERVE may stand behind them.
    pub reserves: bool,
    /// Whether a base may stand behind them.
    pub base: bool,
}

/// The commands.
pub const COMMANDS: &[Synopsis] = &[
    Synopsis {
        name: "patch",
        words: &["FILE", "STARTS", "SITES", "ACTION", "OUT", "REPORT"],
        reserves: true,
        base: false,
    },
    Synopsis {
        name: "check",
        words: &["FILE", "OUT", "STARTS", "REPORT"],
        reserves: false,
        base: false,
    },
    Synopsis {
        name: "step",
        words: &["FILE", "STARTS", "WORLD", "N"],
        reserves: false,
        base: false,
    },
    Synopsis {
        name: "gen",
        words: &["SEED", "BLOCKS"],
        reserves: false,
        base: false,
    },
    Synopsis {
        name: "load",
        words: &["FILE", "STARTS", "SITES", "ACTION", "OUT", "REPORT"],
        reserves: true,
        base: false,
    },
    Synopsis {
        name: "threads",
        words: &["FILE", "STARTS", "SITES", "OUT"],
        reserves: true,
        base: false,
    },
    Synopsis {
        name: "unpatch",
        words: &["PATCHED", "REPORT", "NEW"],
        reserves: false,
        base: false,
    },
    Synopsis {
        name: "settle",
        words: &["FILE", "OUT"],
        reserves: false,
        base: true,
    },
    Synopsis {
        name: "unsettle",
        words: &["FILE", "NEW"],
        reserves: false,
        base: false,
    },
];

/// The names of the words of the first of these commands that has the name, or none.
pub fn words_under(commands: &[Synopsis], name: &str) -> &'static [&'static str]
    ensures { map (λ n. n.now) result.now
        ≡ names_under (map synopsis_of commands.now) name.now }
{
    let Some((command, later)) = commands.split_first() else {
        return &[];
    };
    if command.name == name {
        command.words
    } else {
        words_under(later, name)
    }
}

/// What is printed where the words are of no command's form.
#[tactic(auto, unfolding(crate::specs::Words::usage_text))]
pub fn usage_line(alloc: Global) -> Result<String, AllocError>
    ensures { IfOk result (λ line. string_bytes line ≡ usage_text) }
{
    usage_from(alloc, "usage: ", COMMANDS)
}

/// A line of these commands: the first behind `before`, and each further one behind a bar.
fn usage_from(alloc: Global, before: &str, commands: &[Synopsis]) -> Result<String, AllocError>
    ensures { IfOk result (λ line. string_bytes line
        ≡ usage_of before.now (map synopsis_of commands.now)) }
{
    let Some((command, later)) = commands.split_first() else {
        return String::from_str(alloc, "\n");
    };
    let text = text_of(alloc, command)?;
    let rest = usage_from(alloc, " | ", later)?;
    format!(in alloc; "{before}{text}{rest}")
}

/// A command as the usage tells it: its name, its words, and whether any RESERVE, or a base, may stand behind them.
fn text_of(alloc: Global, command: &Synopsis) -> Result<String, AllocError>
    ensures { IfOk result (λ text. string_bytes text
        ≡ synopsis_text (synopsis_of command.now)) }
{
    let name = command.name;
    let words = spaced(alloc, command.words)?;
    let reserves = reserves_of(command.reserves);
    let base = base_text(command.base);
    format!(in alloc; "{name}{words}{reserves}{base}")
}

/// What the usage tells of any RESERVE.
fn reserves_of(reserves: bool) -> &'static str
    ensures { result.now ≡ reserves_text reserves }
{
    if reserves { " [RESERVE]..." } else { "" }
}

/// What the usage tells of a base.
fn base_text(base: bool) -> &'static str
    ensures { result.now ≡ base_line base }
{
    if base { " [base:HEX]" } else { "" }
}

/// Words, each behind a space.
fn spaced(alloc: Global, words: &[&str]) -> Result<String, AllocError>
    ensures { IfOk result (λ text. string_bytes text
        ≡ words_spaced (map (λ w. w.now) words.now)) }
{
    let Some((word, later)) = words.split_first() else {
        return Ok(String::new(alloc));
    };
    let rest = spaced(alloc, later)?;
    format!(in alloc; " {word}{rest}")
}
