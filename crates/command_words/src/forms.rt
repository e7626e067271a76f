//! The commands' forms, as `clap` is told them, and the command that it finds.
ghost use Rattle.std.specs.Prelude.{◌≡◌, false, IfOk, Some, [], fold, map, option_map};
ghost use Rattle.clap.specs.Words.{app_of, found_of, rows_of, rule_of, subcommand_rows_of};
ghost use Rattle.command_words.specs.ClapForm.{command_found, form_app, IsForm, IsLocal, program_app, with_form, with_found, with_word, word_rule, words_found, words_rule};
ghost use Rattle.command_words.specs.Named.{command_view, synopsis_of};

use crate::commands::read_command;
use crate::synopses::{COMMANDS, Synopsis, words_under};
use crate::words::Command;
use clap::{Arg, ArgAction, ArgMatches};
use std::alloc::{AllocError, Global};

/// The form of the program's words, behind its name.
pub fn program<'a>(alloc: Global) -> Result<clap::Command<'a>, AllocError>
    ensures { IfOk result (λ c. app_of c ≡ program_app) }
{
    let alone = clap::Command::new(alloc, "e9tool")
        .no_binary_name(true)
        .disable_help_flag(true)
        .disable_help_subcommand(true)
        .disable_version_flag(true)
        .subcommand_required(true);
    with_forms(alloc, alone, COMMANDS)
}

/// A program with these commands behind those that it has.
fn with_forms<'a>(
    alloc: Global,
    program: clap::Command<'a>,
    commands: &[Synopsis],
) -> Result<clap::Command<'a>, AllocError>
    ensures { IfOk result (λ c. app_of c
        ≡ fold with_form (app_of program.entry) (map synopsis_of commands.now)) }
{
    let Some((command, later)) = commands.split_first() else {
        return Ok(program);
    };
    let more = program.subcommand(form(alloc, command)?)?;
    with_forms(alloc, more, later)
}

/// A command and its words.
fn form<'a>(alloc: Global, command: &Synopsis) -> Result<clap::Command<'a>, AllocError>
    ensures { IfOk result (IsForm (form_app (synopsis_of command.now))) }
{
    let words = with_words(
        alloc,
        clap::Command::new(alloc, command.name),
        command.words,
    )?;
    if command.reserves || command.base {
        words.arg(later_words(alloc, "RESERVE"))
    } else {
        Ok(words)
    }
}

/// A command with words of these names behind those that it has.
fn with_words<'a>(
    alloc: Global,
    command: clap::Command<'a>,
    names: &[&'a str],
) -> Result<clap::Command<'a>, AllocError>
    requires { IsLocal command }
    ensures { IfOk result (IsForm
        (fold with_word (app_of command.entry) (map (λ n. n.now) names.now))) }
{
    let Some((name, later)) = names.split_first() else {
        return Ok(command);
    };
    let more = command.arg(word(alloc, name))?;
    with_words(alloc, more, later)
}

/// A word that has to be there, known by its place.
fn word<'a>(alloc: Global, name: &'a str) -> Arg<'a>
    ensures rule { rule_of result ≡ word_rule name.entry.now }
    ensures local { result.global ≡ false }
{
    Arg::new(alloc, name).required(true).action(ArgAction::Set)
}

/// Words that may be there, each known by its place behind the others.
fn later_words<'a>(alloc: Global, name: &'a str) -> Arg<'a>
    ensures rule { rule_of result ≡ words_rule name.entry.now }
    ensures local { result.global ≡ false }
{
    Arg::new(alloc, name).action(ArgAction::Append)
}

/// The command that was found.
pub fn found_command<'a>(alloc: Global, matches: &ArgMatches<'a>) -> Result<Command<'a>, AllocError>
    ensures { IfOk result (λ c. command_view c
        ≡ command_found (subcommand_rows_of matches.now)) }
{
    match matches.subcommand() {
        Some((name, given)) => named_command(alloc, name, given),
        None => Ok(Command::Usage),
    }
}

/// The command of this name whose words were found.
fn named_command<'a>(
    alloc: Global,
    name: &str,
    given: &ArgMatches<'a>,
) -> Result<Command<'a>, AllocError>
    ensures { IfOk result (λ c. command_view c
        ≡ command_found (Some (name.now, rows_of (found_of given.now)))) }
{
    let words = found_words(alloc, given, words_under(COMMANDS, name))?;
    read_command(alloc, name, &words)
}

/// The words that were found under these names, and behind them any RESERVE.
fn found_words<'a>(
    alloc: Global,
    given: &ArgMatches<'a>,
    names: &[&str],
) -> Result<Vec<&'a str>, AllocError>
    ensures { IfOk result (λ ws. map (λ w. w.now) ws.items
        ≡ words_found (map (λ n. n.now) names.now) (rows_of (found_of given.now))) }
{
    let Some((name, later)) = names.split_first() else {
        return reserve_words(alloc, given);
    };
    let words = found_words(alloc, given, later)?;
    with_found(given.get_str(name), words)
}

/// One more word in front, where it is there.
fn with_found<'a>(
    word: Option<&'a str>,
    mut words: Vec<&'a str>,
) -> Result<Vec<&'a str>, AllocError>
    ensures { IfOk result (λ ws. map (λ w. w.now) ws.items
        ≡ with_found (option_map (λ w. w.now) word.entry) (map (λ w. w.now) words.entry.items)) }
{
    if let Some(word) = word {
        words.insert(0, word)?;
    }
    Ok(words)
}

/// Any RESERVE that was found.
fn reserve_words<'a>(alloc: Global, given: &ArgMatches<'a>) -> Result<Vec<&'a str>, AllocError>
    ensures { IfOk result (λ ws. map (λ w. w.now) ws.items
        ≡ words_found [] (rows_of (found_of given.now))) }
{
    let mut words = Vec::new(alloc);
    words.extend_from_slice(given.get_strs("RESERVE").unwrap_or(&[]))?;
    Ok(words)
}
