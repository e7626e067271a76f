//! The commands that rewrite FILE and write a report, each a patch in a form.
ghost use Rattle.std.specs.Prelude.{◌≡◌, ℕ, ◌<◌, ◌≤◌, None, OnOk, length, map, slice_index};
ghost use Rattle.std.specs.List.Sorted.{IsStrictlyIncreasing};
ghost use Rattle.pun_base.specs.Actions.{IsAction};
ghost use Rattle.pun_base.specs.Limits.{most_sites};
ghost use Rattle.pun_base.specs.Ranges.{ends};
ghost use Rattle.patch_report.specs.Values.{row_value};
ghost use Rattle.command_words.specs.Named.{names_of};
ghost use Rattle.command_io.specs.Verdict.{asked, patching};
ghost use Rattle.patch_commands.specs.Answers.{listed_inputs};
ghost use Rattle.command_io.specs.Failing.{Gathers, seen_as, told_of};
ghost use Rattle.command_io.specs.Works.{Carries, Works};
ghost use Rattle.patch_commands.specs.Forms.{action_in, patching_of, writing_in, IsSharedIn, RewritesIn};
ghost use Rattle.patch_commands.specs.Patching.{patch_texts, file_and_lists, ReadsLists, TellsSummary, WritesReport};

use crate::patching::{Form, Given};
use command_io::ends::{Failure, Input, Told};
use command_io::failures::{list_failure, loader_failure, rewrite_failure};
use command_io::inputs::read_input;
use command_io::outputs::write_output;
use command_io::report_mode::{Mode, print_report};
use command_io::summary::{done_status, summary};
use command_words::words::Names;
use guest_threads::rewriting::rewrite_threads_reported;
use list_text::lists::{read_sites, read_starts};
use patch_report::report::Report;
use patch_report::row::ReportRow;
use pun_base::desk::Desk;
use pun_base::range::Range;
use rewrite_core::rewrite::rewrite;
use rewrite_loader::rewrite::rewrite_loader;
use std::alloc::{AllocError, Global};
use thread_loader::rewriting::rewrite_threads_loader;

/// The bytes of the inputs.
#[derive(Drop)]
pub struct Inputs {
    pub file: Vec<u8>,
    pub starts: Vec<u8>,
    pub sites: Vec<u8>,
}

/// The bytes of FILE, and the addresses of the lists in ascending order.
#[derive(Drop)]
pub struct Listed {
    pub file: Vec<u8>,
    pub starts: Vec<u32>,
    pub sites: Vec<u32>,
}

/// Reads the inputs, and writes the patched file in a form, and its report.
///
/// Neither new code nor a stub stands in the reserved ranges.
pub fn patch<'a, D: Desk>(
    alloc: Global,
    form: Form,
    names: &Names<'a>,
    reserves: &[Range],
    desk: &mut D,
) -> Result<Told, Failure<'a>>
    requires action { IsAction (action_in form) }
    requires shared { IsSharedIn form }
    requires nothing { (D.seen desk.old).writing ≡ None }
    ensures { Carries (writing_in form (patching (names_of names.now) (action_in form)
        (map ends reserves.now))) (D.seen desk.old) (D.seen desk.new) (seen_as told_of result) }
{
    let given = Given {
        form,
        names,
        reserves,
    };
    match read_inputs(alloc, names.file, names.starts, names.sites, desk) {
        Ok(inputs) => rewrite_inputs(alloc, &given, inputs, desk),
        Err(failure) => Err(failure),
    }
}

/// Reads FILE, STARTS and SITES in this order, until one can't be read.
pub fn read_inputs<'a, D: Desk>(
    alloc: Global,
    file: &'a str,
    starts: &'a str,
    sites: &'a str,
    desk: &mut D,
) -> Result<Inputs, Failure<'a>>
    ensures { Gathers (listed_inputs file.entry.now starts.entry.now sites.entry.now)
        (D.seen desk.old) (D.seen desk.new) (seen_as patch_texts result) }
{
    let file = read_input(alloc, Input::File, file, desk)?;
    let starts = read_input(alloc, Input::Starts, starts, desk)?;
    let sites = read_input(alloc, Input::Sites, sites, desk)?;
    Ok(Inputs {
        file,
        starts,
        sites,
    })
}

/// Judges the lists, lets go of their texts, writes the patched file in its form and then its report.
fn rewrite_inputs<'a, D: Desk>(
    alloc: Global,
    given: &Given<'_, 'a>,
    inputs: Inputs,
    desk: &mut D,
) -> Result<Told, Failure<'a>>
    requires action { IsAction (action_in given.now.form) }
    requires shared { IsSharedIn given.now.form }
    requires nothing { (D.seen desk.old).writing ≡ None }
    ensures { Works (writing_in given.now.form (patching_of given.now)) (patch_texts inputs)
        (D.seen desk.old) (D.seen desk.new) (seen_as told_of result) }
{
    let listed = match judge_lists(alloc, inputs) {
        Ok(listed) => listed,
        Err(failure) => return Err(failure),
    };
    let file = bytes_of(&listed.file);
    match rewrite_listed(alloc, given, file, &listed.starts, &listed.sites, desk) {
        Ok(report) => write_report(alloc, given.form.mode(), &report, given.names.report, desk),
        Err(failure) => Err(failure),
    }
}

/// Writes the patched file in its form, and answers its report.
fn rewrite_listed<'a, D: Desk>(
    alloc: Global,
    given: &Given<'_, 'a>,
    file: &[u8],
    starts: &[u32],
    sites: &[u32],
    desk: &mut D,
) -> Result<Report, Failure<'a>>
    requires starts_ascend { IsStrictlyIncreasing starts.now }
    requires sites_ascend { IsStrictlyIncreasing sites.now }
    requires few_sites { length sites.now ≤ most_sites }
    requires action { IsAction (action_in given.now.form) }
    requires shared { IsSharedIn given.now.form }
    requires nothing { (D.seen desk.old).writing ≡ None }
    ensures rewrites { RewritesIn given.now.form
        (asked (action_in given.now.form) given.now.reserves.now file.now starts.now sites.now)
        (names_of given.now.names.now).out (D.seen desk.old) (D.seen desk.new)
        (seen_as (λ r. r) result) }
    ensures rest { OnOk result ((D.seen desk.new).writing ≡ None) }
{
    let Given {
        form,
        names,
        reserves,
    } = given;
    let out = names.out;
    match *form {
        Form::Plain(action) => {
            match rewrite(alloc, file, starts, sites, action, reserves, out, desk) {
                Ok(report) => Ok(report),
                Err(error) => Err(rewrite_failure(error, out)),
            }
        }
        Form::WithStub(action) => {
            match rewrite_loader(alloc, file, starts, sites, action, reserves, out, desk) {
                Ok(report) => Ok(report),
                Err(error) => Err(loader_failure(error, out)),
            }
        }
        Form::ForThreads(action) => {
            match rewrite_threads_reported(
                alloc, file, starts, sites, action, reserves, out, desk,
            ) {
                Ok(report) => Ok(report),
                Err(error) => Err(rewrite_failure(error, out)),
            }
        }
        Form::ForThreadsWithStub(action) => {
            match rewrite_threads_loader(alloc, file, starts, sites, action, reserves, out, desk) {
                Ok(report) => Ok(report),
                Err(error) => Err(loader_failure(error, out)),
            }
        }
    }
}

/// The bytes of a file, as they are.
pub fn bytes_of(file: &[u8]) -> &[u8]
    ensures value { result.now ≡ file.entry.now }
    ensures bytes { (k : ℕ) → slice_index result.now k < 256 }
{
    file
}

/// Judges both lists, STARTS first, and lets go of their texts.
pub fn judge_lists<'a>(alloc: Global, inputs: Inputs) -> Result<Listed, Failure<'a>>
    ensures { ReadsLists inputs (seen_as file_and_lists result) }
{
    let Inputs {
        file,
        starts,
        sites,
    } = inputs;
    let starts = match read_starts(alloc, &starts) {
        Ok(starts) => starts,
        Err(error) => return Err(list_failure(Input::Starts, error)),
    };
    let sites = match read_sites(alloc, &sites) {
        Ok(sites) => sites,
        Err(error) => return Err(list_failure(Input::Sites, error)),
    };
    Ok(Listed {
        file,
        starts,
        sites,
    })
}

/// Writes REPORT in a mode, and answers the summary.
pub fn write_report<'a, D: Desk>(
    alloc: Global,
    mode: Mode,
    report: &Report,
    name: &'a str,
    desk: &mut D,
) -> Result<Told, Failure<'a>>
    requires { (D.seen desk.old).writing ≡ None }
    ensures { WritesReport mode name.entry.now report.now (D.seen desk.old) (D.seen desk.new)
        (seen_as told_of result) }
{
    let Ok(text) = print_report(alloc, mode, report) else {
        return Err(Failure::Memory);
    };
    match write_output(alloc, text, name, desk) {
        Ok(()) => told_summary(alloc, report.rows()),
        Err(failure) => Err(failure),
    }
}

/// The summary of these rows, and the status of their patch.
pub fn told_summary<'a>(alloc: Global, rows: &[ReportRow]) -> Result<Told, Failure<'a>>
    ensures { TellsSummary (map row_value rows.now) (seen_as told_of result) }
{
    match summary(alloc, rows) {
        Ok(text) => Ok(Told {
            text: text.into_bytes(),
            status: done_status(rows),
        }),
        Err(AllocError) => Err(Failure::Memory),
    }
}
