//! The command `threads` without a report.
ghost use Rattle.std.specs.Prelude.{◌≡◌, None, map};
ghost use Rattle.pun_base.specs.Ranges.{ends};
ghost use Rattle.command_words.specs.Named.{thread_names_of};
ghost use Rattle.patch_commands.specs.ThreadsAnswers.{thread_patching, threads_writing};
ghost use Rattle.command_io.specs.Failing.{seen_as, told_of};
ghost use Rattle.command_io.specs.Works.{Works, Carries};
ghost use Rattle.patch_commands.specs.Patching.{patch_texts};

use crate::patch::{Inputs, bytes_of, judge_lists, read_inputs, told_summary};
use command_io::ends::{Failure, Told};
use command_io::failures::rewrite_failure;
use command_words::words::ThreadNames;
use guest_threads::rewriting::rewrite_threads;
use pun_base::desk::Desk;
use pun_base::range::Range;
use std::alloc::Global;

/// Reads the inputs, and writes the file that is patched for a guest of several threads.
///
/// No new code stands in the reserved ranges.
pub fn patch_threads<'a, D: Desk>(
    alloc: Global,
    names: &ThreadNames<'a>,
    reserves: &[Range],
    desk: &mut D,
) -> Result<Told, Failure<'a>>
    requires { (D.seen desk.old).writing ≡ None }
    ensures { Carries (threads_writing (thread_patching (thread_names_of names.now)
        (map ends reserves.now))) (D.seen desk.old) (D.seen desk.new) (seen_as told_of result) }
{
    match read_inputs(alloc, names.file, names.starts, names.sites, desk) {
        Ok(inputs) => rewrite_inputs(alloc, inputs, names, reserves, desk),
        Err(failure) => Err(failure),
    }
}

/// Judges the lists, lets go of their texts, writes the patched file, and answers the summary.
fn rewrite_inputs<'a, D: Desk>(
    alloc: Global,
    inputs: Inputs,
    names: &ThreadNames<'a>,
    reserves: &[Range],
    desk: &mut D,
) -> Result<Told, Failure<'a>>
    requires { (D.seen desk.old).writing ≡ None }
    ensures { Works (threads_writing (thread_patching (thread_names_of names.now)
        (map ends reserves.now))) (patch_texts inputs) (D.seen desk.old) (D.seen desk.new)
        (seen_as told_of result) }
{
    let listed = match judge_lists(alloc, inputs) {
        Ok(listed) => listed,
        Err(failure) => return Err(failure),
    };
    let file = bytes_of(&listed.file);
    match rewrite_threads(
        alloc,
        file,
        &listed.starts,
        &listed.sites,
        reserves,
        names.out,
        desk,
    ) {
        Ok(report) => told_summary(alloc, report.rows.as_slice()),
        Err(error) => Err(rewrite_failure(error, names.out)),
    }
}
