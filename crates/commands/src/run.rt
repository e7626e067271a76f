//! The top call.
ghost use Rattle.std.specs.Prelude.{◌≡◌, None, map, string_bytes};
ghost use Rattle.pun_base.specs.Desk.{Stays};
ghost use Rattle.pun_base.specs.Sink.{Grows};
ghost use Rattle.command_words.specs.Words.{command_of};
ghost use Rattle.commands.specs.Commands.{HasCause, Does};

use command_io::print::{print_usage, tell};
use command_io::status;
use command_words::words::{Command, read_words};
use inspect_commands::check::check;
use inspect_commands::gen_command;
use inspect_commands::step::step;
use patch_commands::patch::patch;
use patch_commands::patching::Form;
use patch_commands::{threads_command, unpatch_command};
use pun_base::desk::Desk;
use pun_base::sink::Sink;
use settle_commands::{settle_command, unsettle_command};
use std::alloc::{AllocError, Global};

/// Does what the words say, and answers the status.
///
/// `words` begins with the program's name.
pub fn run<D: Desk, K: Sink>(alloc: Global, words: &[String], desk: &mut D, out: &mut K) -> u8
    requires { (D.seen desk.old).writing ≡ None }
    ensures at_rest { (D.seen desk.new).writing ≡ None }
    ensures stays { Stays (D.seen desk.old) (D.seen desk.new) }
    ensures grows { Grows (K.seen out.old) (K.seen out.new) }
    ensures cause { HasCause (command_of (map string_bytes words.now)) (D.seen desk.old)
        (D.seen desk.new) (K.seen out.old) (K.seen out.new) result }
    ensures does { Does (command_of (map string_bytes words.now)) (D.seen desk.old)
        (D.seen desk.new) (K.seen out.old) (K.seen out.new) result }
{
    match read_words(alloc, words) {
        Ok(Command::Usage) => print_usage(alloc, out),
        Ok(
            Command::Patch {
                names,
                action,
                reserves,
            },
        ) => tell(
            alloc,
            patch(alloc, Form::Plain(action), &names, &reserves, desk),
            out,
        ),
        Ok(Command::Step { names, count }) => tell(alloc, step(alloc, &names, count, desk), out),
        Ok(Command::Check(names)) => tell(alloc, check(alloc, &names, desk), out),
        Ok(Command::Gen { seed, blocks }) => tell(
            alloc,
            gen_command::find(alloc, seed, blocks),
            out,
        ),
        Ok(
            Command::Load {
                names,
                action,
                reserves,
            },
        ) => tell(
            alloc,
            patch(alloc, Form::WithStub(action), &names, &reserves, desk),
            out,
        ),
        Ok(Command::Threads { names, reserves }) => tell(
            alloc,
            threads_command::patch_threads(alloc, &names, &reserves, desk),
            out,
        ),
        Ok(
            Command::ThreadsReported {
                names,
                action,
                reserves,
            },
        ) => tell(
            alloc,
            patch(alloc, Form::ForThreads(action), &names, &reserves, desk),
            out,
        ),
        Ok(
            Command::ThreadsLoaded {
                names,
                action,
                reserves,
            },
        ) => tell(
            alloc,
            patch(
                alloc,
                Form::ForThreadsWithStub(action),
                &names,
                &reserves,
                desk,
            ),
            out,
        ),
        Ok(Command::Unpatch(names)) => tell(alloc, unpatch_command::undo(alloc, &names, desk), out),
        Ok(Command::Settle { names, base }) => tell(
            alloc,
            settle_command::settle_file(alloc, &names, base, desk),
            out,
        ),
        Ok(Command::Unsettle(names)) => tell(
            alloc,
            unsettle_command::unsettle_file(alloc, &names, desk),
            out,
        ),
        Err(AllocError) => status::OUT_OF_MEMORY,
    }
}
