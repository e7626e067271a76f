//! What a command prints, in one write, and the status that it answers then.
ghost use Rattle.std.specs.Prelude.{◌≡◌, IfOk, IfErr, string_bytes};
ghost use Rattle.pun_base.specs.Sink.{Grows};
ghost use Rattle.command_words.specs.Words.{usage_text};
ghost use Rattle.command_io.specs.Ends.{read_fault_text, write_fault_text};
ghost use Rattle.command_io.specs.Messages.{ComesOut, IsSilent};
ghost use Rattle.command_io.specs.Endings.{Delivers};
ghost use Rattle.command_io.specs.Failing.{end_message, seen_as, told_of};

use crate::ends::{Failure, Told};
use crate::status;
use command_words::synopses::usage_line;
use pun_base::desk::PutError;
use pun_base::sink::Sink;
use std::alloc::{AllocError, Global};

/// Prints how the commands are used, and answers the status.
#[tactic(auto, using(crate::proofs::DeliveredTexts::nothing_out))]
pub fn print_usage<K: Sink>(alloc: Global, out: &mut K) -> u8
    ensures printed { ComesOut usage_text 2 (K.seen out.old) (K.seen out.new) result }
    ensures grows { Grows (K.seen out.old) (K.seen out.new) }
{
    match usage_line(alloc) {
        Ok(line) => print(alloc, line.as_bytes(), status::USAGE, out),
        Err(AllocError) => status::OUT_OF_MEMORY,
    }
}

/// Prints what a command has to tell, or why it didn't do its work, and answers its status.
pub fn tell<K: Sink>(alloc: Global, end: Result<Told, Failure<'_>>, out: &mut K) -> u8
    ensures printed { Delivers (end_message (seen_as told_of end.entry)) (K.seen out.old)
        (K.seen out.new) result }
    ensures grows { Grows (K.seen out.old) (K.seen out.new) }
{
    match end {
        Ok(told) => print(alloc, &told.text, told.status, out),
        Err(Failure::Refused(refusal)) => {
            print_line(alloc, refusal.line(alloc), status::REFUSED, out)
        }
        Err(Failure::ReadFault(name)) => {
            print_line(alloc, read_fault_line(alloc, name), status::READ_FAULT, out)
        }
        Err(Failure::WriteFault(name)) => {
            print_line(
                alloc,
                write_fault_line(alloc, name),
                status::WRITE_FAULT,
                out,
            )
        }
        Err(Failure::Memory) => status::OUT_OF_MEMORY,
    }
}

/// Writes a text, and answers this code, or the status of a failing sink or of want of memory.
pub fn print<K: Sink>(alloc: Global, text: &[u8], code: u8, out: &mut K) -> u8
    ensures printed { ComesOut text.now code (K.seen out.old) (K.seen out.new) result }
    ensures grows { Grows (K.seen out.old) (K.seen out.new) }
{
    match out.write(alloc, text) {
        Ok(()) => code,
        Err(PutError::Failed) => status::WRITE_FAULT,
        Err(PutError::Memory) => status::OUT_OF_MEMORY,
    }
}

/// Writes a line that was made, as `print`; where memory ran out for it nothing is written.
fn print_line<K: Sink>(alloc: Global, line: Result<String, AllocError>, code: u8, out: &mut K) -> u8
    ensures made { IfOk line (λ s. ComesOut (string_bytes s) code (K.seen out.old)
        (K.seen out.new) result) }
    ensures unmade { IfErr line (λ e. IsSilent (K.seen out.old) (K.seen out.new) result) }
    ensures grows { Grows (K.seen out.old) (K.seen out.new) }
{
    match line {
        Ok(line) => print(alloc, line.as_bytes(), code, out),
        Err(AllocError) => status::OUT_OF_MEMORY,
    }
}

#[tactic(auto, unfolding(crate::specs::Ends::read_fault_text))]
fn read_fault_line(alloc: Global, name: &str) -> Result<String, AllocError>
    ensures { IfOk result (λ line. string_bytes line ≡ read_fault_text name.now) }
{
    format!(in alloc; "fault read {name}\n")
}

#[tactic(auto, unfolding(crate::specs::Ends::write_fault_text))]
fn write_fault_line(alloc: Global, name: &str) -> Result<String, AllocError>
    ensures { IfOk result (λ line. string_bytes line ≡ write_fault_text name.now) }
{
    format!(in alloc; "fault write {name}\n")
}
