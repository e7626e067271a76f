//! Inputs of the commands.
ghost use Rattle.std.specs.Prelude.{◌≤◌, IfOk, length};
ghost use Rattle.command_io.specs.Failing.{ReadsOne, seen_as};

use crate::ends::{Failure, Input};
use crate::refusal::Refusal;
use pun_base::desk::{Desk, ReadError};
use std::alloc::Global;

/// The most bytes that an input has.
const MOST: u64 = 268_435_456;

/// Reads one input, of at most `MOST` bytes.
pub fn read_input<'a, D: Desk>(
    alloc: Global,
    which: Input,
    name: &'a str,
    desk: &mut D,
) -> Result<Vec<u8>, Failure<'a>>
    ensures reads { ReadsOne which name.entry.now (D.seen desk.old) (D.seen desk.new)
        (seen_as (λ v. v.items) result) }
    ensures few { IfOk result (λ v. length v.items ≤ 268435456) }
{
    match desk.read(alloc, name, MOST) {
        Ok(bytes) => Ok(bytes),
        Err(ReadError::Failed) => Err(Failure::ReadFault(name)),
        Err(ReadError::TooLong { .. }) => Err(Failure::Refused(Refusal::TooLong(which))),
        Err(ReadError::Memory) => Err(Failure::Memory),
    }
}
